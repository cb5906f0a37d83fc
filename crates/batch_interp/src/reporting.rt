//! Reports of a whole program, for `exact` and `sound` of `batch_report`.
ghost use Rattle.std.specs.Prelude.{◌≡◌, ◌<◌, suc, length, map, Contains, IfOk, OnOk};
ghost use Rattle.imp_slots.specs.Fits.{IsChecked};
ghost use Rattle.imp_check.specs.Slots.{routines_of};
ghost use Rattle.imp_words.specs.declared.findings.Finding.{Finding};
ghost use Rattle.batch_meaning.specs.Report.{report, finding, checked_in};
ghost use Rattle.batch_sound.specs.Theorem.{IsFindingSound};
ghost use Rattle.call_contexts.specs.Settings.{setting_of};
ghost use Rattle.batch_interp.specs.Frames.{body_at};
ghost use Rattle.batch_interp.specs.Handing.{AreHanded};
ghost use Rattle.batch_interp.specs.Remembering.{AreRight};

use crate::calls::{Handed, Handover, main_handed, taken};
use crate::findings::findings_of;
use crate::frames::Plan;
use crate::pieces::{append, in_one};
use crate::remembered::Remembered;
use crate::totals::{Summed, totals};
use base_values::{Items, Memory};
use batch_sound::reports_are_sound;
use call_contexts::{Setting, few_routines};
use domain_laws::{Domain, Finding, Findings, Steps};
use imp_chains::{chains_go_through_callers, places_are_found};
use imp_table::Checked;
use std::alloc::Global;
use std::sync::ledger::Ledger;

/// The findings of a procedure, and what calls hand down.
#[derive(Drop)]
struct Walked<S> {
    findings: Findings,
    calls: Items<Handed<S>>,
}

/// The findings of the procedure at a place, and what is handed down to those before it.
fn findings_at<D: Domain, L: Ledger>(
    alloc: Global,
    dom: &D,
    plan: &Plan,
    place: usize,
    calls: Items<Handed<D::State>>,
    remembered: &mut Remembered<D::State>,
    steps: &mut Steps<L>,
) -> Result<Walked<D::State>, Memory>
    requires checked { IsChecked plan.now.program }
    requires within { place < length plan.now.program }
    requires handed { AreHanded (D.operations dom.now) plan.now (suc place) calls }
    requires right { AreRight (D.operations dom.now) plan.now remembered.old }
    ensures findings { IfOk result (λ w. w.findings ≡ map
        (finding (D.operations dom.now) plan.now.engine plan.now.program)
        (checked_in (body_at plan.now.program place))) }
    ensures calls { IfOk result (λ w. AreHanded (D.operations dom.now) plan.now place w.calls) }
    ensures right { OnOk result (AreRight (D.operations dom.now) plan.now remembered.new) }
{
    chains_go_through_callers();
    places_are_found();
    let Handover { entered, others } = taken(alloc, calls, place)?;
    let Summed { known, mut calls } = totals(
        alloc,
        dom,
        plan,
        place,
        entered.as_slice(),
        remembered,
        steps,
    )?;
    append(&mut calls, others)?;
    let findings = findings_of(alloc, dom, plan.body(place), &known)?;
    Ok(Walked { findings, calls })
}

/// The findings of a program, one for each statement that has a check, in the order of the text: dead
/// where no chain comes to its procedure, may where a loop takes more rounds than the setting has on the way,
/// else what the domain says of the state before it.
///
/// Where a finding is safe, no run under any inputs fails the check; where it is dead, no run comes to
/// the statement.
///
/// The procedures are walked from main down, each once under each chain to it, from what the calls in
/// the later ones hand down. Its only error is out of memory.
pub fn batch_report<D: Domain, L: Ledger>(
    alloc: Global,
    dom: &D,
    prog: &Checked,
    setting: &Setting,
    steps: &mut Steps<L>,
) -> Result<Findings, Memory>
    requires setting { setting.now ≡ setting_of setting.now.engine (routines_of prog.now) }
    ensures exact { IfOk result (λ all. all ≡ report (D.operations dom.now) setting.now.engine
        (routines_of prog.now)) }
    ensures sound { IfOk result (λ all. (f : Finding) → Contains all f →
        IsFindingSound (routines_of prog.now) f) }
{
    let found = all_findings(alloc, dom, prog, setting, steps);
    reports_are_sound::<D>();
    prog.routines();
    found
}

/// The findings of all procedures.
fn all_findings<D: Domain, L: Ledger>(
    alloc: Global,
    dom: &D,
    prog: &Checked,
    setting: &Setting,
    steps: &mut Steps<L>,
) -> Result<Findings, Memory>
    requires setting { setting.now ≡ setting_of setting.now.engine (routines_of prog.now) }
    ensures is { IfOk result (λ all. all ≡ report (D.operations dom.now) setting.now.engine
        (routines_of prog.now)) }
{
    let count = few_routines(prog).len();
    let plan = Plan::new(prog, setting);
    let mut calls = main_handed(alloc, dom, &plan, steps)?;
    let mut parts = Items::new(alloc);
    let mut remembered = Remembered::new(alloc);
    for place in (0..count).rev() {
        let walked = findings_at(alloc, dom, &plan, place, calls, &mut remembered, steps)?;
        calls = walked.calls;
        parts.push(walked.findings)?;
    }
    in_one(alloc, parts)
}

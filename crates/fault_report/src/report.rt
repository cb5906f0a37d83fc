//! The report of a program.
ghost use Rattle.std.specs.Prelude.{◌≡◌, ◌++◌, [], IfOk, OnOk};
ghost use Rattle.imp_check.specs.Slots.{routines_of};
ghost use Rattle.batch_meaning.specs.Answers as meaning;
ghost use Rattle.call_contexts.specs.Settings.{setting_of};
ghost use Rattle.fault_verdicts.specs.Statements.{place_of};
ghost use Rattle.fault_verdicts.specs.Report.{findings_by, findings_of, faults};
ghost use Rattle.fault_verdicts.specs.Theorem.{IsReportSound};
ghost use Rattle.fault_verdicts.specs.Known.{IsKnown};

use crate::collect::statements_of;
use base_values::{Items, Memory};
use batch_interp::{Answer, QueryError, answer};
use batch_meaning::QueryRefusal;
use call_contexts::Setting;
use domain_laws::{Domain, Steps};
use fault_verdicts::{Evaluated, Known, add_findings, faults_are_sound};
use fault_words::FaultFindings;
use imp_syntax::Location;
use imp_table::Checked;
use std::alloc::Global;
use std::sync::ledger::Ledger;

/// What is known at a location, over all runs.
fn known_at<D: Domain, L: Ledger>(
    alloc: Global,
    dom: &D,
    prog: &Checked,
    setting: &Setting,
    at: &Location,
    steps: &mut Steps<L>,
) -> Result<Known<D::State>, Memory>
    requires setting { setting.now ≡ setting_of setting.now.engine (routines_of prog.now) }
    ensures is { IfOk result (IsKnown (meaning.answer (D.operations dom.now) setting.now.engine
        (routines_of prog.now) at.now [])) }
{
    match answer(alloc, dom, prog, setting, at, &[], steps) {
        Ok(Answer::State(state)) => Ok(Known::State(state)),
        Ok(Answer::Over { head: _, chain: _ }) => Ok(Known::Nothing),
        Err(QueryError::Refused(QueryRefusal::NoChain)) => Ok(Known::Absent),
        Err(QueryError::Refused(_)) => Ok(Known::Nothing),
        Err(QueryError::Memory) => Err(Memory),
    }
}

/// Adds what is found of a statement, if it has fault points.
#[tactic(auto, using(fault_verdicts::proofs::Pointed::none_found))]
fn add_statement<D: Domain, L: Ledger>(
    alloc: Global,
    dom: &D,
    prog: &Checked,
    setting: &Setting,
    x: &Evaluated,
    found: &mut FaultFindings,
    steps: &mut Steps<L>,
) -> Result<(), Memory>
    requires setting { setting.now ≡ setting_of setting.now.engine (routines_of prog.now) }
    ensures added { OnOk result (found.new ≡ found.old ++ findings_by (D.operations dom.now)
        (meaning.answer (D.operations dom.now) setting.now.engine (routines_of prog.now)
        (place_of x.now) []) x.now) }
{
    if !x.has_points() {
        return Ok(());
    }
    let known = known_at(alloc, dom, prog, setting, &x.place(), steps)?;
    add_findings(alloc, dom, x, &known, found)
}

/// What is found of statements.
fn findings_of<D: Domain, L: Ledger>(
    alloc: Global,
    dom: &D,
    prog: &Checked,
    setting: &Setting,
    statements: &[Evaluated],
    steps: &mut Steps<L>,
) -> Result<FaultFindings, Memory>
    requires setting { setting.now ≡ setting_of setting.now.engine (routines_of prog.now) }
    ensures are { IfOk result (λ fs. fs ≡ findings_of (D.operations dom.now) setting.now.engine
        (routines_of prog.now) statements.now) }
{
    let mut found = Items::new(alloc);
    for x in statements {
        add_statement(alloc, dom, prog, setting, x, &mut found, steps)?;
    }
    Ok(found)
}

/// The report of faults, as one fact.
fn all_faults<D: Domain, L: Ledger>(
    alloc: Global,
    dom: &D,
    prog: &Checked,
    setting: &Setting,
    steps: &mut Steps<L>,
) -> Result<FaultFindings, Memory>
    requires setting { setting.now ≡ setting_of setting.now.engine (routines_of prog.now) }
    ensures are { IfOk result (λ fs. fs ≡ faults (D.operations dom.now) setting.now.engine
        (routines_of prog.now)) }
{
    let statements = statements_of(alloc, prog.routines())?;
    findings_of(alloc, dom, prog, setting, statements.as_slice(), steps)
}

/// The report of faults of a program: a finding for each statement and each kind of fault that it can end a run with, in
/// preorder and then in the order of evaluation.
///
/// Where a finding is safe, no run under any inputs ends with the fault there; where it is dead, no run comes to the statement;
/// where it fails, no run that comes there goes on. Where none is may or fails, no run ends with a fault at all.
///
/// Its only error is out of memory.
pub fn fault_report<D: Domain, L: Ledger>(
    alloc: Global,
    dom: &D,
    prog: &Checked,
    setting: &Setting,
    steps: &mut Steps<L>,
) -> Result<FaultFindings, Memory>
    requires setting { setting.now ≡ setting_of setting.now.engine (routines_of prog.now) }
    ensures exact { IfOk result (λ fs. fs ≡ faults (D.operations dom.now) setting.now.engine
        (routines_of prog.now)) }
    ensures sound { IfOk result (IsReportSound (routines_of prog.now)) }
{
    let found = all_faults(alloc, dom, prog, setting, steps);
    faults_are_sound::<D>();
    prog.routines();
    found
}

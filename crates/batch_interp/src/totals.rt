//! What is known before each statement of a procedure that has a check, under all its chains.
ghost use Rattle.std.specs.Prelude.{◌≡◌, ◌<◌, ◌∷◌, [], length, map, reverse, IfOk, OnOk};
ghost use Rattle.imp_slots.specs.Fits.{IsChecked};
ghost use Rattle.imp_chains.specs.Chains.{chains};
ghost use Rattle.batch_meaning.specs.Report.{checked_in};
ghost use Rattle.batch_interp.specs.Answered.{value_of};
ghost use Rattle.batch_interp.specs.Frames.{body_at};
ghost use Rattle.batch_interp.specs.Handing.{AreEntered, AreHandedBy};
ghost use Rattle.batch_interp.specs.Reporting.{claims};
ghost use Rattle.batch_interp.specs.Summing.{sum_with};
ghost use Rattle.batch_interp.specs.Totalling.{first_of, behind_first, all_added, AreTotals};
ghost use Rattle.batch_interp.specs.Remembering.{AreRight};
ghost use Rattle.batch_interp.specs.Added.{Adds};

use crate::Answer;
use crate::calls::{Handed, all_handed};
use crate::frames::Plan;
use crate::gather::gather_entered;
use crate::pieces::last_first;
use crate::remembered::Remembered;
use crate::sums::added;
use crate::walks::Entered;
use base_values::{Items, Memory};
use domain_laws::{Domain, Steps};
use std::alloc::Global;
use std::sync::ledger::Ledger;

/// What is known before each statement of a procedure that has a check, under all its chains, and
/// what calls hand down.
#[derive(Drop)]
pub(crate) struct Summed<S> {
    pub(crate) known: Items<Answer<S>>,
    pub(crate) calls: Items<Handed<S>>,
}

/// Adds one more, joined to the last one so far, which goes, where there is one.
#[tactic(auto, using(crate::proofs::Fronts::first_popped, crate::proofs::Fronts::rest_popped, crate::proofs::Claimed::values_one))]
fn add_total<D: Domain, L: Ledger>(
    alloc: Global,
    dom: &D,
    so_far: &mut Items<Answer<D::State>>,
    next: Answer<D::State>,
    all: &mut Items<Answer<D::State>>,
    steps: &mut Steps<L>,
) -> Result<(), Memory>
    ensures rest { OnOk result (behind_first (map value_of (reverse so_far.old)) ≡
        map value_of (reverse so_far.new)) }
    ensures added { OnOk result (Adds value_of all.old all.new
        (sum_with (D.operations dom.now) (first_of (map value_of (reverse so_far.old)))
        (value_of next) ∷ [])) }
{
    let total = added(alloc, dom, so_far.pop(), next, steps)?;
    all.push(total)
}

/// Each of these, joined to the one so far at its place, where there is one. Both come with the last
/// one first.
fn all_added<D: Domain, L: Ledger>(
    alloc: Global,
    dom: &D,
    so_far: Items<Answer<D::State>>,
    more: Items<Answer<D::State>>,
    steps: &mut Steps<L>,
) -> Result<Items<Answer<D::State>>, Memory>
    ensures is { IfOk result (λ all. map value_of all ≡ all_added (D.operations dom.now)
        (map value_of (reverse so_far)) (map value_of (reverse more))) }
{
    let mut before = so_far;
    let mut left = more;
    let mut all = Items::with_capacity(alloc, left.len())?;
    while let Some(next) = left.pop() {
        add_total(alloc, dom, &mut before, next, &mut all, steps)?;
    }
    Ok(all)
}

/// What is known before each statement of the procedure at a place that has a check, and what its calls
/// hand down, from the procedure entered under all chains to it. Nothing is known where there is no chain.
pub(crate) fn totals<D: Domain, L: Ledger>(
    alloc: Global,
    dom: &D,
    plan: &Plan,
    place: usize,
    entered: &[Entered<D::State>],
    remembered: &mut Remembered<D::State>,
    steps: &mut Steps<L>,
) -> Result<Summed<D::State>, Memory>
    requires checked { IsChecked plan.now.program }
    requires within { place < length plan.now.program }
    requires entered { AreEntered (D.operations dom.now) plan.now place
        (chains plan.now.program place) entered.now }
    requires right { AreRight (D.operations dom.now) plan.now remembered.old }
    ensures known { IfOk result (λ t. AreTotals (D.operations dom.now) plan.now
        (chains plan.now.program place) (claims (checked_in (body_at plan.now.program place)))
        (map value_of t.known)) }
    ensures calls { IfOk result (λ t. AreHandedBy (D.operations dom.now) plan.now place t.calls) }
    ensures right { OnOk result (AreRight (D.operations dom.now) plan.now remembered.new) }
{
    let body = plan.body(place);
    let mut known = Items::new(alloc);
    let mut handed = Items::new(alloc);
    for next in entered {
        let mut more = Items::new(alloc);
        let mut calls = Items::new(alloc);
        gather_entered(
            alloc, dom, plan, body, next, &mut more, &mut calls, remembered, steps,
        )?;
        known = all_added(alloc, dom, last_first(known), last_first(more), steps)?;
        handed = all_handed(alloc, handed, calls)?;
    }
    Ok(Summed {
        known,
        calls: handed,
    })
}

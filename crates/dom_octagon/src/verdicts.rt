//! Verdicts on checks.
ghost use Rattle.std.specs.Prelude.{◌≡◌, false, IfOk, if◌then◌else◌};
ghost use Rattle.imp_slots.specs.Plain.{Does};
ghost use Rattle.imp_slots.specs.ActionViews.{effect_of, act_of};
ghost use Rattle.domain_laws.specs.Checks as checks;
ghost use Rattle.domain_laws.specs.Guards.{verdict_by};
ghost use Rattle.imp_words.specs.declared.verdict.Verdict.TheVariants as verdicts;
ghost use Rattle.dom_octagon_meaning.specs.Operations as operations;
ghost use Rattle.dom_octagon_meaning.specs.States as states;

use crate::guards::assumed;
use crate::indices::{and_length, zero_and};
use base_values::Memory;
use dom_octagon_states::{OctagonState, closed, is_empty, joined};
use domain_laws::Verdict;
use imp_slots::{SlotAction, SlotExpr, SlotStmt};
use imp_syntax::Relation;
use std::alloc::Global;

/// The state where an index is outside its array.
#[tactic(auto, unfolding(dom_octagon_meaning::specs::Operations::assume))]
fn out_of_bounds(
    alloc: Global,
    a: u32,
    e: &SlotExpr,
    s: &OctagonState,
) -> Result<OctagonState, Memory>
    ensures exact { IfOk result (λ t. t ≡ operations.assume
        (checks.checked_guard (checks.Within a e.now)) false s.now) }
{
    let below = zero_and(alloc, Relation::Greater, e, s)?;
    let past = and_length(alloc, Relation::AtLeast, e, a, s)?;
    joined(alloc, &below, &past)
}

/// Safe where nothing fails the check.
fn safe_if_empty(failing: &OctagonState) -> Verdict
    ensures exact { result ≡ (if states.dead failing.now then verdicts.Safe else verdicts.May) }
{
    if is_empty(failing) {
        Verdict::Safe
    } else {
        Verdict::May
    }
}

/// The closed state where a link is null.
#[tactic(auto, unfolding(dom_octagon_meaning::specs::Operations::assume))]
fn link_verdict(alloc: Global, q: u32, s: &OctagonState) -> Result<Verdict, Memory>
    ensures exact { IfOk result (λ v. v ≡ (if states.dead
        (operations.assume (checks.checked_guard (checks.IsCell q)) false s.now)
        then verdicts.Safe else verdicts.May)) }
{
    let null = closed(s)?;
    Ok(safe_if_empty(&null))
}

fn index_verdict(alloc: Global, a: u32, e: &SlotExpr, s: &OctagonState) -> Result<Verdict, Memory>
    ensures exact { IfOk result (λ v. v ≡ (if states.dead
        (operations.assume (checks.checked_guard (checks.Within a e.now)) false s.now)
        then verdicts.Safe else verdicts.May)) }
{
    let failing = out_of_bounds(alloc, a, e, s)?;
    Ok(safe_if_empty(&failing))
}

/// The verdict on a statement before which a closed state is not empty.
#[tactic(auto, unfolding(dom_octagon_meaning::specs::States::dead))]
fn action_verdict(alloc: Global, action: &SlotAction, s: &OctagonState) -> Result<Verdict, Memory>
    requires there { states.dead s.now ≡ false }
    ensures exact { IfOk result (λ v. v ≡ verdict_by operations.assume states.dead
        (Does (effect_of action.now)) s.now) }
{
    match action {
        SlotAction::Assert(c) => {
            let failing = assumed(alloc, c, false, s)?;
            Ok(safe_if_empty(&failing))
        }
        SlotAction::ReadElement(_, a, e) => index_verdict(alloc, *a, e, s),
        SlotAction::WriteElement(a, e, _) => index_verdict(alloc, *a, e, s),
        SlotAction::ReadItem(_, q) => link_verdict(alloc, *q, s),
        SlotAction::ReadNext(_, q) => link_verdict(alloc, *q, s),
        SlotAction::WriteNext(p, _) => link_verdict(alloc, *p, s),
        SlotAction::WriteItem(p, _) => link_verdict(alloc, *p, s),
        SlotAction::Skip => Ok(Verdict::Safe),
        SlotAction::SetInt(_, _) => Ok(Verdict::Safe),
        SlotAction::Input(_) => Ok(Verdict::Safe),
        SlotAction::MakeArray(_, _) => Ok(Verdict::Safe),
        SlotAction::CopyArray(_, _) => Ok(Verdict::Safe),
        SlotAction::SetNull(_) => Ok(Verdict::Safe),
        SlotAction::MakeCell(_) => Ok(Verdict::Safe),
        SlotAction::CopyLink(_, _) => Ok(Verdict::Safe),
    }
}

/// What a state says of the check of the statement after it.
#[tactic(auto, using(dom_octagon_meaning::proofs::Laws::verdict_empty), unfolding(dom_octagon_meaning::specs::Operations::check))]
pub fn verdict(alloc: Global, stmt: &SlotStmt, s: &OctagonState) -> Result<Verdict, Memory>
    ensures exact { IfOk result (λ v. v ≡ operations.check (act_of stmt.now) s.now) }
{
    let closed = closed(s)?;
    if is_empty(&closed) {
        return Ok(Verdict::Dead);
    }
    match stmt {
        SlotStmt::Break => Ok(Verdict::Safe),
        SlotStmt::Simple(action) => action_verdict(alloc, action, &closed),
    }
}

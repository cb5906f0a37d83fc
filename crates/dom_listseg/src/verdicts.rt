//! Verdicts on checks.
ghost use Rattle.std.specs.Prelude.{◌≡◌, false, Some, IfOk, if◌then◌else◌};
ghost use Rattle.imp_slots.specs.ActionViews.{effect_of, act_of};
ghost use Rattle.domain_laws.specs.Checks as checks;
ghost use Rattle.domain_laws.specs.Guards.{verdict_on};
ghost use Rattle.imp_words.specs.declared.verdict.Verdict.TheVariants as verdicts;
ghost use Rattle.dom_listseg_meaning.specs.Operations as operations;

use crate::SegmentState;
use crate::assumptions::assumed;
use crate::state::is_empty;
use crate::statements::is_cell;
use base_values::Memory;
use imp_slots::{SlotAction, SlotCond, SlotStmt};
use imp_words::Verdict;
use std::alloc::Global;

// Safe where nothing fails the check.
fn safe_if_empty(failing: &SegmentState) -> Verdict
    ensures exact { result ≡ (if operations.dead failing.now then verdicts.Safe else verdicts.May) }
{
    if is_empty(failing) {
        Verdict::Safe
    } else {
        Verdict::May
    }
}

// What a state that describes something says of a claim.
fn claim_verdict(alloc: Global, c: &SlotCond, s: &SegmentState) -> Result<Verdict, Memory>
    requires alive { operations.dead s.now ≡ false }
    ensures exact { IfOk result (λ v. v ≡ verdict_on operations.assume operations.dead
        (Some (checks.Claims c.now)) s.now) }
{
    let failing = assumed(alloc, c, false, s)?;
    Ok(safe_if_empty(&failing))
}

// What a state that describes something says of a link being a cell.
fn cell_verdict(alloc: Global, p: u32, s: &SegmentState) -> Result<Verdict, Memory>
    requires alive { operations.dead s.now ≡ false }
    ensures exact { IfOk result (λ v. v ≡ verdict_on operations.assume operations.dead
        (Some (checks.IsCell p)) s.now) }
{
    let failing = is_cell(alloc, p, false, s)?;
    Ok(safe_if_empty(&failing))
}

// What a state that describes something says of the check of a statement; of an index it knows nothing.
#[tactic(auto, using(crate::proofs::Findings::index_may))]
fn action_verdict(alloc: Global, action: &SlotAction, s: &SegmentState) -> Result<Verdict, Memory>
    requires alive { operations.dead s.now ≡ false }
    ensures exact { IfOk result (λ v. v ≡ verdict_on operations.assume operations.dead
        (checks.check_of (effect_of action.now)) s.now) }
{
    match action {
        SlotAction::Assert(c) => claim_verdict(alloc, c, s),
        SlotAction::ReadItem(_, q) => cell_verdict(alloc, *q, s),
        SlotAction::ReadNext(_, q) => cell_verdict(alloc, *q, s),
        SlotAction::WriteNext(p, _) => cell_verdict(alloc, *p, s),
        SlotAction::WriteItem(p, _) => cell_verdict(alloc, *p, s),
        SlotAction::ReadElement(_, _, _) => Ok(Verdict::May),
        SlotAction::WriteElement(_, _, _) => Ok(Verdict::May),
        SlotAction::Skip => Ok(Verdict::Safe),
        SlotAction::SetInt(_, _) => Ok(Verdict::Safe),
        SlotAction::Input(_) => Ok(Verdict::Safe),
        SlotAction::MakeArray(_, _) => Ok(Verdict::Safe),
        SlotAction::CopyArray(_, _) => Ok(Verdict::Safe),
        SlotAction::SetNull(_) => Ok(Verdict::Safe),
        SlotAction::MakeCell(_) => Ok(Verdict::Safe),
        SlotAction::CopyLink(_, _) => Ok(Verdict::Safe),
    }
}

/// What a state says of the check of the statement after it.
#[tactic(auto, unfolding(dom_listseg_meaning::specs::Operations::check), using(crate::proofs::Findings::dead_verdict))]
pub fn verdict(alloc: Global, stmt: &SlotStmt, s: &SegmentState) -> Result<Verdict, Memory>
    ensures exact { IfOk result (λ v. v ≡ operations.check (act_of stmt.now) s.now) }
{
    if is_empty(s) {
        return Ok(Verdict::Dead);
    }
    match stmt {
        SlotStmt::Break => Ok(Verdict::Safe),
        SlotStmt::Simple(action) => action_verdict(alloc, action, s),
    }
}

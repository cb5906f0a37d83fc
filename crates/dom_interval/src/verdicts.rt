//! Verdicts on checks.
ghost use Rattle.std.specs.Prelude.{◌≡◌, false, IfOk, if◌then◌else◌};
ghost use Rattle.imp_syntax.specs.declared.words.Relation.TheVariants as relations;
ghost use Rattle.imp_slots.specs.Plain.{Literal, Length, Does};
ghost use Rattle.imp_slots.specs.ActionViews.{effect_of, act_of};
ghost use Rattle.domain_laws.specs.Checks as checks;
ghost use Rattle.domain_laws.specs.Guards.{verdict_on};
ghost use Rattle.imp_words.specs.declared.verdict.Verdict.TheVariants as verdicts;
ghost use Rattle.dom_interval_meaning.specs.State.{Within};
ghost use Rattle.dom_interval_meaning.specs.Operations as operations;

use crate::compare::{empty, related, side, within};
use crate::evaluate::{evaluate, range};
use crate::guards::{assumed, copied, joined};
use crate::state::Kept;
use crate::statements::is_empty;
use crate::{IntervalState, SlotRange};
use domain_laws::Verdict;
use imp_slots::{SlotAction, SlotCond, SlotExpr, SlotStmt};
use imp_syntax::Relation;
use num_bounds::Range;
use std::alloc::{AllocError, Global};

/// `0 > e`
#[tactic(auto, unfolding(dom_numeric::specs::Ranges::range_by))]
fn below_zero(e: &SlotExpr, slots: Vec<SlotRange>) -> IntervalState
    ensures exact { result ≡ operations.compare_ranges relations.Greater
        (Literal 0) e.now slots.items }
{
    match evaluate(&slots, e) {
        None => empty(),
        Some(index) => related(
            Relation::Greater,
            None,
            side(e),
            Range::from_ends(0, 0),
            index,
            slots,
        ),
    }
}

/// `e >= len a`
#[tactic(auto, unfolding(dom_numeric::specs::Ranges::range_by))]
fn past_length(a: u32, e: &SlotExpr, slots: Vec<SlotRange>) -> IntervalState
    ensures exact { result ≡ operations.compare_ranges relations.AtLeast e.now
        (Length a) slots.items }
{
    match evaluate(&slots, e) {
        None => empty(),
        Some(index) => {
            let length = range(&slots, a);
            related(Relation::AtLeast, side(e), Some(a), index, length, slots)
        }
    }
}

/// The slots where an index is outside its array.
#[tactic(auto, unfolding(dom_interval_meaning::specs::Operations::assume))]
fn out_of_bounds(
    alloc: Global,
    a: u32,
    e: &SlotExpr,
    slots: &Vec<SlotRange>,
) -> Result<IntervalState, AllocError>
    ensures exact { IfOk result (λ t. t ≡ operations.assume
        (checks.checked_guard (checks.Within a e.now)) false (Within slots.now.items)) }
{
    let below = below_zero(e, copied(slots)?);
    let past = past_length(a, e, copied(slots)?);
    joined(alloc, &below, &past)
}

/// Safe where nothing fails the check.
fn safe_if_empty(failing: &IntervalState) -> Verdict
    ensures exact { result ≡ (if operations.dead failing.now then verdicts.Safe else verdicts.May) }
{
    if is_empty(failing) {
        Verdict::Safe
    } else {
        Verdict::May
    }
}

#[tactic(auto, unfolding(dom_interval_meaning::specs::Operations::check, dom_interval_meaning::specs::Operations::dead))]
fn index_verdict(
    alloc: Global,
    a: u32,
    e: &SlotExpr,
    slots: &Vec<SlotRange>,
) -> Result<Verdict, AllocError>
    ensures exact { IfOk result (λ v. v ≡ verdict_on operations.assume operations.dead
        (Some (checks.Within a e.now)) (Within slots.now.items)) }
{
    let failing = out_of_bounds(alloc, a, e, slots)?;
    Ok(safe_if_empty(&failing))
}

#[tactic(auto, unfolding(dom_interval_meaning::specs::Operations::dead))]
fn claim_verdict(alloc: Global, c: &SlotCond, slots: &Vec<SlotRange>) -> Result<Verdict, AllocError>
    ensures exact { IfOk result (λ v. v ≡ verdict_on operations.assume operations.dead
        (Some (checks.Claims c.now)) (Within slots.now.items)) }
{
    let failing = assumed(alloc, c, false, within(copied(slots)?))?;
    Ok(safe_if_empty(&failing))
}

#[tactic(auto, unfolding(dom_interval_meaning::specs::Operations::assume, dom_interval_meaning::specs::Operations::check, dom_interval_meaning::specs::Operations::dead))]
fn action_verdict(
    alloc: Global,
    action: &SlotAction,
    slots: &Vec<SlotRange>,
) -> Result<Verdict, AllocError>
    ensures exact { IfOk result (λ v. v ≡ operations.check (Does (effect_of action.now))
        (Within slots.now.items)) }
{
    match action {
        SlotAction::Assert(c) => claim_verdict(alloc, c, slots),
        SlotAction::ReadElement(_, a, e) => index_verdict(alloc, *a, e, slots),
        SlotAction::WriteElement(a, e, _) => index_verdict(alloc, *a, e, slots),
        SlotAction::ReadItem(_, _) => Ok(Verdict::May),
        SlotAction::ReadNext(_, _) => Ok(Verdict::May),
        SlotAction::WriteNext(_, _) => Ok(Verdict::May),
        SlotAction::WriteItem(_, _) => Ok(Verdict::May),
        SlotAction::Skip => Ok(Verdict::Safe),
        SlotAction::SetInt(_, _) => Ok(Verdict::Safe),
        SlotAction::Input(_) => Ok(Verdict::Safe),
        SlotAction::MakeArray(_, _) => Ok(Verdict::Safe),
        SlotAction::CopyArray(_, _) => Ok(Verdict::Safe),
        SlotAction::SetNull(_) => Ok(Verdict::Safe),
        SlotAction::MakeCell(_) => Ok(Verdict::Safe),
        SlotAction::CopyLink(_, _) => Ok(Verdict::Safe),
    }
}

/// What a state says of the check of the statement after it.
#[tactic(auto, using(dom_interval_meaning::proofs::Laws::check_empty), unfolding(dom_interval_meaning::specs::Operations::check, dom_interval_meaning::specs::Operations::dead))]
pub fn verdict(alloc: Global, stmt: &SlotStmt, s: &IntervalState) -> Result<Verdict, AllocError>
    ensures exact { IfOk result (λ v. v ≡ operations.check (act_of stmt.now) s.now) }
{
    match (stmt, &s.kept) {
        (_, Kept::Empty) => Ok(Verdict::Dead),
        (SlotStmt::Break, Kept::Within(_)) => Ok(Verdict::Safe),
        (SlotStmt::Simple(action), Kept::Within(slots)) => action_verdict(alloc, action, slots),
    }
}

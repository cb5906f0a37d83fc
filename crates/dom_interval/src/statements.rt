//! Simple statements and their checks.
ghost use Rattle.std.specs.Prelude.{◌≡◌, true, IfOk};
ghost use Rattle.imp_slots.specs.Plain as plain;
ghost use Rattle.imp_slots.specs.Plain.{Literal, Length};
ghost use Rattle.imp_syntax.specs.declared.words.Relation.TheVariants as relations;
ghost use Rattle.imp_slots.specs.ActionViews.{effect_of, act_of};
ghost use Rattle.domain_laws.specs.Checks as checks;
ghost use Rattle.domain_laws.specs.Guards.{past_check};
ghost use Rattle.dom_interval_meaning.specs.State.{Within};
ghost use Rattle.dom_interval_meaning.specs.Ranges as ranges;
ghost use Rattle.dom_interval_meaning.specs.Operations as operations;

use crate::compare::{empty, related, side, with_range, within};
use crate::evaluate::{evaluate, full, range};
use crate::guards::{assumed, copied};
use crate::state::Kept;
use crate::{IntervalState, SlotRange};
use dom_numeric::LONGEST;
use domain_laws::Verdict;
use imp_slots::{SlotAction, SlotExpr, SlotStmt};
use imp_syntax::Relation;
use num_bounds::Range;
use std::alloc::{AllocError, Global};

/// `0 <= e`
#[tactic(auto, unfolding(dom_numeric::specs::Ranges::range_by))]
fn not_below_zero(e: &SlotExpr, slots: Vec<SlotRange>) -> IntervalState
    ensures exact { result ≡ operations.compare_ranges relations.AtMost
        (Literal 0) e.now slots.items }
{
    match evaluate(&slots, e) {
        None => empty(),
        Some(index) => related(
            Relation::AtMost,
            None,
            side(e),
            Range::from_ends(0, 0),
            index,
            slots,
        ),
    }
}

/// `e < len a`
#[tactic(auto, unfolding(dom_numeric::specs::Ranges::range_by))]
fn below_length(a: u32, e: &SlotExpr, slots: Vec<SlotRange>) -> IntervalState
    ensures exact { result ≡ operations.compare_ranges relations.Less e.now (Length a) slots.items }
{
    match evaluate(&slots, e) {
        None => empty(),
        Some(index) => {
            let length = range(&slots, a);
            related(Relation::Less, side(e), Some(a), index, length, slots)
        }
    }
}

/// `0 <= e && e < len a`
#[tactic(auto, unfolding(dom_interval_meaning::specs::Operations::assume))]
fn in_bounds(a: u32, e: &SlotExpr, slots: Vec<SlotRange>) -> IntervalState
    ensures exact { result ≡ operations.assume (checks.checked_guard (checks.Within a e.now)) true
        (Within slots.items) }
{
    match not_below_zero(e, slots).kept {
        Kept::Empty => empty(),
        Kept::Within(slots) => below_length(a, e, slots),
    }
}

/// The slots where the check of a statement holds.
#[tactic(auto, unfolding(dom_interval_meaning::specs::Operations::assume))]
fn checked(
    alloc: Global,
    action: &SlotAction,
    slots: Vec<SlotRange>,
) -> Result<IntervalState, AllocError>
    ensures exact { IfOk result (λ t. t ≡ past_check operations.assume
        (checks.check_of (effect_of action.now)) (Within slots.items)) }
{
    match action {
        SlotAction::Assert(c) => assumed(alloc, c, true, within(slots)),
        SlotAction::ReadElement(_, a, e) => Ok(in_bounds(*a, e, slots)),
        SlotAction::WriteElement(a, e, _) => Ok(in_bounds(*a, e, slots)),
        SlotAction::Skip => Ok(within(slots)),
        SlotAction::SetInt(_, _) => Ok(within(slots)),
        SlotAction::Input(_) => Ok(within(slots)),
        SlotAction::ReadItem(_, _) => Ok(within(slots)),
        SlotAction::MakeArray(_, _) => Ok(within(slots)),
        SlotAction::CopyArray(_, _) => Ok(within(slots)),
        SlotAction::SetNull(_) => Ok(within(slots)),
        SlotAction::MakeCell(_) => Ok(within(slots)),
        SlotAction::CopyLink(_, _) => Ok(within(slots)),
        SlotAction::ReadNext(_, _) => Ok(within(slots)),
        SlotAction::WriteNext(_, _) => Ok(within(slots)),
        SlotAction::WriteItem(_, _) => Ok(within(slots)),
    }
}

/// `x = e`
fn set_int(x: u32, e: &SlotExpr, slots: Vec<SlotRange>) -> IntervalState
    ensures exact { result ≡ operations.needs (ranges.range_of slots.items e.now)
        (λ r. Within (ranges.with_range slots.items x r)) }
{
    match evaluate(&slots, e) {
        None => empty(),
        Some(range) => within(with_range(slots, x, range)),
    }
}

/// `a = array e`
#[tactic(auto, unfolding(dom_interval_meaning::specs::Operations::does))]
fn make_array(a: u32, e: &SlotExpr, slots: Vec<SlotRange>) -> IntervalState
    ensures exact { result ≡ operations.does (plain.MakeArray a e.now) slots.items }
{
    let Some(range) = evaluate(&slots, e) else {
        return empty();
    };
    match range.cut(0, LONGEST) {
        None => empty(),
        Some(length) => within(with_range(slots, a, length)),
    }
}

/// A statement that asks no more than that an expression has a value.
fn needs_value(e: &SlotExpr, slots: Vec<SlotRange>) -> IntervalState
    ensures exact { result ≡ operations.needs (ranges.range_of slots.items e.now)
        (λ r. Within slots.items) }
{
    match evaluate(&slots, e) {
        None => empty(),
        Some(_) => within(slots),
    }
}

/// What a statement does after its check.
#[tactic(auto, unfolding(dom_interval_meaning::specs::Operations::does))]
fn done(action: &SlotAction, slots: Vec<SlotRange>) -> IntervalState
    ensures exact { result ≡ operations.does (effect_of action.now) slots.items }
{
    match action {
        SlotAction::SetInt(x, e) => set_int(*x, e, slots),
        SlotAction::Input(x) => within(with_range(slots, *x, full())),
        SlotAction::ReadElement(x, _, _) => within(with_range(slots, *x, full())),
        SlotAction::ReadItem(x, _) => within(with_range(slots, *x, full())),
        SlotAction::MakeArray(a, e) => make_array(*a, e, slots),
        SlotAction::CopyArray(a, b) => {
            let length = range(&slots, *b);
            within(with_range(slots, *a, length))
        }
        SlotAction::WriteElement(_, _, f) => needs_value(f, slots),
        SlotAction::WriteItem(_, e) => needs_value(e, slots),
        SlotAction::Skip => within(slots),
        SlotAction::Assert(_) => within(slots),
        SlotAction::SetNull(_) => within(slots),
        SlotAction::MakeCell(_) => within(slots),
        SlotAction::CopyLink(_, _) => within(slots),
        SlotAction::ReadNext(_, _) => within(slots),
        SlotAction::WriteNext(_, _) => within(slots),
    }
}

/// The slots after a simple statement.
#[tactic(auto, unfolding(dom_interval_meaning::specs::Operations::post))]
fn performed(
    alloc: Global,
    action: &SlotAction,
    slots: Vec<SlotRange>,
) -> Result<IntervalState, AllocError>
    ensures exact { IfOk result (λ t. t ≡ operations.post (plain.Does (effect_of action.now))
        (Within slots.items)) }
{
    match checked(alloc, action, slots)?.kept {
        Kept::Empty => Ok(empty()),
        Kept::Within(slots) => Ok(done(action, slots)),
    }
}

/// The state after a simple statement or a break.
#[tactic(auto, unfolding(dom_interval_meaning::specs::Operations::post), using(dom_interval_meaning::proofs::Laws::post_empty))]
pub fn behind(
    alloc: Global,
    stmt: &SlotStmt,
    s: &IntervalState,
) -> Result<IntervalState, AllocError>
    ensures exact { IfOk result (λ t. t ≡ operations.post (act_of stmt.now) s.now) }
{
    match (stmt, &s.kept) {
        (SlotStmt::Break, _) => Ok(empty()),
        (SlotStmt::Simple(_), Kept::Empty) => Ok(empty()),
        (SlotStmt::Simple(action), Kept::Within(slots)) => {
            performed(alloc, action, copied(slots)?)
        }
    }
}

/// Whether nothing is described.
#[tactic(auto, unfolding(dom_interval_meaning::specs::Operations::dead))]
pub fn is_empty(s: &IntervalState) -> bool
    ensures exact { result ≡ operations.dead s.now }
{
    match &s.kept {
        Kept::Empty => true,
        Kept::Within(_) => false,
    }
}

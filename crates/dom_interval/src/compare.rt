//! Comparisons of expressions, on slots that may be written.
ghost use Rattle.std.specs.Prelude.{◌≡◌, ◌&&◌, false};
ghost use Rattle.std.specs.Ordering.{int_eq};
ghost use Rattle.domain_laws.specs.Checks.{opposite};
ghost use Rattle.dom_interval_meaning.specs.State.{Empty, Within};
ghost use Rattle.dom_interval_meaning.specs.Ranges as ranges;
ghost use Rattle.dom_interval_meaning.specs.Operations as operations;

use crate::evaluate::{evaluate, range};
use crate::state::Kept;
use crate::{IntervalState, SlotRange};
use imp_slots::{SlotExpr, SlotExprNode};
use imp_syntax::Relation;
use num_bounds::Range;

/// The state that describes nothing.
pub fn empty() -> IntervalState
    ensures exact { result ≡ Empty }
{
    IntervalState { kept: Kept::Empty }
}

/// The state of these slots.
pub fn within(slots: Vec<SlotRange>) -> IntervalState
    ensures exact { result ≡ Within slots.items }
{
    IntervalState {
        kept: Kept::Within(slots),
    }
}

/// The slots with another range for one of them.
#[tactic(auto, using(crate::proofs::Past::set_past_end))]
pub fn with_range(slots: Vec<SlotRange>, x: u32, range: Range) -> Vec<SlotRange>
    ensures exact { result.items ≡ ranges.with_range slots.items x range }
{
    let mut slots = slots;
    let x = x as usize;
    if x >= slots.len() {
        return slots;
    }
    let is_array = slots[x].is_array;
    slots[x] = SlotRange { is_array, range };
    slots
}

/// The slot of a side that is a variable or the length of one.
pub fn side(expr: &SlotExpr) -> Option<u32>
    ensures exact { result ≡ operations.side_of expr.now }
{
    match expr.node() {
        SlotExprNode::Slot(x) => Some(*x),
        SlotExprNode::Length(a) => Some(*a),
        SlotExprNode::Literal(_) => None,
        SlotExprNode::Negative(_) => None,
        SlotExprNode::Binary(_, _, _) => None,
    }
}

fn cut_slot(x: u32, lo: i64, hi: i64, slots: Vec<SlotRange>) -> IntervalState
    ensures exact { result ≡ operations.cut_side (Some x) lo hi slots.items }
{
    match range(&slots, x).cut(lo, hi) {
        None => empty(),
        Some(range) => within(with_range(slots, x, range)),
    }
}

fn cut_side(side: Option<u32>, lo: i64, hi: i64, slots: Vec<SlotRange>) -> IntervalState
    ensures exact { result ≡ operations.cut_side side lo hi slots.items }
{
    match side {
        None => within(slots),
        Some(x) => cut_slot(x, lo, hi, slots),
    }
}

/// Cuts the left side to one range, and the right side to another.
fn cut_both(
    a: Option<u32>,
    b: Option<u32>,
    left: Range,
    right: Range,
    slots: Vec<SlotRange>,
) -> IntervalState
    ensures exact { result ≡ operations.cut_both a b left right slots.items }
{
    match cut_side(a, left.lo(), left.hi(), slots).kept {
        Kept::Empty => empty(),
        Kept::Within(slots) => cut_side(b, right.lo(), right.hi(), slots),
    }
}

fn less(
    a: Option<u32>,
    b: Option<u32>,
    left: Range,
    right: Range,
    slots: Vec<SlotRange>,
) -> IntervalState
    ensures exact { result ≡ operations.less a b left right slots.items }
{
    let low = left.lo();
    let high = right.hi();
    if high <= low {
        return empty();
    }
    let left = Range::from_ends(i64::MIN, high - 1);
    let right = Range::from_ends(low + 1, i64::MAX);
    cut_both(a, b, left, right, slots)
}

fn at_most(
    a: Option<u32>,
    b: Option<u32>,
    left: Range,
    right: Range,
    slots: Vec<SlotRange>,
) -> IntervalState
    ensures exact { result ≡ operations.at_most a b left right slots.items }
{
    let low = left.lo();
    let high = right.hi();
    if high < low {
        return empty();
    }
    let left = Range::from_ends(i64::MIN, high);
    let right = Range::from_ends(low, i64::MAX);
    cut_both(a, b, left, right, slots)
}

fn equal(
    a: Option<u32>,
    b: Option<u32>,
    left: Range,
    right: Range,
    slots: Vec<SlotRange>,
) -> IntervalState
    ensures exact { result ≡ operations.equal a b left right slots.items }
{
    match left.cut(right.lo(), right.hi()) {
        None => empty(),
        Some(common) => cut_both(a, b, common, common, slots),
    }
}

fn is_single(range: Range) -> bool
    ensures exact { result ≡ operations.is_single range }
{
    range.lo() == range.hi()
}

/// A side loses an end where the other side is one number, that end. The ranges are not both one
/// and the same number.
fn lose_end(a: Option<u32>, own: Range, other: Range, slots: Vec<SlotRange>) -> IntervalState
    requires apart { (operations.is_single own && (operations.is_single other && int_eq own.lo
        other.lo)) ≡ false }
    ensures exact { result ≡ operations.lose_end a own other slots.items }
{
    if !is_single(other) {
        return within(slots);
    }
    let low = own.lo();
    let high = own.hi();
    let number = other.lo();
    if low == number {
        return cut_side(a, low + 1, i64::MAX, slots);
    }
    if high == number {
        return cut_side(a, i64::MIN, high - 1, slots);
    }
    within(slots)
}

fn not_equal(
    a: Option<u32>,
    b: Option<u32>,
    left: Range,
    right: Range,
    slots: Vec<SlotRange>,
) -> IntervalState
    ensures exact { result ≡ operations.not_equal a b left right slots.items }
{
    if is_single(left) && is_single(right) && left.lo() == right.lo() {
        return empty();
    }
    match lose_end(a, left, right, slots).kept {
        Kept::Empty => empty(),
        Kept::Within(slots) => lose_end(b, right, left, slots),
    }
}

/// What a comparison leaves, from the sides that are slots and the ranges of both.
pub fn related(
    relation: Relation,
    a: Option<u32>,
    b: Option<u32>,
    left: Range,
    right: Range,
    slots: Vec<SlotRange>,
) -> IntervalState
    ensures exact { result ≡ operations.related relation a b left right slots.items }
{
    match relation {
        Relation::Equal => equal(a, b, left, right, slots),
        Relation::NotEqual => not_equal(a, b, left, right, slots),
        Relation::Less => less(a, b, left, right, slots),
        Relation::AtMost => at_most(a, b, left, right, slots),
        Relation::Greater => less(b, a, right, left, slots),
        Relation::AtLeast => at_most(b, a, right, left, slots),
    }
}

/// What a comparison of expressions leaves of the slots.
pub fn compare(
    relation: Relation,
    a: &SlotExpr,
    b: &SlotExpr,
    slots: Vec<SlotRange>,
) -> IntervalState
    ensures exact { result ≡ operations.compare_ranges relation a.now b.now slots.items }
{
    let Some(left) = evaluate(&slots, a) else {
        return empty();
    };
    let Some(right) = evaluate(&slots, b) else {
        return empty();
    };
    related(relation, side(a), side(b), left, right, slots)
}

/// The relation that holds exactly where the other does not.
pub fn opposite_of(relation: Relation) -> Relation
    ensures exact { result ≡ opposite relation }
{
    match relation {
        Relation::Equal => Relation::NotEqual,
        Relation::NotEqual => Relation::Equal,
        Relation::Less => Relation::AtLeast,
        Relation::AtMost => Relation::Greater,
        Relation::Greater => Relation::AtMost,
        Relation::AtLeast => Relation::Less,
    }
}

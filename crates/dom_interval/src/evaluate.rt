//! The ranges of expressions.
ghost use Rattle.std.specs.Prelude.{◌≡◌, ◌<◌, ◌^◌, pos, false};
ghost use Rattle.dom_interval_meaning.specs.Ranges.{slot_at, range_at, range_of, extremes};

use crate::SlotRange;
use dom_numeric::{LONGEST, operate};
use imp_slots::{SlotExpr, SlotExprNode};
use num_bounds::Range;

/// The full range.
pub fn full() -> Range
    ensures exact { result ≡ extremes false }
{
    Range::from_ends(i64::MIN, i64::MAX)
}

/// The ends that a slot's range stays within.
pub fn extremes_of(is_array: bool) -> Range
    ensures exact { result ≡ extremes is_array }
{
    if is_array {
        Range::from_ends(0, LONGEST)
    } else {
        full()
    }
}

/// The slot at a place, an int of the full range where there is none.
pub fn slot(slots: &[SlotRange], x: u32) -> SlotRange
    ensures exact { result ≡ slot_at slots.now x }
{
    let x = x as usize;
    if x < slots.len() {
        slots[x]
    } else {
        SlotRange {
            is_array: false,
            range: full(),
        }
    }
}

/// The range of a slot.
pub fn range(slots: &[SlotRange], x: u32) -> Range
    ensures exact { result ≡ range_at slots.now x }
{
    slot(slots, x).range
}

fn literal(n: u64) -> Range
    requires small { n < 2 ^ 63 }
    ensures exact { result ≡ record { lo = pos n; hi = pos n } }
{
    let n = n as i64;
    Range::from_ends(n, n)
}

/// The range of an expression, or `None` where it has no value.
#[tactic(auto, unfolding(dom_numeric::specs::Ranges::range_by))]
pub fn evaluate(slots: &[SlotRange], expr: &SlotExpr) -> Option<Range>
    ensures exact { result ≡ range_of slots.now expr.now }
{
    match expr.node() {
        SlotExprNode::Literal(n) => Some(literal(n.value())),
        SlotExprNode::Slot(x) => Some(range(slots, *x)),
        SlotExprNode::Length(a) => Some(range(slots, *a)),
        SlotExprNode::Negative(e) => evaluate(slots, e)?.neg(),
        SlotExprNode::Binary(operator, a, b) => {
            let a = evaluate(slots, a)?;
            let b = evaluate(slots, b)?;
            operate(*operator, a, b)
        }
    }
}

//! Widening of states, end by end, for `exact` of `widened`.
ghost use Rattle.std.specs.Prelude.{◌≡◌, ◌≤ℤ◌, int_le, if◌then◌else◌, IfOk, map};
ghost use Rattle.std.specs.List.{zip};
ghost use Rattle.std.specs.Int.{int_max, int_min};
ghost use Rattle.dom_interval.specs.Nearest.{at_least, at_most};
ghost use Rattle.dom_interval_meaning.specs.Widening as widening;

use crate::compare::within;
use crate::evaluate::extremes_of;
use crate::guards::copy_of;
use crate::state::Kept;
use crate::{IntervalState, SlotRange};
use num_bounds::Range;
use num_thresholds::Thresholds;
use std::alloc::{AllocError, Global};
use std::marker::Model;

/// An end of a range.
#[derive(Clone, Copy)]
struct End {
    value: i64,
}

impl Model for End {
    ghost use Rattle.std.specs.Prelude.{ℤ};

    ghost Value = { ℤ };

    ghost view = { λ a. a.value };

    ghost inverse = { λ z. record { value = z } };
}

fn low_extreme(extremes: Range, end: End) -> End
    ensures exact { result ≡ int_min extremes.lo end }
{
    End {
        value: extremes.lo().min(end.value),
    }
}

fn high_extreme(extremes: Range, end: End) -> End
    ensures exact { result ≡ int_max extremes.hi end }
{
    End {
        value: extremes.hi().max(end.value),
    }
}

fn low_of(range: Range) -> End
    ensures exact { result ≡ range.lo }
    ensures ordered { range.lo ≤ℤ range.hi }
{
    End { value: range.lo() }
}

fn high_of(range: Range) -> End
    ensures exact { result ≡ range.hi }
    ensures ordered { range.lo ≤ℤ range.hi }
{
    End { value: range.hi() }
}

/// The lesser of two ends.
fn lesser(a: End, b: End) -> End
    ensures exact { result ≡ int_min a b }
{
    End {
        value: a.value.min(b.value),
    }
}

/// The greater of two ends.
fn greater(a: End, b: End) -> End
    ensures exact { result ≡ int_max a b }
{
    End {
        value: a.value.max(b.value),
    }
}

/// A threshold, if there is one, but no less than an end.
fn at_least(threshold: Option<i64>, end: End) -> End
    ensures exact { result ≡ at_least threshold end }
{
    match threshold {
        Some(value) => greater(End { value }, end),
        None => end,
    }
}

/// A threshold, if there is one, but no more than an end.
fn at_most(threshold: Option<i64>, end: End) -> End
    ensures exact { result ≡ at_most threshold end }
{
    match threshold {
        Some(value) => lesser(End { value }, end),
        None => end,
    }
}

/// The greatest threshold within the extremes that is not above the end, or the low extreme.
fn threshold_below(thresholds: &Thresholds<'_>, extremes: Range, end: End) -> End
    ensures exact { result ≡ widening.threshold_below thresholds.now extremes end }
{
    let top = lesser(high_of(extremes), end);
    let threshold = thresholds.greatest_to(top.value);
    at_least(threshold, low_extreme(extremes, end))
}

/// The least threshold within the extremes that is not below the end, or the high extreme.
fn threshold_above(thresholds: &Thresholds<'_>, extremes: Range, end: End) -> End
    ensures exact { result ≡ widening.threshold_above thresholds.now extremes end }
{
    let bottom = greater(low_of(extremes), end);
    let threshold = thresholds.least_from(bottom.value);
    at_most(threshold, high_extreme(extremes, end))
}

fn low_end(thresholds: &Thresholds<'_>, extremes: Range, l: End, r: End) -> End
    ensures exact { result ≡ (if int_le l r then l else widening.threshold_below thresholds.now
        extremes r) }
{
    if l.value <= r.value {
        l
    } else {
        threshold_below(thresholds, extremes, r)
    }
}

fn high_end(thresholds: &Thresholds<'_>, extremes: Range, l: End, r: End) -> End
    ensures exact { result ≡ (if int_le r l then l else widening.threshold_above thresholds.now
        extremes r) }
{
    if r.value <= l.value {
        l
    } else {
        threshold_above(thresholds, extremes, r)
    }
}

fn between(low: End, high: End) -> Range
    requires ordered { low ≤ℤ high }
    ensures exact { result ≡ record { lo = low; hi = high } }
{
    Range::from_ends(low.value, high.value)
}

fn widened_range(thresholds: &Thresholds<'_>, extremes: Range, l: Range, r: Range) -> Range
    ensures exact { result ≡ widening.widen_range thresholds.now extremes l r }
{
    let low = low_end(thresholds, extremes, low_of(l), low_of(r));
    let high = high_end(thresholds, extremes, high_of(l), high_of(r));
    between(low, high)
}

fn widened_slots(
    alloc: Global,
    thresholds: &Thresholds<'_>,
    left: &[SlotRange],
    right: &[SlotRange],
) -> Result<Vec<SlotRange>, AllocError>
    ensures exact { IfOk result (λ v. v.items ≡ map (λ p.
        widening.widen_slot thresholds.now p.0 p.1) (zip left.now right.now)) }
{
    left.iter()
        .zip(right.iter())
        .map(|(a, b)| SlotRange {
            is_array: a.is_array,
            range: widened_range(thresholds, extremes_of(a.is_array), a.range, b.range),
        })
        .collect(alloc)
}

/// The next iterate: an end that the right state does not pass stays, any other goes to a threshold.
#[tactic(auto, unfolding(dom_interval_meaning::specs::Widening::widen))]
pub fn widened(
    alloc: Global,
    thresholds: &[i64],
    l: &IntervalState,
    r: &IntervalState,
) -> Result<IntervalState, AllocError>
    ensures exact { IfOk result (λ t. t ≡ widening.widen thresholds.now l.now r.now) }
{
    match (&l.kept, &r.kept) {
        (Kept::Within(a), Kept::Within(b)) => {
            let thresholds = Thresholds::new(thresholds);
            Ok(within(widened_slots(alloc, &thresholds, a, b)?))
        }
        (Kept::Empty, _) => copy_of(r),
        (_, Kept::Empty) => copy_of(l),
    }
}

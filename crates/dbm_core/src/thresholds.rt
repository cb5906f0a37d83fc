//! Thresholds, to which widened bounds go.
ghost use Rattle.std.specs.Prelude.{◌≡◌, ◌^◌, Some, cond, int_lt};
ghost use Rattle.dbm_core.specs.Limits.{IsWithin};
ghost use Rattle.dbm_core.specs.Operations.{threshold_value as value_of, next_threshold, widen_bound};
ghost use Rattle.dbm_core.specs.Weights.{least};

use crate::bounds::smaller;

/// A bound stays where the new one is not greater, else it goes to the next threshold.
pub fn widen_one(
    thresholds: &[i64],
    doubled: bool,
    old: Option<i128>,
    new: Option<i128>,
) -> Option<i128>
    ensures widened { result ≡ widen_bound thresholds.now doubled old new }
    ensures within { IsWithin (2 ^ 64) old → IsWithin (2 ^ 64) result }
{
    match (old, new) {
        (Some(x), Some(y)) => if x < y {
            threshold_from(thresholds, doubled, y)
        } else {
            Some(x)
        },
        _ => None,
    }
}

// The least of the thresholds, or of the thresholds doubled, that is not less than the bound.
fn threshold_from(thresholds: &[i64], doubled: bool, bound: i128) -> Option<i128>
    ensures threshold { result ≡ next_threshold thresholds.now doubled bound }
    ensures within { IsWithin (2 ^ 64) result }
{
    let mut next = None;
    for threshold in thresholds {
        let value = threshold_value(*threshold, doubled);
        next = nearer_threshold(next, value, bound);
    }
    next
}

// The value where it is not less than the bound and less than the next one that was found.
fn nearer_threshold(next: Option<i128>, value: i128, bound: i128) -> Option<i128>
    ensures nearer { result ≡ cond (int_lt value bound) next (least next (Some value)) }
{
    if value < bound {
        next
    } else {
        smaller(next, Some(value))
    }
}

// A threshold, or its double.
fn threshold_value(threshold: i64, doubled: bool) -> i128
    ensures value { result ≡ value_of doubled threshold }
    ensures within { IsWithin (2 ^ 64) (Some result) }
{
    let value = i128::from(threshold);
    if doubled { 2 * value } else { value }
}

//! The ranges of slots.
ghost use Rattle.std.specs.Prelude.{◌≡◌, ◌<◌, ◌^◌, ℕ, ℤ, ◌≤ℤ◌, ◌<ℤ◌, length};
ghost use Rattle.std.specs.Bool.{MatchBool};
ghost use Rattle.dbm_close.specs.Close.{HasEmptyRange, HasNoEmptyRange, slot_high, slot_low};
ghost use Rattle.dbm_close.specs.Laws.{AreInSlots};
ghost use Rattle.dbm_close.specs.Steps.{range_high, range_low};
ghost use Rattle.dbm_core.specs.Half.{entry, nodes};
ghost use Rattle.dbm_core.specs.Limits.{AreWithin, IsWithin};
ghost use Rattle.dbm_core.specs.Valuations.{IsSatisfiedBy};

use dbm_core::Matrix;

/// The ends of a slot's range: the least and the greatest value that its own two bounds leave
/// within the extremes of its kind. Whatever satisfies the matrix lies there.
pub fn slot_range(matrix: &Matrix, slot: usize) -> (i128, i128)
    requires slot { slot < length matrix.now.kinds }
    requires within { AreWithin (nodes matrix.now) (2 ^ 70) (entry matrix.now) }
    ensures low { result.0 ≡ slot_low matrix.now.kinds (entry matrix.now) slot }
    ensures high { result.1 ≡ slot_high matrix.now.kinds (entry matrix.now) slot }
    ensures covers { (x : ℕ → ℤ) → AreInSlots matrix.now.kinds x → IsSatisfiedBy matrix.now x →
        (result.0 ≤ℤ x slot) × (x slot ≤ℤ result.1) }
{
    let array = matrix.kinds()[slot];
    let low = low_end(array, matrix.get(2 * slot, 2 * slot + 1));
    let high = high_end(array, matrix.get(2 * slot + 1, 2 * slot));
    (low, high)
}

// The least value of a slot, by the bound on twice its negative.
fn low_end(array: bool, bound: Option<i128>) -> i128
    requires within { IsWithin (2 ^ 104) bound }
    ensures low { result ≡ range_low array bound }
{
    let extreme = if array { 0 } else { -9223372036854775808 };
    match bound {
        Some(x) => {
            let end = -x.div_euclid(2);
            if end < extreme { extreme } else { end }
        }
        None => extreme,
    }
}

// The greatest value of a slot, by the bound on twice it.
fn high_end(array: bool, bound: Option<i128>) -> i128
    ensures high { result ≡ range_high array bound }
{
    let extreme = if array { 1000000 } else { 9223372036854775807 };
    match bound {
        Some(x) => {
            let end = x.div_euclid(2);
            if end < extreme { end } else { extreme }
        }
        None => extreme,
    }
}

/// Step 6, of one slot: whether its range is empty.
pub fn is_range_empty(r: &Matrix, slot: usize) -> bool
    requires slot { slot < length r.now.kinds }
    requires within { AreWithin (nodes r.now) (2 ^ 104) (entry r.now) }
    ensures empty { MatchBool result (slot_high r.now.kinds
        (entry r.now) slot <ℤ slot_low r.now.kinds (entry r.now) slot)
        (slot_low r.now.kinds (entry r.now) slot ≤ℤ slot_high r.now.kinds (entry r.now) slot) }
{
    let array = r.kinds()[slot];
    let low = low_end(array, r.get(2 * slot, 2 * slot + 1));
    let high = high_end(array, r.get(2 * slot + 1, 2 * slot));
    high < low
}

/// Step 6: whether a slot's range is empty.
pub fn has_empty_range(r: &Matrix) -> bool
    requires within { AreWithin (nodes r.now) (2 ^ 104) (entry r.now) }
    ensures empty { MatchBool result (HasEmptyRange r.now.kinds (entry r.now))
        (HasNoEmptyRange r.now.kinds (entry r.now)) }
{
    let kinds = r.kinds();
    for (k, array) in kinds.iter().enumerate() {
        if high_end(*array, r.get(2 * k + 1, 2 * k)) < low_end(*array, r.get(2 * k, 2 * k + 1)) {
            return true;
        }
    }
    false
}

//! Steps 2 to 6, over the least weights: one pass that changes the kept entries, and one that reads
//! them.
ghost use Rattle.std.specs.Prelude.{◌≡◌, ◌<◌, ◌≤◌, ◌+◌, ◌*◌, ◌^◌, ◌%◌, ℕ, None, slice_index_or, length};
ghost use Rattle.std.specs.Bool.{MatchBool};
ghost use Rattle.dbm_close.specs.Close.{IsNotTooLow, IsTooLow};
ghost use Rattle.dbm_close.specs.Finish.{IsFinishOf};
ghost use Rattle.dbm_close.specs.Halves.{HasHalves, HasNegativeHalves, HasNoNegativeHalves, halved_bound};
ghost use Rattle.dbm_close.specs.Steps.{cut, half};
ghost use Rattle.dbm_core.specs.Half.{IsMatrix, entry, nodes, row_width};
ghost use Rattle.dbm_core.specs.Limits.{AreWithin, IsWithin};
ghost use Rattle.dbm_core.specs.Nodes.{flip};

use crate::Closed;
use crate::bounds::{cut_bound, half_bound, is_low_bound, is_negative, plus};
use crate::middle::column;
use crate::ranges::has_empty_range;
use dbm_core::{Matrix, other_sign, smaller};

/// Steps 2 to 6, over the least weights.
pub fn finish(weights: Matrix) -> Closed
    requires within { AreWithin (nodes weights) (2 ^ 102) (entry weights) }
    ensures finish { IsFinishOf weights.kinds (entry weights) result }
{
    let mut matrix = weights;
    let count = 2 * matrix.kinds().len();
    let halves = halves_of(&matrix);
    if has_negative_halves(&halves, count) {
        return Closed::Empty;
    }
    strengthen_and_cut(&mut matrix, &halves);
    if has_low_entry(&matrix) {
        return Closed::Empty;
    }
    if has_empty_range(&matrix) {
        return Closed::Empty;
    }
    Closed::Matrix(matrix)
}

/// Half of the bound from each node to that of the other sign, rounded down: step 2 makes the bound
/// twice that.
pub fn halves_of(m: &Matrix) -> [Option<i128>; 32]
    requires within { AreWithin (nodes m.now) (2 ^ 102) (entry m.now) }
    ensures halves { HasHalves (nodes m.now) (entry m.now) result }
    ensures small { (i : ℕ) → IsWithin (2 ^ 102) (slice_index_or result i None) }
{
    let count = 2 * m.kinds().len();
    column(
        count,
        |i: usize| -> Option<i128>
            requires row { i < nodes m.now }
            requires few { length m.now.kinds ≤ 16 }
            ensures value { result ≡ half (entry m.entry.now i (flip i)) }
        { half_bound(m.get(i, other_sign(i))) },
    )
}

// Step 3: whether both halves of a slot leave no number.
fn has_negative_halves(halves: &[Option<i128>; 32], count: usize) -> bool
    requires few { count ≤ 32 }
    requires even { count % 2 ≡ 0 }
    requires small { (i : ℕ) → IsWithin (2 ^ 102) (slice_index_or halves.now i None) }
    ensures negative { MatchBool result (HasNegativeHalves count halves.now)
        (HasNoNegativeHalves count halves.now) }
{
    for i in 0..count {
        if is_negative(plus(halves[i], halves[other_sign(i)])) {
            return true;
        }
    }
    false
}

/// Steps 2 and 4 at one bound: it is at most the sum of its nodes' halves.
pub fn halved(halves: &[Option<i128>; 32], i: usize, j: usize, bound: Option<i128>) -> Option<i128>
    requires row { i < 32 }
    requires column { j < 32 }
    requires small { (i : ℕ) → IsWithin (2 ^ 102) (slice_index_or halves.now i None) }
    ensures bound { result ≡ halved_bound halves.now i j bound }
{
    smaller(bound, plus(halves[i], halves[other_sign(j)]))
}

// Step 5, after the cut: whether an entry is below -2^64.
fn has_low_entry(m: &Matrix) -> bool
    ensures low { MatchBool result (IsTooLow (nodes m.now) (entry m.now))
        (IsNotTooLow (nodes m.now) (entry m.now)) }
{
    let kept = m.kept();
    for bound in kept {
        if is_low_bound(*bound) {
            return true;
        }
    }
    false
}

// Steps 2, 4 and 5, in place.
fn strengthen_and_cut(m: &mut Matrix, halves: &[Option<i128>; 32])
    requires small { (i : ℕ) → IsWithin (2 ^ 102) (slice_index_or halves.now i None) }
    ensures matrix { IsMatrix m.new }
    ensures same_kinds { m.new.kinds ≡ m.old.kinds }
    ensures kept { (i j : ℕ) → i < nodes m.old → j < row_width i →
        entry m.new i j ≡ cut (halved_bound halves.now i j (entry m.old i j)) }
{
    let _slots = m.kinds();
    m.update(
        |i: usize, j: usize, bound: Option<i128>| -> Option<i128>
            requires row { i < 32 }
            requires column { j < 32 }
            requires small { (i : ℕ) → IsWithin (2 ^ 102) (slice_index_or halves.now i None) }
            ensures value { result ≡ cut (halved_bound halves.entry.now i j bound) }
        { cut_bound(halved(halves, i, j, bound)) },
    );
}

//! Steps 2 to 6 where they change the bounds on one slot alone.
ghost use Rattle.std.specs.Prelude.{◌≡◌, ◌<◌, ◌*◌, ◌^◌, ℕ, None, length, slice_index_or};
ghost use Rattle.std.specs.Bool.{MatchBool};
ghost use Rattle.dbm_close.specs.Finish.{IsFinishOf, IsFinishedBut};
ghost use Rattle.dbm_close.specs.Halves.{HasLowPair, HasNoLowPair, halved_bound};
ghost use Rattle.dbm_close.specs.Steps.{cut};
ghost use Rattle.dbm_core.specs.Half.{IsMatrix, entry, nodes, row_width};
ghost use Rattle.dbm_core.specs.Limits.{AreWithin, IsWithin};
ghost use Rattle.dbm_core.specs.Nodes.{IsOfSlot};

use crate::Closed;
use crate::bounds::{cut_bound, is_low_bound, is_negative, plus};
use crate::ranges::is_range_empty;
use crate::steps::{halved, halves_of};
use dbm_core::Matrix;

/// Steps 2 to 6, over least weights of which they leave all but the bounds on one slot as they are:
/// it takes time for the slot's pairs alone.
pub fn finish_slot(weights: Matrix, slot: usize) -> Closed
    requires slot { slot < length weights.kinds }
    requires within { AreWithin (nodes weights) (2 ^ 102) (entry weights) }
    requires rest { IsFinishedBut slot weights.kinds (entry weights) }
    ensures finish { IsFinishOf weights.kinds (entry weights) result }
{
    let mut matrix = weights;
    let _kinds = matrix.kinds();
    let halves = halves_of(&matrix);
    if is_negative(plus(halves[2 * slot], halves[2 * slot + 1])) {
        return Closed::Empty;
    }
    finish_pairs(&mut matrix, &halves, slot);
    if has_low_pair(&matrix, slot) {
        return Closed::Empty;
    }
    if is_range_empty(&matrix, slot) {
        return Closed::Empty;
    }
    Closed::Matrix(matrix)
}

// Steps 2, 4 and 5 at the slot's pairs, in place.
fn finish_pairs(m: &mut Matrix, halves: &[Option<i128>; 32], slot: usize)
    requires slot { slot < length m.old.kinds }
    requires small { (i : ℕ) → IsWithin (2 ^ 102) (slice_index_or halves.now i None) }
    ensures matrix { IsMatrix m.new }
    ensures same_kinds { m.new.kinds ≡ m.old.kinds }
    ensures changed { (i j : ℕ) → i < nodes m.old → j < row_width i → IsOfSlot slot i j →
        entry m.new i j ≡ cut (halved_bound halves.now i j (entry m.old i j)) }
    ensures rest { (i j : ℕ) → i < nodes m.old → j < row_width i → (IsOfSlot slot i j → ⊥) →
        entry m.new i j ≡ entry m.old i j }
{
    let _slots = m.kinds();
    m.update_slot(
        slot,
        |i: usize, j: usize, bound: Option<i128>| -> Option<i128>
            requires row { i < 32 }
            requires column { j < 32 }
            requires small { (i : ℕ) → IsWithin (2 ^ 102) (slice_index_or halves.now i None) }
            ensures value { result ≡ cut (halved_bound halves.entry.now i j bound) }
        { cut_bound(halved(halves, i, j, bound)) },
    );
}

// Step 5, after the cut: whether a bound to one of the slot's nodes is below -2^64.
fn has_low_pair(m: &Matrix, slot: usize) -> bool
    requires slot { slot < length m.now.kinds }
    ensures low { MatchBool result (HasLowPair (nodes m.now) (entry m.now) slot)
        (HasNoLowPair (nodes m.now) (entry m.now) slot) }
{
    let nodes = 2 * m.kinds().len();
    for i in 0..nodes {
        if is_low_bound(m.get(i, 2 * slot)) {
            return true;
        }
        if is_low_bound(m.get(i, 2 * slot + 1)) {
            return true;
        }
    }
    false
}

//! Step 1: the least weights of walks.
ghost use Rattle.std.specs.Prelude.{◌≡◌, ◌<◌, ◌≤◌, ◌^◌, ℕ, MatchOption, IfOk, length};
ghost use Rattle.std.specs.Bool.{MatchBool};
ghost use Rattle.dbm_close.specs.Rounds.{HasLeastWeights, IsDiagonalNegative, IsDiagonalSound, IsSlotNegative, IsSlotSound, round_entry, middle_entry, IsSmallMiddle};
ghost use Rattle.dbm_close.specs.Walks.{HasNegativeWalk};
ghost use Rattle.dbm_core.specs.Half.{IsMatrix, entry, nodes, row_width};
ghost use Rattle.dbm_core.specs.Limits.{AreWithin, IsZeroAtMost};

use crate::bounds::is_negative;
use crate::middle::{Middle, middle_of, via, via_middle};
use base_values::Memory;
use dbm_core::Matrix;
use std::alloc::Global;

/// Step 1: the least weights of all walks, or None where a closed walk is below 0.
pub fn least_weights(alloc: Global, m: &Matrix) -> Result<Option<Matrix>, Memory>
    requires diagonal { IsZeroAtMost (nodes m.now) (entry m.now) }
    requires within { AreWithin (nodes m.now) (2 ^ 70) (entry m.now) }
    ensures weights { IfOk result (λ o. MatchOption o (HasNegativeWalk (entry m.now) (nodes m.now))
        (HasLeastWeights m.now)) }
{
    let slots = m.kinds().len();
    let mut current = m.copy(alloc)?;
    for q in 0..slots {
        if is_slot_negative(&current, q) {
            return Ok(None);
        }
        round(&mut current, q);
    }
    if is_diagonal_negative(&current) {
        return Ok(None);
    }
    Ok(Some(current))
}

// Whether a closed walk at a node of slot q is below 0.
fn is_slot_negative(d: &Matrix, q: usize) -> bool
    requires middle { q < length d.now.kinds }
    requires few { length d.now.kinds ≤ 16 }
    requires within { AreWithin (nodes d.now) (2 ^ 102) (entry d.now) }
    ensures negative { MatchBool result (IsSlotNegative (entry d.now) q)
        (IsSlotSound (entry d.now) q) }
{
    let k = 2 * q;
    if is_negative(d.get(k, k)) {
        return true;
    }
    is_negative(via(d, k, k + 1, k + 1))
}

// Lets walks go through both nodes of the slot, in place.
fn go_through(d: &mut Matrix, middle: &Middle)
    requires small { IsSmallMiddle middle.now }
    ensures matrix { IsMatrix d.new }
    ensures same_kinds { d.new.kinds ≡ d.old.kinds }
    ensures kept { (i j : ℕ) → i < nodes d.old → j < row_width i →
        entry d.new i j ≡ middle_entry middle.now i j (entry d.old i j) }
{
    let _slots = d.kinds();
    d.update(
        |i: usize, j: usize, bound: Option<i128>| -> Option<i128>
            requires row { i < 32 }
            requires column { j < 32 }
            requires small { IsSmallMiddle middle.now }
            ensures value { result ≡ middle_entry middle.entry.now i j bound }
        {
            if i == j {
                let node = 2 * (i / 2);
                via_middle(middle, node, node, bound)
            } else {
                via_middle(middle, i, j, bound)
            }
        },
    );
}

// One round: walks may go through both nodes of slot q.
fn round(d: &mut Matrix, q: usize)
    requires middle { q < length d.old.kinds }
    requires within { AreWithin (nodes d.old) (2 ^ 102) (entry d.old) }
    ensures matrix { IsMatrix d.new }
    ensures same_kinds { d.new.kinds ≡ d.old.kinds }
    ensures kept { (i j : ℕ) → i < nodes d.old → j < row_width i →
        entry d.new i j ≡ round_entry (entry d.old) q i j }
{
    let _slots = d.kinds();
    let middle = middle_of(d, q);
    go_through(d, &middle);
}

// Whether an entry of the diagonal is below 0.
fn is_diagonal_negative(d: &Matrix) -> bool
    ensures negative { MatchBool result (IsDiagonalNegative (nodes d.now) (entry d.now))
        (IsDiagonalSound (nodes d.now) (entry d.now)) }
{
    let slots = d.kinds().len();
    for i in 0..2 * slots {
        if is_negative(d.get(i, i)) {
            return true;
        }
    }
    false
}

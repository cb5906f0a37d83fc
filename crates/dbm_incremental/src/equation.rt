//! Closing a closed matrix once more after a slot is made equal to another and a constant.
ghost use Rattle.std.specs.Prelude.{◌≡◌, ◌≢◌, ◌/◌, ◌<◌, ◌≤◌, ◌^◌, IfOk, Some, length};
ghost use Rattle.dbm_core.specs.Half.{HasEntries, entry, nodes};
ghost use Rattle.dbm_core.specs.Limits.{AreWithin, IsWithin};
ghost use Rattle.dbm_incremental.specs.Answers.{IsClosedAnswer};
ghost use Rattle.dbm_incremental.specs.ClosedMatrices.{IsClosed, IsStrong, IsWhole};
ghost use Rattle.dbm_incremental.specs.Equations.{ClosesEquated, stand_node, stand_shift, stood_entry};

use base_values::Memory;
use dbm_close::{Closed, finish_slot, plus};
use dbm_core::{Matrix, other_sign};
use std::alloc::Global;

/// Closes a closed matrix in which slot q's bounds are dropped and q is made node y, of another
/// slot, plus c: its bounds are then y's, shifted, and nothing is to be strengthened.
pub fn close_equation(
    alloc: Global,
    closed: &Matrix,
    q: usize,
    y: usize,
    c: i128,
) -> Result<Closed, Memory>
    requires slot { q < length closed.now.kinds }
    requires node { y < nodes closed.now }
    requires apart { y / 2 ≢ q }
    requires closed { IsClosed closed.now }
    requires whole { IsWhole closed.now }
    requires within { AreWithin (nodes closed.now) (2 ^ 64) (entry closed.now) }
    requires small { IsWithin (2 ^ 70) (Some c) }
    ensures closed { IfOk result (ClosesEquated closed.now q y c) }
    ensures stays_closed { IfOk result IsClosedAnswer }
{
    let _slots = closed.kinds();
    let weights = equated_entries(alloc, closed, q, y, c)?;
    Ok(finish_slot(weights, q))
}

// The node that node i stands for, where slot q stands for y.
fn stands_for(q: usize, y: usize, i: usize) -> usize
    requires slot { q < 16 }
    requires node { y < 32 }
    ensures node { result ≡ stand_node q y i }
{
    if i == 2 * q {
        y
    } else if i == 2 * q + 1 {
        other_sign(y)
    } else {
        i
    }
}

// What is added to that.
fn shift_at(q: usize, c: i128, i: usize) -> i128
    requires slot { q < 16 }
    requires small { IsWithin (2 ^ 70) (Some c) }
    ensures shift { result ≡ stand_shift q c i }
    ensures small { IsWithin (2 ^ 70) (Some result) }
{
    if i == 2 * q {
        c
    } else if i == 2 * q + 1 {
        -c
    } else {
        0
    }
}

// The bound between what nodes i and j stand for.
fn equated_entry(m: &Matrix, q: usize, y: usize, c: i128, i: usize, j: usize) -> Option<i128>
    requires slot { q < length m.now.kinds }
    requires node { y < nodes m.now }
    requires row { i < nodes m.now }
    requires column { j < nodes m.now }
    requires few { length m.now.kinds ≤ 16 }
    requires within { AreWithin (nodes m.now) (2 ^ 64) (entry m.now) }
    requires small { IsWithin (2 ^ 70) (Some c) }
    ensures bound { result ≡ stood_entry (entry m.now) q y c i j }
{
    let shift = shift_at(q, c, j) - shift_at(q, c, i);
    plus(m.get(stands_for(q, y, i), stands_for(q, y, j)), Some(shift))
}

// The matrix of those bounds: those on other slots stay.
fn equated_entries(alloc: Global, m: &Matrix, q: usize, y: usize, c: i128) -> Result<Matrix, Memory>
    requires slot { q < length m.now.kinds }
    requires node { y < nodes m.now }
    requires strong { IsStrong (nodes m.now) (entry m.now) }
    requires within { AreWithin (nodes m.now) (2 ^ 64) (entry m.now) }
    requires small { IsWithin (2 ^ 70) (Some c) }
    ensures entries { IfOk result (HasEntries m.now.kinds (stood_entry (entry m.now) q y c)) }
    ensures within { IfOk result (λ u. AreWithin (nodes u) (2 ^ 72) (entry u)) }
{
    let _kinds = m.kinds();
    let mut weights = m.copy(alloc)?;
    weights.update_slot(
        q,
        |i: usize, j: usize, _bound: Option<i128>| -> Option<i128>
            requires slot { q < length m.now.kinds }
            requires node { y < nodes m.now }
            requires row { i < nodes m.now }
            requires column { j < nodes m.now }
            requires few { length m.now.kinds ≤ 16 }
            requires within { AreWithin (nodes m.now) (2 ^ 64) (entry m.now) }
            requires small { IsWithin (2 ^ 70) (Some c) }
            ensures value { result ≡ stood_entry (entry m.entry.now) q y c i j }
        { equated_entry(m, q, y, c, i, j) },
    );
    Ok(weights)
}

//! Whether bounds are transitive: a closed matrix then obeys the triangle law.
ghost use Rattle.std.specs.Prelude.{◌≡◌, ◌<◌, true, false};
ghost use Rattle.dbm_core.specs.Half.{entry, nodes};
ghost use Rattle.dbm_incremental.specs.ClosedMatrices.{IsClosed, IsWhole};
ghost use Rattle.dom_octagon_states.specs.Transitive.{AreReached, IsTransitive, StayWithin, StaysWithin, is_bound as has_bound};

use dbm_narrow::Narrow;

/// Whether a bound stands wherever two in a row do. A closed matrix then obeys the triangle law: closing
/// has cut no bound that a walk still needs.
pub fn is_transitive(m: &Narrow<i128>) -> bool
    ensures transitive { result ≡ true → IsTransitive (nodes m.now) (entry m.now) }
    ensures whole { result ≡ true → IsClosed m.now → IsWhole m.now }
{
    let kinds = m.kinds();
    for i in 0..2 * kinds.len() {
        let reached = reached_from(m, i);
        if leave(m, &reached) {
            return false;
        }
    }
    true
}

// The nodes to which a bound leads from node i.
fn reached_from(m: &Narrow<i128>, i: usize) -> [bool; 32]
    requires row { i < nodes m.now }
    ensures reached { AreReached m.now i result }
{
    let mut reached = [false; 32];
    let nodes = 2 * m.kinds().len();
    for j in 0..nodes {
        reached[j] = is_bound(m.get(i, j));
    }
    reached
}

// Whether a bound leads from one of these nodes to another one.
fn leave(m: &Narrow<i128>, reached: &[bool; 32]) -> bool
    ensures within { result ≡ false → StayWithin m.now reached.now }
{
    let nodes = 2 * m.kinds().len();
    for k in 0..nodes {
        if reached[k] && leaves(m, k, reached) {
            return true;
        }
    }
    false
}

// Whether a bound leads from node k to one that is none of these.
fn leaves(m: &Narrow<i128>, k: usize, reached: &[bool; 32]) -> bool
    requires row { k < nodes m.now }
    ensures within { result ≡ false → StaysWithin m.now reached.now k }
{
    let nodes = 2 * m.kinds().len();
    for j in 0..nodes {
        if !reached[j] && is_bound(m.get(k, j)) {
            return true;
        }
    }
    false
}

// Whether there is a bound.
fn is_bound(bound: Option<i128>) -> bool
    ensures exact { result ≡ has_bound bound }
{
    match bound {
        None => false,
        Some(_) => true,
    }
}

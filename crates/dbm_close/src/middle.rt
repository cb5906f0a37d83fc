//! The bounds to and from the nodes of one slot.
ghost use Rattle.std.specs.Prelude.{◌≡◌, ◌<◌, ◌≤◌, ◌+◌, ◌^◌, ℕ, None, length, slice_index_or};
ghost use Rattle.dbm_close.specs.Rounds.{through, via_both, HasMiddle, IsSmallMiddle};
ghost use Rattle.dbm_core.specs.Half.{entry, nodes};
ghost use Rattle.dbm_core.specs.Limits.{AreWithin};

use crate::bounds::plus;
use dbm_core::{Matrix, smaller};

/// The bound that the closure gives for each of the nodes, and none beyond.
pub fn column<F: Fn(usize) -> Option<i128>>(count: usize, bound: F) -> [Option<i128>; 32]
    requires few { count ≤ 32 }
    requires callable { (i : ℕ) → i < count → F.pre bound i }
    ensures bounds { (i : ℕ) → i < count → F.post bound i (slice_index_or result i None) }
    ensures beyond { (i : ℕ) → count ≤ i → slice_index_or result i None ≡ None }
{
    let mut bounds = [None; 32];
    for i in 0..count {
        bounds[i] = bound(i);
    }
    bounds
}

/// The bounds to and from both nodes of one slot, those of the second node when walks may go
/// through the first.
#[derive(Drop)]
pub struct Middle {
    pub to_first: [Option<i128>; 32],
    pub from_first: [Option<i128>; 32],
    pub to_second: [Option<i128>; 32],
    pub from_second: [Option<i128>; 32],
}

/// The bound from i to j when walks may go through k.
pub fn via(d: &Matrix, k: usize, i: usize, j: usize) -> Option<i128>
    requires middle { k < nodes d.now }
    requires row { i < nodes d.now }
    requires column { j < nodes d.now }
    requires within { AreWithin (nodes d.now) (2 ^ 102) (entry d.now) }
    ensures bound { result ≡ through (entry d.now) k i j }
{
    smaller(d.get(i, j), plus(d.get(i, k), d.get(k, j)))
}

/// The bounds to and from both nodes of slot q.
pub fn middle_of(d: &Matrix, q: usize) -> Middle
    requires middle { q < length d.now.kinds }
    requires within { AreWithin (nodes d.now) (2 ^ 102) (entry d.now) }
    ensures bounds { HasMiddle (nodes d.now) (entry d.now) q result }
    ensures small { IsSmallMiddle result }
{
    let count = 2 * d.kinds().len();
    let k = 2 * q;
    let to_first = column(
        count,
        |i: usize| -> Option<i128>
            requires row { i < nodes d.now }
            requires middle { k < nodes d.now }
            ensures value { result ≡ entry d.entry.now i k }
        { d.get(i, k) },
    );
    let from_first = column(
        count,
        |j: usize| -> Option<i128>
            requires column { j < nodes d.now }
            requires middle { k < nodes d.now }
            ensures value { result ≡ entry d.entry.now k j }
        { d.get(k, j) },
    );
    let to_second = column(
        count,
        |i: usize| -> Option<i128>
            requires row { i < nodes d.now }
            requires middle { k + 1 < nodes d.now }
            requires few { length d.now.kinds ≤ 16 }
            requires within { AreWithin (nodes d.now) (2 ^ 102) (entry d.now) }
            ensures value { result ≡ through (entry d.entry.now) k i (k + 1) }
        { via(d, k, i, k + 1) },
    );
    let from_second = column(
        count,
        |j: usize| -> Option<i128>
            requires column { j < nodes d.now }
            requires middle { k + 1 < nodes d.now }
            requires few { length d.now.kinds ≤ 16 }
            requires within { AreWithin (nodes d.now) (2 ^ 102) (entry d.now) }
            ensures value { result ≡ through (entry d.entry.now) k (k + 1) j }
        { via(d, k, k + 1, j) },
    );
    Middle {
        to_first,
        from_first,
        to_second,
        from_second,
    }
}

/// The bound from i to j when walks may go through both nodes of the slot.
pub fn via_middle(middle: &Middle, i: usize, j: usize, bound: Option<i128>) -> Option<i128>
    requires row { i < 32 }
    requires column { j < 32 }
    requires small { IsSmallMiddle middle.now }
    ensures bound { result ≡ via_both middle.now i j bound }
{
    let first = smaller(bound, plus(middle.to_first[i], middle.from_first[j]));
    smaller(first, plus(middle.to_second[i], middle.from_second[j]))
}

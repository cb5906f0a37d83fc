//! A bound lowered in entries that are the least weights of their own walks.
ghost use Rattle.std.specs.Prelude.{◌≡◌, ◌<◌, ◌≤◌, ◌*◌, ◌≤ℤ◌, ℕ, false, neg_ℤ, pos, length};
ghost use Rattle.dbm_core.specs.Half.{row_start};
ghost use Rattle.dbm_narrow.specs.Entries.{AreEntries};
ghost use Rattle.dbm_narrow.specs.Lowerings.{AreEnds, HasOwnWeights, HasRoomFor, IsLowering, StaysWithin};
ghost use Rattle.dbm_narrow.specs.Middles.{IsNarrowMiddle};
ghost use Rattle.dbm_narrow.specs.Rounds.{IsNarrow, LeavesIf};

use crate::entry::Entry;
use crate::middle::{Middle, flipped, over, stepped};
use crate::rows::{entry_at, read, whole_row};
use crate::walks::{Walks, go_through_rows};
use crate::width::Width;
use dbm_core::other_sign;

/// The bounds to and from the edge from i to j, which weighs the bound, and those to and from its
/// mirror image when walks may use the edge.
#[inline]
fn ends_of<W: Width>(
    entries: &[Entry<W>],
    slots: usize,
    i: usize,
    j: usize,
    bound: Entry<W>,
) -> Middle<W>
    requires few { slots ≤ 16 }
    requires row { i < 2 * slots }
    requires column { j < 2 * slots }
    requires size { length entries.now ≡ row_start (2 * slots) }
    requires entries { AreEntries W.unit (2 * W.unit) entries.now }
    requires low { neg_ℤ (pos (2 * W.unit)) ≤ℤ bound }
    requires high { bound ≤ℤ pos (2 * W.unit) }
    ensures ends { AreEnds W.unit (2 * slots) entries.now i j bound result }
    ensures entries { IsNarrowMiddle W.unit result }
{
    let ahead = other_sign(i);
    let behind = other_sign(j);
    let last = whole_row(entries, slots, j, behind);
    let first = whole_row(entries, slots, ahead, i);
    let to_first = flipped(&first, slots);
    let direct = flipped(&last, slots);
    let from_first = stepped(bound, &last);
    let around = read(&from_first, behind);
    let to_second = over(&direct, around, &to_first);
    let back = read(&first, i);
    let over_first = over(&first, back, &from_first);
    let from_second = stepped(bound, &over_first);
    Middle {
        to_first,
        from_first,
        to_second,
        from_second,
    }
}

/// Lowers a bound, and so its mirror image, in place. After an answer other than `Done` the entries
/// are of no use.
#[inline]
pub fn lower<W: Width>(
    kinds: &[bool],
    entries: &mut [Entry<W>],
    i: usize,
    j: usize,
    bound: Entry<W>,
) -> Walks
    requires narrow { IsNarrow W.unit kinds.now entries.old }
    requires weights { HasOwnWeights W.unit kinds.now entries.old }
    requires row { i < 2 * length kinds.now }
    requires column { j < 2 * length kinds.now }
    requires low { neg_ℤ (pos (2 * W.unit)) ≤ℤ bound }
    requires high { bound ≤ℤ pos (2 * W.unit) }
    requires room { W.checked ≡ false → (b : ℕ) × HasRoomFor W.unit b entries.old bound }
    ensures lowering { IsLowering W.unit kinds.now entries.old entries.new i j bound result }
    ensures within { W.checked ≡ false → (b : ℕ) → HasRoomFor W.unit b entries.old bound →
        StaysWithin W.unit (7 * b) entries.new result }
    ensures total { LeavesIf W.checked result }
{
    let slots = kinds.len();
    let current = entry_at(entries, slots, i, j);
    if !bound.is_less(current) {
        return Walks::Done;
    }
    let ends = ends_of(entries, slots, i, j, bound);
    let first = read(&ends.from_first, i);
    if first.is_less(Entry::zero()) {
        return Walks::Negative;
    }
    let behind = other_sign(j);
    let second = read(&ends.from_second, behind);
    if second.is_less(Entry::zero()) {
        return Walks::Negative;
    }
    if go_through_rows(entries, slots, &ends) {
        Walks::Done
    } else {
        Walks::TooWide
    }
}

//! A slot that stands for a node of another slot plus a number.
ghost use Rattle.std.specs.Prelude.{◌≡◌, ◌≢◌, ◌<◌, ◌≤◌, ◌*◌, ◌+◌, ◌/◌, ◌^◌, ◌+ℤ◌, ◌≤ℤ◌, neg_ℤ, pos, Some, false, true, length};
ghost use Rattle.dbm_core.specs.Half.{row_start, row_width};
ghost use Rattle.dbm_core.specs.Limits.{IsWithin};
ghost use Rattle.dbm_incremental.specs.ClosedMatrices.{IsClosed, IsWhole};
ghost use Rattle.dbm_narrow.specs.Closings.{OutcomeLeavesIf};
ghost use Rattle.dbm_narrow.specs.Entries.{AreEntries, IsEntry, at, held};
ghost use Rattle.dbm_narrow.specs.Rounds.{IsNarrow};
ghost use Rattle.dbm_narrow.specs.Rows.{ColumnsAre, EachIs, RestStays, RowIs, RowsAre};
ghost use Rattle.dbm_narrow.specs.Standing.{IsEquatedOutcome, StandsTo, StoodFits, replaced, stood_at};

use crate::adding::small_bound;
use crate::closing::ClosingResult;
use crate::entries::plus;
use crate::entry::Entry;
use crate::middle::stepped;
use crate::rows::{are_within, read, row_at, row_len, whole_row};
use crate::steps::finish_strong;
use crate::width::Width;
use dbm_core::other_sign;

/// Closes the entries with slot q made node y plus c, in place. After an answer other than `Closed`
/// they are of no use.
pub fn close_stood<W: Width>(
    kinds: &[bool],
    entries: &mut [Entry<W>],
    q: usize,
    y: usize,
    c: i128,
) -> ClosingResult
    requires narrow { IsNarrow W.unit kinds.now entries.old }
    requires closed { IsClosed (held W.unit kinds.now entries.old) }
    requires whole { IsWhole (held W.unit kinds.now entries.old) }
    requires slot { q < length kinds.now }
    requires node { y < 2 * length kinds.now }
    requires apart { y / 2 ≢ q }
    requires small { IsWithin (2 ^ 70) (Some c) }
    ensures outcome { IsEquatedOutcome W.unit kinds.now entries.old entries.new q y c result }
    ensures total { OutcomeLeavesIf W.checked result }
{
    match small_bound(c) {
        None => ClosingResult::TooWide,
        Some(small) => close_small(kinds, entries, q, y, small),
    }
}

// The same of a number within the limits.
fn close_small<W: Width>(
    kinds: &[bool],
    entries: &mut [Entry<W>],
    q: usize,
    y: usize,
    c: Entry<W>,
) -> ClosingResult
    requires narrow { IsNarrow W.unit kinds.now entries.old }
    requires closed { IsClosed (held W.unit kinds.now entries.old) }
    requires whole { IsWhole (held W.unit kinds.now entries.old) }
    requires slot { q < length kinds.now }
    requires node { y < 2 * length kinds.now }
    requires apart { y / 2 ≢ q }
    requires low { neg_ℤ (pos (2 * W.unit)) ≤ℤ c }
    requires high { c ≤ℤ pos (2 * W.unit) }
    requires small { W.checked ≡ false → IsWithin (2 ^ 70) (Some c) }
    ensures outcome { IsEquatedOutcome W.unit kinds.now entries.old entries.new q y c result }
    ensures total { OutcomeLeavesIf W.checked result }
{
    if !stand(kinds, entries, q, y, c) {
        return ClosingResult::TooWide;
    }
    finish_strong(kinds, entries)
}

// Makes slot q stand for node y plus c, in place: whether each bound stays within the limits, where the width
// is checked.
#[inline]
fn stand<W: Width>(
    kinds: &[bool],
    entries: &mut [Entry<W>],
    q: usize,
    y: usize,
    c: Entry<W>,
) -> bool
    requires narrow { IsNarrow W.unit kinds.now entries.old }
    requires closed { IsClosed (held W.unit kinds.now entries.old) }
    requires slot { q < length kinds.now }
    requires node { y < 2 * length kinds.now }
    requires low { neg_ℤ (pos (2 * W.unit)) ≤ℤ c }
    requires high { c ≤ℤ pos (2 * W.unit) }
    requires small { W.checked ≡ false → IsWithin (2 ^ 70) (Some c) }
    ensures stands { result ≡ true → StandsTo W.unit kinds.now entries.old entries.new q y c }
    ensures total { result ≡ false → W.checked ≡ true }
{
    let slots = kinds.len();
    let other = other_sign(y);
    let node = whole_row(entries, slots, y, other);
    let behind = whole_row(entries, slots, other, y);
    let less = negative(c);
    let twice_less = twice_of(less);
    let twice = twice_of(c);
    let first = stood_row(&node, q, y, Entry::zero(), twice_less, less);
    let second = stood_row(&behind, q, y, twice, Entry::zero(), c);
    if !are_limited(&first) {
        return false;
    }
    if !are_limited(&second) {
        return false;
    }
    replace_rows(entries, slots, q, &first, &second);
    true
}

// Whether each bound of a row lies within the limits, where the width is checked.
#[inline]
fn are_limited<W: Width>(row: &[Entry<W>; 32]) -> bool
    requires row { AreEntries W.unit (6 * W.unit) row.now }
    ensures within { W.checked ≡ true → result ≡ true → AreEntries W.unit (2 * W.unit) row.now }
    ensures total { result ≡ false → W.checked ≡ true }
{
    !W::is_checked() || are_within(row)
}

/// Makes slot q stand for node y plus c, in place: whether c and each bound lie within the limits.
pub fn stand_by<W: Width>(
    kinds: &[bool],
    entries: &mut [Entry<W>],
    q: usize,
    y: usize,
    c: i128,
) -> bool
    requires narrow { IsNarrow W.unit kinds.now entries.old }
    requires closed { IsClosed (held W.unit kinds.now entries.old) }
    requires slot { q < length kinds.now }
    requires node { y < 2 * length kinds.now }
    requires small { IsWithin (2 ^ 70) (Some c) }
    ensures stands { result ≡ true → StandsTo W.unit kinds.now entries.old entries.new q y c }
    ensures total { result ≡ false → W.checked ≡ true }
{
    match small_bound(c) {
        None => false,
        Some(small) => stand(kinds, entries, q, y, small),
    }
}

// The number's negative.
#[inline]
fn negative<W: Width>(c: Entry<W>) -> Entry<W>
    requires low { neg_ℤ (pos (2 * W.unit)) ≤ℤ c }
    requires high { c ≤ℤ pos (2 * W.unit) }
    ensures value { result ≡ neg_ℤ c }
{
    c.negative()
}

// Twice the number.
#[inline]
fn twice_of<W: Width>(c: Entry<W>) -> Entry<W>
    requires low { neg_ℤ (pos (2 * W.unit)) ≤ℤ c }
    requires high { c ≤ℤ pos (2 * W.unit) }
    ensures value { result ≡ c +ℤ c }
{
    c.sum(c)
}

// The entry at a column.
#[inline]
fn column_at<W: Width>(row: &[Entry<W>; 32], j: usize) -> Entry<W>
    requires column { j < 32 }
    requires row { AreEntries W.unit (2 * W.unit) row.now }
    ensures value { result ≡ at W.unit row.now j }
{
    read(row, j)
}

// The row of one of slot q's nodes, from the row of the node that it stands for.
#[inline]
fn stood_row<W: Width>(
    row: &[Entry<W>; 32],
    q: usize,
    y: usize,
    first: Entry<W>,
    second: Entry<W>,
    others: Entry<W>,
) -> [Entry<W>; 32]
    requires slot { q < 16 }
    requires node { y < 32 }
    requires row { AreEntries W.unit (2 * W.unit) row.now }
    requires first { IsEntry W.unit (4 * W.unit) first }
    requires second { IsEntry W.unit (4 * W.unit) second }
    requires others { IsEntry W.unit (4 * W.unit) others }
    ensures stood { ColumnsAre W.unit 32 (stood_at W.unit row.now q y first second others) result }
    ensures entries { AreEntries W.unit (6 * W.unit) result }
    ensures small { StoodFits W.unit row.now first second others result }
{
    let mut stood = stepped(others, row);
    let node = read(row, y);
    let here = plus(first, node);
    let other = other_sign(y);
    let behind = read(row, other);
    let there = plus(second, behind);
    stood[2 * q] = here;
    stood[2 * q + 1] = there;
    stood
}

// Puts the rows of slot q's nodes, in place.
#[inline]
fn replace_rows<W: Width>(
    entries: &mut [Entry<W>],
    slots: usize,
    q: usize,
    first: &[Entry<W>; 32],
    second: &[Entry<W>; 32],
)
    requires few { slots ≤ 16 }
    requires size { length entries.old ≡ row_start (2 * slots) }
    requires entries { AreEntries W.unit (2 * W.unit) entries.old }
    requires first { AreEntries W.unit (2 * W.unit) first.now }
    requires second { AreEntries W.unit (2 * W.unit) second.now }
    requires slot { q < 16 }
    ensures kept { RowsAre W.unit (replaced W.unit q first.now second.now) (2 * slots)
        entries.old entries.new }
    ensures entries { AreEntries W.unit (2 * W.unit) entries.new }
{
    for i in 0..2 * slots {
        replace_row(entries, i, q, first, second);
    }
}

// The same in row i.
#[inline]
fn replace_row<W: Width>(
    entries: &mut [Entry<W>],
    i: usize,
    q: usize,
    first: &[Entry<W>; 32],
    second: &[Entry<W>; 32],
)
    requires row { i < 32 }
    requires slot { q < 16 }
    requires size { row_start i + row_width i ≤ length entries.old }
    requires entries { AreEntries W.unit (2 * W.unit) entries.old }
    requires first { AreEntries W.unit (2 * W.unit) first.now }
    requires second { AreEntries W.unit (2 * W.unit) second.now }
    ensures kept { RowIs W.unit (replaced W.unit q first.now second.now i) i
        entries.old entries.new }
    ensures rest { RestStays W.unit i entries.old entries.new }
    ensures entries { AreEntries W.unit (2 * W.unit) entries.new }
{
    let start = row_at(i);
    let end = start + row_len(i);
    let row = &mut entries[start..end];
    replace_each(row, i, q, first, second);
}

// The same of the row itself.
#[inline]
fn replace_each<W: Width>(
    row: &mut [Entry<W>],
    i: usize,
    q: usize,
    first: &[Entry<W>; 32],
    second: &[Entry<W>; 32],
)
    requires size { length row.old ≡ row_width i }
    requires row { AreEntries W.unit (2 * W.unit) row.old }
    requires node { i < 32 }
    requires slot { q < 16 }
    requires first { AreEntries W.unit (2 * W.unit) first.now }
    requires second { AreEntries W.unit (2 * W.unit) second.now }
    ensures kept { EachIs W.unit (replaced W.unit q first.now second.now i) row.old row.new }
    ensures within { AreEntries W.unit (2 * W.unit) row.new }
{
    if i == 2 * q {
        return copy_row(row, first);
    }
    if i == 2 * q + 1 {
        return copy_row(row, second);
    }
    if 2 * q + 1 < row.len() {
        let other = other_sign(i);
        let even = column_at(second, other);
        let odd = column_at(first, other);
        row[2 * q] = even;
        row[2 * q + 1] = odd;
    }
}

// Makes a row the first entries of another.
#[inline]
fn copy_row<W: Width>(row: &mut [Entry<W>], from: &[Entry<W>; 32])
    requires size { length row.old ≤ 32 }
    requires row { AreEntries W.unit (2 * W.unit) row.old }
    requires from { AreEntries W.unit (2 * W.unit) from.now }
    ensures kept { EachIs W.unit (λ j x. at W.unit from.now j) row.old row.new }
    ensures within { AreEntries W.unit (2 * W.unit) row.new }
{
    for j in 0..row.len() {
        let copied = read(from, j);
        row[j] = copied;
    }
}

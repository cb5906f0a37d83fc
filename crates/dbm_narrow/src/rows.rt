//! Rows: where they start, whole ones, and what becomes of a kept one.
ghost use Rattle.std.specs.Prelude.{◌≡◌, ◌<◌, ◌≤◌, ◌*◌, ◌+◌, ◌%◌, ℕ, true, length};
ghost use Rattle.dbm_core.specs.Half.{row_start, row_width};
ghost use Rattle.dbm_core.specs.Nodes.{flip};
ghost use Rattle.dbm_narrow.specs.Entries.{AreEntries, IsEntry, at, none, pair_at};
ghost use Rattle.dbm_narrow.specs.Rows.{AreEntriesFrom, AreGone, ColumnsAre, EachIs, GoneThrough, strengthened_at, through_at};

use crate::entries::{bound_or_zero, greater, lesser, over_both, settled};
use crate::entry::Entry;
use crate::width::Width;
use dbm_core::other_sign;

/// Where row i starts.
#[inline]
pub fn row_at(i: usize) -> usize
    requires row { i < 32 }
    ensures start { result ≡ row_start i }
{
    let half = i / 2;
    let before = 2 * (half * (half + 1));
    if i % 2 == 0 {
        before
    } else {
        before + 2 * half + 2
    }
}

/// Where the entry of a kept pair stands.
#[inline]
pub fn place(i: usize, j: usize) -> usize
    requires row { i < 32 }
    requires column { j < row_width i }
    ensures place { result ≡ row_start i + j }
    ensures small { result < 544 }
{
    row_at(i) + j
}

/// How many columns row i keeps.
#[inline]
pub fn row_len(i: usize) -> usize
    requires row { i < 32 }
    ensures width { result ≡ row_width i }
{
    2 * (i / 2) + 2
}

/// The entry at a place.
#[inline]
pub fn read<W: Width>(row: &[Entry<W>], k: usize) -> Entry<W>
    requires place { k < length row.now }
    ensures value { result ≡ at W.unit row.now k }
{
    row[k]
}

/// The entry of a pair.
#[inline]
pub fn entry_at<W: Width>(entries: &[Entry<W>], slots: usize, i: usize, j: usize) -> Entry<W>
    requires few { slots ≤ 16 }
    requires row { i < 2 * slots }
    requires column { j < 2 * slots }
    requires size { length entries.now ≡ row_start (2 * slots) }
    requires entries { AreEntries W.unit (2 * W.unit) entries.now }
    ensures entry { result ≡ pair_at W.unit entries.now i j }
{
    if j < row_len(i) {
        let kept = place(i, j);
        return read(entries, kept);
    }
    let mirrored = place(other_sign(j), other_sign(i));
    read(entries, mirrored)
}

/// The entries of row i, whose node of the other sign is `other`; none beyond the nodes.
#[inline]
pub fn whole_row<W: Width>(
    entries: &[Entry<W>],
    slots: usize,
    i: usize,
    other: usize,
) -> [Entry<W>; 32]
    requires few { slots ≤ 16 }
    requires row { i < 2 * slots }
    requires other { other ≡ flip i }
    requires size { length entries.now ≡ row_start (2 * slots) }
    requires entries { AreEntries W.unit (2 * W.unit) entries.now }
    ensures entries { ColumnsAre W.unit (2 * slots) (pair_at W.unit entries.now i) result }
    ensures beyond { (j : ℕ) → 2 * slots ≤ j → at W.unit result j ≡ none W.unit }
{
    let mut row = [Entry::none(); 32];
    let start = row_at(i);
    let kept = row_len(i);
    for j in 0..kept {
        let at = start + j;
        row[j] = read(entries, at);
    }
    for slot in i / 2 + 1..slots {
        let even = row_at(2 * slot) + other;
        let odd = row_at(2 * slot + 1) + other;
        let first = read(entries, odd);
        let second = read(entries, even);
        row[2 * slot] = first;
        row[2 * slot + 1] = second;
    }
    row
}

/// Walks from a node may go over both nodes of a slot, in place, four entries at a time.
#[inline]
pub fn go_through<W: Width>(
    row: &mut [Entry<W>],
    to_first: Entry<W>,
    to_second: Entry<W>,
    from_first: &[Entry<W>; 32],
    from_second: &[Entry<W>; 32],
)
    requires size { length row.old ≤ 32 }
    requires even { length row.old % 2 ≡ 0 }
    requires row { AreEntries W.unit (2 * W.unit) row.old }
    requires to_first { IsEntry W.unit (6 * W.unit) to_first }
    requires to_second { IsEntry W.unit (6 * W.unit) to_second }
    requires from_first { AreEntries W.unit (8 * W.unit) from_first.now }
    requires from_second { AreEntries W.unit (8 * W.unit) from_second.now }
    ensures kept { GoneThrough W.unit to_first to_second from_first.now from_second.now
        row.old row.new }
    ensures within { AreEntries W.unit (14 * W.unit) row.new }
{
    let fours = row.len() / 4;
    for four in 0..fours {
        go_four(row, 4 * four, to_first, to_second, from_first, from_second);
    }
    if row.len() % 4 == 2 {
        go_two(row, 4 * fours, to_first, to_second, from_first, from_second);
    }
}

// The same of four entries. All are read before one is written, so that this is vector code.
#[inline]
fn go_four<W: Width>(
    row: &mut [Entry<W>],
    j: usize,
    to_first: Entry<W>,
    to_second: Entry<W>,
    from_first: &[Entry<W>; 32],
    from_second: &[Entry<W>; 32],
)
    requires size { length row.old ≤ 32 }
    requires columns { j + 4 ≤ length row.old }
    requires row { AreEntriesFrom W.unit j (2 * W.unit) row.old }
    requires to_first { IsEntry W.unit (6 * W.unit) to_first }
    requires to_second { IsEntry W.unit (6 * W.unit) to_second }
    requires from_first { AreEntries W.unit (8 * W.unit) from_first.now }
    requires from_second { AreEntries W.unit (8 * W.unit) from_second.now }
    ensures gone { AreGone W.unit j (j + 4) to_first to_second from_first.now from_second.now
        row.old row.new }
{
    let first = gone_at(row, j, to_first, to_second, from_first, from_second);
    let second = gone_at(row, j + 1, to_first, to_second, from_first, from_second);
    let third = gone_at(row, j + 2, to_first, to_second, from_first, from_second);
    let fourth = gone_at(row, j + 3, to_first, to_second, from_first, from_second);
    row[j] = first;
    row[j + 1] = second;
    row[j + 2] = third;
    row[j + 3] = fourth;
}

// The same of two.
#[inline]
fn go_two<W: Width>(
    row: &mut [Entry<W>],
    j: usize,
    to_first: Entry<W>,
    to_second: Entry<W>,
    from_first: &[Entry<W>; 32],
    from_second: &[Entry<W>; 32],
)
    requires size { length row.old ≤ 32 }
    requires columns { j + 2 ≤ length row.old }
    requires row { AreEntriesFrom W.unit j (2 * W.unit) row.old }
    requires to_first { IsEntry W.unit (6 * W.unit) to_first }
    requires to_second { IsEntry W.unit (6 * W.unit) to_second }
    requires from_first { AreEntries W.unit (8 * W.unit) from_first.now }
    requires from_second { AreEntries W.unit (8 * W.unit) from_second.now }
    ensures gone { AreGone W.unit j (j + 2) to_first to_second from_first.now from_second.now
        row.old row.new }
{
    let first = gone_at(row, j, to_first, to_second, from_first, from_second);
    let second = gone_at(row, j + 1, to_first, to_second, from_first, from_second);
    row[j] = first;
    row[j + 1] = second;
}

// The entry at column j when walks may go over both nodes.
#[inline]
fn gone_at<W: Width>(
    row: &[Entry<W>],
    j: usize,
    to_first: Entry<W>,
    to_second: Entry<W>,
    from_first: &[Entry<W>; 32],
    from_second: &[Entry<W>; 32],
) -> Entry<W>
    requires size { length row.now ≤ 32 }
    requires column { j < length row.now }
    requires entry { IsEntry W.unit (2 * W.unit) (at W.unit row.now j) }
    requires to_first { IsEntry W.unit (6 * W.unit) to_first }
    requires to_second { IsEntry W.unit (6 * W.unit) to_second }
    requires from_first { AreEntries W.unit (8 * W.unit) from_first.now }
    requires from_second { AreEntries W.unit (8 * W.unit) from_second.now }
    ensures value { result ≡ through_at W.unit to_first to_second from_first.now from_second.now j
        (at W.unit row.now j) }
{
    let here = read(row, j);
    let first = read(from_first, j);
    let second = read(from_second, j);
    over_both(here, to_first, first, to_second, second)
}

/// Whether each bound lies within the limits.
#[inline]
pub fn are_within<W: Width>(entries: &[Entry<W>]) -> bool
    requires entries { AreEntries W.unit (14 * W.unit) entries.now }
    ensures within { result ≡ true → AreEntries W.unit (2 * W.unit) entries.now }
{
    let mut low = Entry::zero();
    let mut high = Entry::zero();
    for j in 0..entries.len() {
        let bound = read(entries, j);
        low = lesser(low, bound);
        high = greater(high, bound_or_zero(bound));
    }
    !low.is_less(Entry::least()) && !Entry::greatest().is_less(high)
}

/// A row in which each bound is at most the sum of halves.
#[inline]
pub fn strengthen<W: Width>(row: &mut [Entry<W>], to: Entry<W>, from: &[Entry<W>; 32])
    requires size { length row.old ≤ 32 }
    requires row { AreEntries W.unit (2 * W.unit) row.old }
    requires to { IsEntry W.unit W.unit to }
    requires from { AreEntries W.unit W.unit from.now }
    ensures kept { EachIs W.unit (strengthened_at W.unit to from.now) row.old row.new }
    ensures within { AreEntries W.unit (2 * W.unit) row.new }
{
    for j in 0..row.len() {
        let here = read(row, j);
        let half = read(from, j);
        row[j] = settled(lesser(here, to.sum(half)));
    }
}

//! Steps 2 to 6, over the least weights.
ghost use Rattle.std.specs.Prelude.{◌≡◌, ◌<◌, ◌≤◌, ◌*◌, ◌+◌, neg_ℤ, pos, length};
ghost use Rattle.std.specs.Bool.{MatchBool};
ghost use Rattle.std.specs.Int.{int_div_euclid};
ghost use Rattle.dbm_close.specs.Steps.{range_high, range_low};
ghost use Rattle.dbm_core.specs.Half.{entry, row_start, row_width};
ghost use Rattle.dbm_incremental.specs.ClosedMatrices.{IsStrong};
ghost use Rattle.dbm_narrow.specs.Entries.{AreEntries, IsEntry, held, wide};
ghost use Rattle.dbm_narrow.specs.Held.{HoldsHalves, TellsFinish, TellsHalves, TellsLast, TellsRanges};
ghost use Rattle.dbm_narrow.specs.Rounds.{AreCut, HasLowEntry, HasNoLowEntry, IsNarrow};
ghost use Rattle.dbm_narrow.specs.Rows.{AreFlipped, RestStays, RowIs, Strengthened, strengthened_at};

use crate::closing::ClosingResult;
use crate::entries::{half, plus};
use crate::entry::Entry;
use crate::middle::flipped;
use crate::rows::{place, read, row_at, row_len, strengthen};
use crate::width::Width;

/// Steps 2 to 6, in place; no bound leaves the limits. After `Empty` the entries are of no use.
#[inline]
pub fn finish<W: Width>(kinds: &[bool], entries: &mut [Entry<W>]) -> ClosingResult
    requires narrow { IsNarrow W.unit kinds.now entries.old }
    ensures finish { TellsFinish W.unit kinds.now entries.old entries.new result }
{
    let slots = kinds.len();
    let halves = halves_of(kinds, entries);
    let behind = flipped(&halves, slots);
    if has_negative_halves(&halves, &behind, slots) {
        return ClosingResult::Empty;
    }
    strengthen_rows(entries, slots, &halves, &behind);
    last_steps(kinds, entries)
}

/// The same of strong entries, which steps 2 to 4 leave as they are.
#[inline]
pub fn finish_strong<W: Width>(kinds: &[bool], entries: &mut [Entry<W>]) -> ClosingResult
    requires narrow { IsNarrow W.unit kinds.now entries.old }
    requires strong { IsStrong (2 * length kinds.now) (entry (held W.unit kinds.now entries.old)) }
    ensures finish { TellsFinish W.unit kinds.now entries.old entries.new result }
{
    last_steps(kinds, entries)
}

// Steps 5 and 6.
#[inline]
fn last_steps<W: Width>(kinds: &[bool], entries: &mut [Entry<W>]) -> ClosingResult
    requires narrow { IsNarrow W.unit kinds.now entries.old }
    ensures cut { AreCut W.unit entries.old entries.new }
    ensures last { TellsLast W.unit kinds.now entries.new result }
{
    cut_all(entries);
    if has_low_entry(entries) {
        return ClosingResult::Empty;
    }
    if has_empty_range(kinds, entries) {
        return ClosingResult::Empty;
    }
    ClosingResult::Closed
}

// Step 5, in place.
#[inline]
fn cut_all<W: Width>(entries: &mut [Entry<W>])
    ensures cut { AreCut W.unit entries.old entries.new }
{
    for k in 0..entries.len() {
        entries[k] = read(entries, k).cut();
    }
}

// Whether an entry is below -2^64.
#[inline]
fn has_low_entry<W: Width>(entries: &[Entry<W>]) -> bool
    ensures low { MatchBool result (HasLowEntry W.unit entries.now)
        (HasNoLowEntry W.unit entries.now) }
{
    for k in 0..entries.len() {
        if read(entries, k).is_low() {
            return true;
        }
    }
    false
}

// Half of the bound from each node to that of the other sign, rounded down.
#[inline]
fn halves_of<W: Width>(kinds: &[bool], entries: &[Entry<W>]) -> [Entry<W>; 32]
    requires narrow { IsNarrow W.unit kinds.now entries.now }
    ensures halves { HoldsHalves W.unit kinds.now entries.now result }
    ensures entries { AreEntries W.unit W.unit result }
{
    let mut halves = [Entry::none(); 32];
    for slot in 0..kinds.len() {
        let even = place(2 * slot, 2 * slot + 1);
        let odd = place(2 * slot + 1, 2 * slot);
        let down = half(read(entries, even));
        let up = half(read(entries, odd));
        halves[2 * slot] = down;
        halves[2 * slot + 1] = up;
    }
    halves
}

// Step 3: whether both halves of a slot leave no number.
#[inline]
fn has_negative_halves<W: Width>(
    halves: &[Entry<W>; 32],
    behind: &[Entry<W>; 32],
    slots: usize,
) -> bool
    requires few { slots ≤ 16 }
    requires halves { AreEntries W.unit W.unit halves.now }
    requires behind { AreEntries W.unit W.unit behind.now }
    requires flipped { AreFlipped W.unit (2 * slots) halves.now behind.now }
    ensures negative { TellsHalves W.unit (2 * slots) halves.now result }
{
    for i in 0..2 * slots {
        let here = read(halves, i);
        let there = read(behind, i);
        let sum = plus(here, there);
        if sum.is_less(Entry::zero()) {
            return true;
        }
    }
    false
}

// Steps 2 and 4, in place.
#[inline]
fn strengthen_rows<W: Width>(
    entries: &mut [Entry<W>],
    slots: usize,
    halves: &[Entry<W>; 32],
    behind: &[Entry<W>; 32],
)
    requires few { slots ≤ 16 }
    requires size { length entries.old ≡ row_start (2 * slots) }
    requires entries { AreEntries W.unit (2 * W.unit) entries.old }
    requires halves { AreEntries W.unit W.unit halves.now }
    requires behind { AreEntries W.unit W.unit behind.now }
    ensures kept { Strengthened W.unit halves.now behind.now (2 * slots) entries.old entries.new }
    ensures entries { AreEntries W.unit (2 * W.unit) entries.new }
{
    for i in 0..2 * slots {
        let to = read(halves, i);
        strengthen_row(entries, i, to, behind);
    }
}

// The same in row i.
#[inline]
fn strengthen_row<W: Width>(
    entries: &mut [Entry<W>],
    i: usize,
    to: Entry<W>,
    behind: &[Entry<W>; 32],
)
    requires row { i < 32 }
    requires size { row_start i + row_width i ≤ length entries.old }
    requires entries { AreEntries W.unit (2 * W.unit) entries.old }
    requires to { IsEntry W.unit W.unit to }
    requires behind { AreEntries W.unit W.unit behind.now }
    ensures kept { RowIs W.unit (strengthened_at W.unit to behind.now) i entries.old entries.new }
    ensures rest { RestStays W.unit i entries.old entries.new }
    ensures entries { AreEntries W.unit (2 * W.unit) entries.new }
{
    if !to.is_less(Entry::free()) {
        return;
    }
    let start = row_at(i);
    let end = start + row_len(i);
    let row = &mut entries[start..end];
    strengthen(row, to, behind);
}

// The negative of half of a number, rounded down: half of 128 bits has one.
#[inline]
fn negative_half<W: Width>(bound: Entry<W>) -> i128
    ensures value { result ≡ neg_ℤ (int_div_euclid bound (pos 2)) }
{
    let half = bound.number().div_euclid(2);
    -half
}

/// The least value of a slot, by the bound on twice its negative.
#[inline]
#[tactic(auto, unfolding(crate::specs::Entries::wide))]
pub fn low_end<W: Width>(array: bool, bound: Entry<W>) -> i128
    requires bound { IsEntry W.unit (2 * W.unit) bound }
    ensures low { result ≡ range_low array (wide W.unit bound) }
{
    let extreme = if array { 0 } else { -9223372036854775808 };
    if !bound.is_less(Entry::free()) {
        return extreme;
    }
    let end = negative_half(bound);
    if end < extreme { extreme } else { end }
}

/// The greatest value of a slot, by the bound on twice it.
#[inline]
#[tactic(auto, unfolding(crate::specs::Entries::wide))]
pub fn high_end<W: Width>(array: bool, bound: Entry<W>) -> i128
    ensures high { result ≡ range_high array (wide W.unit bound) }
{
    let extreme = if array { 1000000 } else { 9223372036854775807 };
    if !bound.is_less(Entry::free()) {
        return extreme;
    }
    let end = bound.half_number();
    if end < extreme { end } else { extreme }
}

// Step 6: whether a slot's range is empty.
#[inline]
fn has_empty_range<W: Width>(kinds: &[bool], entries: &[Entry<W>]) -> bool
    requires narrow { IsNarrow W.unit kinds.now entries.now }
    ensures empty { TellsRanges W.unit kinds.now entries.now result }
{
    for (slot, array) in kinds.iter().enumerate() {
        let even = place(2 * slot, 2 * slot + 1);
        let odd = place(2 * slot + 1, 2 * slot);
        let low = low_end(*array, read(entries, even));
        let high = high_end(*array, read(entries, odd));
        if high < low {
            return true;
        }
    }
    false
}

//! Step 1: the least weights of walks.
ghost use Rattle.std.specs.Prelude.{◌≡◌, ◌<◌, ◌≤◌, ◌*◌, ◌+◌, ◌^◌, false, true, length};
ghost use Rattle.dbm_core.specs.Half.{entry, row_start, row_width};
ghost use Rattle.dbm_core.specs.Limits.{AreWithin};
ghost use Rattle.dbm_narrow.specs.Entries.{AreEntries, held};
ghost use Rattle.dbm_narrow.specs.Held.{HasLowDiagonal, TellsDiagonal};
ghost use Rattle.dbm_narrow.specs.Middles.{AllThrough, IsNarrowMiddle, through_middle};
ghost use Rattle.dbm_narrow.specs.Rounds.{AreRounds, IsNarrow, IsRound, LeavesIf};
ghost use Rattle.dbm_narrow.specs.Rows.{IsRowWithin, RestStays, RowIs};

use crate::entry::Entry;
use crate::middle::{Middle, fill_middle, no_middle};
use crate::rows::{are_within, go_through, read, row_at, row_len};
use crate::width::Width;

/// How rounds end.
#[derive(Clone, Copy, Debug, PartialEq, Eq)]
pub enum Walks {
    /// Walks may go through the nodes.
    Done,
    /// A closed walk is below 0.
    Negative,
    /// A bound has left the limits.
    TooWide,
}

/// Step 1: the least weights of all walks, in place. After an answer other than `Done` the entries
/// are of no use.
#[inline]
pub fn least_weights<W: Width>(kinds: &[bool], entries: &mut [Entry<W>]) -> Walks
    requires narrow { IsNarrow W.unit kinds.now entries.old }
    requires diagonal { HasLowDiagonal W.unit kinds.now entries.old }
    requires small { AreWithin (2 * length kinds.now) (2 ^ 70)
        (entry (held W.unit kinds.now entries.old)) }
    ensures weights { AreRounds W.unit kinds.now entries.old entries.new result }
    ensures total { LeavesIf W.checked result }
{
    let mut middle = no_middle();
    for q in 0..kinds.len() {
        match make_round(kinds, entries, q, &mut middle) {
            Walks::Done => {}
            Walks::Negative => return Walks::Negative,
            Walks::TooWide => return Walks::TooWide,
        }
    }
    if is_diagonal_negative(kinds, entries) {
        return Walks::Negative;
    }
    Walks::Done
}

// One round: walks may go through both nodes of slot q, whose bounds are put into `middle`.
#[inline]
fn make_round<W: Width>(
    kinds: &[bool],
    entries: &mut [Entry<W>],
    q: usize,
    middle: &mut Middle<W>,
) -> Walks
    requires narrow { IsNarrow W.unit kinds.now entries.old }
    requires middle { q < length kinds.now }
    requires bounds { IsNarrowMiddle W.unit middle.old }
    requires small { AreWithin (2 * length kinds.now) (2 ^ 102)
        (entry (held W.unit kinds.now entries.old)) }
    ensures round { IsRound W.unit kinds.now q entries.old entries.new result }
    ensures total { LeavesIf W.checked result }
    ensures bounds { IsNarrowMiddle W.unit middle.new }
{
    fill_middle(kinds, entries, q, middle);
    let first = read(&middle.from_first, 2 * q);
    if first.is_less(Entry::zero()) {
        return Walks::Negative;
    }
    let second = read(&middle.from_second, 2 * q + 1);
    if second.is_less(Entry::zero()) {
        return Walks::Negative;
    }
    if go_through_rows(entries, kinds.len(), middle) {
        Walks::Done
    } else {
        Walks::TooWide
    }
}

/// Walks may go through both nodes of the slot, in place: whether each bound stays within the limits, where
/// the width is checked.
#[inline]
pub fn go_through_rows<W: Width>(entries: &mut [Entry<W>], slots: usize, middle: &Middle<W>) -> bool
    requires few { slots ≤ 16 }
    requires size { length entries.old ≡ row_start (2 * slots) }
    requires entries { AreEntries W.unit (2 * W.unit) entries.old }
    requires middle { IsNarrowMiddle W.unit middle.now }
    ensures kept { result ≡ true →
        AllThrough W.unit middle.now (2 * slots) entries.old entries.new }
    ensures summed { result ≡ true → AreEntries W.unit (14 * W.unit) entries.new }
    ensures entries { W.checked ≡ true → result ≡ true →
        AreEntries W.unit (2 * W.unit) entries.new }
    ensures total { result ≡ false → W.checked ≡ true }
{
    let each = checks_rows::<W>(slots);
    for i in 0..2 * slots {
        if !go_through_row(entries, i, middle, each) {
            return false;
        }
    }
    if each {
        return true;
    }
    are_within_if(W::is_checked(), entries)
}

// Whether each row is checked: of many slots most are skipped, so that one check of all would cost more.
#[inline]
fn checks_rows<W: Width>(slots: usize) -> bool
    ensures checked { result ≡ true → W.checked ≡ true }
{
    W::is_checked() && slots > 8
}

// The same in row i: whether each of its bounds stays within the limits, where that is to be checked.
#[inline]
fn go_through_row<W: Width>(
    entries: &mut [Entry<W>],
    i: usize,
    middle: &Middle<W>,
    checks: bool,
) -> bool
    requires row { i < 32 }
    requires size { row_start i + row_width i ≤ length entries.old }
    requires entries { AreEntries W.unit (14 * W.unit) entries.old }
    requires small { IsRowWithin W.unit (2 * W.unit) i entries.old }
    requires middle { IsNarrowMiddle W.unit middle.now }
    ensures kept { RowIs W.unit (through_middle W.unit middle.now i) i entries.old entries.new }
    ensures rest { RestStays W.unit i entries.old entries.new }
    ensures entries { AreEntries W.unit (14 * W.unit) entries.new }
    ensures within { checks ≡ true → result ≡ true → AreEntries W.unit (2 * W.unit) entries.old →
        AreEntries W.unit (2 * W.unit) entries.new }
    ensures total { result ≡ false → checks ≡ true }
{
    let to_first = read(&middle.to_first, i);
    let to_second = read(&middle.to_second, i);
    if !to_first.is_less(Entry::free()) && !to_second.is_less(Entry::free()) {
        return true;
    }
    let start = row_at(i);
    let end = start + row_len(i);
    let row = &mut entries[start..end];
    go_through(
        row,
        to_first,
        to_second,
        &middle.from_first,
        &middle.from_second,
    );
    are_within_if(checks, row)
}

// Whether each bound lies within the limits, where that is to be checked.
#[inline]
fn are_within_if<W: Width>(checks: bool, entries: &[Entry<W>]) -> bool
    requires entries { AreEntries W.unit (14 * W.unit) entries.now }
    ensures within { checks ≡ true → result ≡ true → AreEntries W.unit (2 * W.unit) entries.now }
    ensures total { result ≡ false → checks ≡ true }
{
    !checks || are_within(entries)
}

// Whether an entry of the diagonal is below 0.
#[inline]
fn is_diagonal_negative<W: Width>(kinds: &[bool], entries: &[Entry<W>]) -> bool
    requires narrow { IsNarrow W.unit kinds.now entries.now }
    ensures negative { TellsDiagonal W.unit kinds.now entries.now result }
{
    for slot in 0..kinds.len() {
        let at = row_at(2 * slot) + 2 * slot;
        let own = read(entries, at);
        if own.is_less(Entry::zero()) {
            return true;
        }
    }
    false
}

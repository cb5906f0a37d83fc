//! Widenings of narrow matrices.
ghost use Rattle.std.specs.Prelude.{◌≡◌, ◌<◌, ◌≤◌, ◌*◌, ◌+◌, ◌^◌, IfOk, true, false, length};
ghost use Rattle.dbm_core.specs.Half.{row_start, row_width};
ghost use Rattle.dbm_core.specs.Limits.{IsWithin};
ghost use Rattle.dbm_core.specs.Operations.{threshold_value as value_of, next_threshold};
ghost use Rattle.dbm_narrow.specs.Entries.{AreEntries, IsEntry};
ghost use Rattle.dbm_narrow.specs.Held.{IsNoneIf};
ghost use Rattle.dbm_narrow.specs.Rows.{RestStays};
ghost use Rattle.dbm_narrow.specs.Widenings.{EachWidens, IsThresholdEntry, IsWidenedIf, RowWidensOn, WidensIf, WidensOn};

use crate::Narrow;
use crate::convert::narrow_entry;
use crate::entry::Entry;
use crate::rows::{read, row_at, row_len};
use crate::width::Width;
use base_values::Memory;
use dbm_core::other_sign;
use num_thresholds::Thresholds;
use std::alloc::Global;

/// The widening of a matrix by another, as that of `dbm_core`: None where a bound goes to a threshold
/// outside the limits.
pub fn widen<W: Width>(
    alloc: Global,
    thresholds: &[i64],
    left: &Narrow<W>,
    right: &Narrow<W>,
) -> Result<Option<Narrow<W>>, Memory>
    requires same_kinds { right.now.kinds ≡ left.now.kinds }
    ensures widens { IfOk result (WidensIf thresholds.now left.now right.now) }
    ensures total { IfOk result (IsNoneIf W.checked) }
{
    let kinds = left.kinds.share()?;
    let mut entries = Vec::from_slice(alloc, left.entries.as_slice())?;
    if raise_rows(
        entries.as_mut_slice(),
        right.entries.as_slice(),
        left.kinds.list().len(),
        &Thresholds::new(thresholds),
    ) {
        Ok(Some(Narrow { kinds, entries }))
    } else {
        Ok(None)
    }
}

// Widens the entries by the others, in place: whether each bound stays within the limits.
#[inline]
fn raise_rows<W: Width>(
    entries: &mut [Entry<W>],
    others: &[Entry<W>],
    slots: usize,
    thresholds: &Thresholds<'_>,
) -> bool
    requires few { slots ≤ 16 }
    requires size { length entries.old ≡ row_start (2 * slots) }
    requires as_many { length others.now ≡ length entries.old }
    requires entries { AreEntries W.unit (2 * W.unit) entries.old }
    requires others { AreEntries W.unit (2 * W.unit) others.now }
    ensures kept { WidensOn W.unit result thresholds.now slots entries.old others.now entries.new }
    ensures total { result ≡ false → W.checked ≡ true }
    ensures entries { result ≡ true → AreEntries W.unit (2 * W.unit) entries.new }
{
    for i in 0..2 * slots {
        if !raise_row(entries, others, i, thresholds) {
            return false;
        }
    }
    true
}

// The same in row i.
#[inline]
fn raise_row<W: Width>(
    entries: &mut [Entry<W>],
    others: &[Entry<W>],
    i: usize,
    thresholds: &Thresholds<'_>,
) -> bool
    requires row { i < 32 }
    requires size { row_start i + row_width i ≤ length entries.old }
    requires as_many { length others.now ≡ length entries.old }
    requires entries { AreEntries W.unit (2 * W.unit) entries.old }
    requires others { AreEntries W.unit (2 * W.unit) others.now }
    ensures kept { RowWidensOn W.unit result thresholds.now i entries.old others.now entries.new }
    ensures total { result ≡ false → W.checked ≡ true }
    ensures rest { RestStays W.unit i entries.old entries.new }
    ensures entries { result ≡ true → AreEntries W.unit (2 * W.unit) entries.new }
{
    let start = row_at(i);
    let end = start + row_len(i);
    let other = &others[start..end];
    let row = &mut entries[start..end];
    raise_each(row, other, i, thresholds)
}

// The same of the row itself.
#[inline]
fn raise_each<W: Width>(
    row: &mut [Entry<W>],
    others: &[Entry<W>],
    i: usize,
    thresholds: &Thresholds<'_>,
) -> bool
    requires node { i < 32 }
    requires size { length row.old ≤ 32 }
    requires as_many { length others.now ≡ length row.old }
    requires row { AreEntries W.unit (2 * W.unit) row.old }
    requires others { AreEntries W.unit (2 * W.unit) others.now }
    ensures kept { result ≡ true → EachWidens W.unit thresholds.now i row.old others.now row.new }
    ensures total { result ≡ false → W.checked ≡ true }
    ensures within { result ≡ true → AreEntries W.unit (2 * W.unit) row.new }
{
    let other = other_sign(i);
    for j in 0..row.len() {
        let old = read(row, j);
        let new = read(others, j);
        match widened_entry(thresholds, j == other, old, new) {
            None => return false,
            Some(entry) => row[j] = entry,
        }
    }
    true
}

// An entry stays where the new one is not greater, else it goes to the next threshold, if that fits.
#[inline]
fn widened_entry<W: Width>(
    thresholds: &Thresholds<'_>,
    doubled: bool,
    old: Entry<W>,
    new: Entry<W>,
) -> Option<Entry<W>>
    requires old { IsEntry W.unit (2 * W.unit) old }
    requires new { IsEntry W.unit (2 * W.unit) new }
    ensures widened { IsWidenedIf W.unit thresholds.now doubled old new result }
    ensures total { IsNoneIf W.checked result }
{
    if !old.is_less(new) {
        return Some(old);
    }
    if !new.is_less(Entry::free()) {
        return Some(Entry::none());
    }
    threshold_entry(thresholds, doubled, new)
}

// The entry of the next threshold, if it fits.
fn threshold_entry<W: Width>(
    thresholds: &Thresholds<'_>,
    doubled: bool,
    bound: Entry<W>,
) -> Option<Entry<W>>
    ensures entry { IsThresholdEntry W.unit (next_threshold thresholds.now doubled bound) result }
    ensures total { IsNoneIf W.checked result }
{
    narrow_entry(threshold_from(thresholds, doubled, bound))
}

// The least of the thresholds, or of the thresholds doubled, that is not less than the bound.
fn threshold_from<W: Width>(
    thresholds: &Thresholds<'_>,
    doubled: bool,
    bound: Entry<W>,
) -> Option<i128>
    ensures threshold { result ≡ next_threshold thresholds.now doubled bound }
    ensures within { IsWithin (2 ^ 64) result }
{
    thresholds.rise();
    let start = bound.start(doubled)?;
    let threshold = thresholds.least_from(start)?;
    Some(threshold_value(threshold, doubled))
}

// A threshold, or its double.
fn threshold_value(threshold: i64, doubled: bool) -> i128
    ensures value { result ≡ value_of doubled threshold }
{
    let value = i128::from(threshold);
    if doubled { 2 * value } else { value }
}

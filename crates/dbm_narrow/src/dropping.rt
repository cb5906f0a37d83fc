//! A slot forgotten.
ghost use Rattle.std.specs.Prelude.{◌≡◌, ◌<◌, ◌≤◌, ◌*◌, ◌+◌, IfOk, length};
ghost use Rattle.dbm_core.specs.Half.{entry, row_start, row_width};
ghost use Rattle.dbm_narrow.specs.Entries.{AreEntries, dropped};
ghost use Rattle.dbm_narrow.specs.Held.{Forgets};
ghost use Rattle.dbm_narrow.specs.Rows.{EachIs, RestStays, RowIs, RowsAre};

use crate::Narrow;
use crate::entry::Entry;
use crate::rows::{read, row_at, row_len};
use crate::width::Width;
use base_values::Memory;
use std::alloc::Global;

/// The bounds on a slot dropped: the slot may then have any value. The diagonal stays.
pub fn forget<W: Width>(alloc: Global, narrow: &Narrow<W>, slot: usize) -> Result<Narrow<W>, Memory>
    ensures entries { IfOk result (Forgets narrow.now slot) }
{
    let kinds = narrow.kinds.share()?;
    let mut entries = Vec::from_slice(alloc, narrow.entries.as_slice())?;
    drop_rows(entries.as_mut_slice(), narrow.kinds.list().len(), slot);
    Ok(Narrow { kinds, entries })
}

// Drops the bounds on the slot, in place.
#[inline]
fn drop_rows<W: Width>(entries: &mut [Entry<W>], slots: usize, slot: usize)
    requires few { slots ≤ 16 }
    requires size { length entries.old ≡ row_start (2 * slots) }
    requires entries { AreEntries W.unit (2 * W.unit) entries.old }
    ensures kept { RowsAre W.unit (dropped W.unit slot) (2 * slots) entries.old entries.new }
    ensures entries { AreEntries W.unit (2 * W.unit) entries.new }
{
    for i in 0..2 * slots {
        drop_row(entries, i, slot);
    }
}

// The same in row i.
#[inline]
fn drop_row<W: Width>(entries: &mut [Entry<W>], i: usize, slot: usize)
    requires row { i < 32 }
    requires size { row_start i + row_width i ≤ length entries.old }
    requires entries { AreEntries W.unit (2 * W.unit) entries.old }
    ensures kept { RowIs W.unit (dropped W.unit slot i) i entries.old entries.new }
    ensures rest { RestStays W.unit i entries.old entries.new }
    ensures entries { AreEntries W.unit (2 * W.unit) entries.new }
{
    let start = row_at(i);
    let end = start + row_len(i);
    let row = &mut entries[start..end];
    drop_each(row, i, slot);
}

// The same of the row itself.
#[inline]
fn drop_each<W: Width>(row: &mut [Entry<W>], i: usize, slot: usize)
    requires size { length row.old ≤ 32 }
    requires row { AreEntries W.unit (2 * W.unit) row.old }
    ensures kept { EachIs W.unit (dropped W.unit slot i) row.old row.new }
    ensures within { AreEntries W.unit (2 * W.unit) row.new }
{
    for j in 0..row.len() {
        let here = read(row, j);
        row[j] = dropped_entry(slot, i, j, here);
    }
}

// An entry without the bounds on the slot.
#[inline]
fn dropped_entry<W: Width>(slot: usize, i: usize, j: usize, entry: Entry<W>) -> Entry<W>
    ensures value { result ≡ dropped W.unit slot i j entry }
{
    if i == j {
        return entry;
    }
    if i / 2 == slot {
        return Entry::none();
    }
    if j / 2 == slot {
        return Entry::none();
    }
    entry
}

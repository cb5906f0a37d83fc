//! The bounds from both nodes of one slot to both nodes of another, or of its own.
ghost use Rattle.std.specs.Prelude.{◌≡◌, ◌<◌, ◌≤◌, ◌*◌, ◌+◌, length};
ghost use Rattle.dbm_core.specs.Half.{row_start, row_width};
ghost use Rattle.dbm_narrow.specs.Between.{IsBetween};
ghost use Rattle.dbm_narrow.specs.Entries.{AreEntries, at};

use crate::entry::Entry;
use crate::rows::{place, read};
use crate::width::Width;

/// The bounds from a slot's two nodes to those of another.
#[derive(Clone, Copy)]
pub struct Between<W: Width> {
    pub first_even: Entry<W>,
    pub first_odd: Entry<W>,
    pub second_even: Entry<W>,
    pub second_odd: Entry<W>,
}

/// The bounds from the nodes of slot q to those of another, or of its own.
#[inline]
pub fn bounds_between<W: Width>(
    entries: &[Entry<W>],
    slots: usize,
    q: usize,
    slot: usize,
) -> Between<W>
    requires few { slots ≤ 16 }
    requires middle { q < slots }
    requires slot { slot < slots }
    requires size { length entries.now ≡ row_start (2 * slots) }
    requires entries { AreEntries W.unit (2 * W.unit) entries.now }
    ensures bounds { IsBetween W.unit entries.now q slot result }
{
    if slot <= q {
        return Between {
            first_even: kept_at(entries, slots, 2 * q, 2 * slot),
            first_odd: kept_at(entries, slots, 2 * q, 2 * slot + 1),
            second_even: kept_at(entries, slots, 2 * q + 1, 2 * slot),
            second_odd: kept_at(entries, slots, 2 * q + 1, 2 * slot + 1),
        };
    }
    Between {
        first_even: kept_at(entries, slots, 2 * slot + 1, 2 * q + 1),
        first_odd: kept_at(entries, slots, 2 * slot, 2 * q + 1),
        second_even: kept_at(entries, slots, 2 * slot + 1, 2 * q),
        second_odd: kept_at(entries, slots, 2 * slot, 2 * q),
    }
}

// The entry of a kept pair.
#[inline]
fn kept_at<W: Width>(entries: &[Entry<W>], slots: usize, i: usize, j: usize) -> Entry<W>
    requires few { slots ≤ 16 }
    requires row { i < 2 * slots }
    requires column { j < row_width i }
    requires size { length entries.now ≡ row_start (2 * slots) }
    requires entries { AreEntries W.unit (2 * W.unit) entries.now }
    ensures entry { result ≡ at W.unit entries.now (row_start i + j) }
{
    let kept = place(i, j);
    read(entries, kept)
}

//! The range of a slot.
ghost use Rattle.std.specs.Prelude.{◌≡◌, ◌<◌, length};
ghost use Rattle.dbm_close.specs.Close.{slot_high, slot_low};
ghost use Rattle.dbm_core.specs.Half.{entry};
ghost use Rattle.dbm_narrow.specs.Entries.{held};
ghost use Rattle.dbm_narrow.specs.Held.{HoldsValues};
ghost use Rattle.dbm_narrow.specs.Rounds.{IsNarrow};

use crate::Narrow;
use crate::entry::Entry;
use crate::rows::{place, read};
use crate::steps::{high_end, low_end};
use crate::width::Width;

/// The ends of a slot's range: the least and the greatest value that its own two bounds leave
/// within the extremes of its kind. Whatever satisfies the matrix lies there.
pub fn slot_range<W: Width>(narrow: &Narrow<W>, slot: usize) -> (i128, i128)
    requires slot { slot < length narrow.now.kinds }
    ensures low { result.0 ≡ slot_low narrow.now.kinds (entry narrow.now) slot }
    ensures high { result.1 ≡ slot_high narrow.now.kinds (entry narrow.now) slot }
    ensures covers { HoldsValues narrow.now slot result.0 result.1 }
{
    let kinds = narrow.kinds.list();
    let entries = narrow.entries.as_slice();
    (low_of(kinds, entries, slot), high_of(kinds, entries, slot))
}

// The low end, over entries.
fn low_of<W: Width>(kinds: &[bool], entries: &[Entry<W>], slot: usize) -> i128
    requires narrow { IsNarrow W.unit kinds.now entries.now }
    requires slot { slot < length kinds.now }
    ensures low { result ≡ slot_low kinds.now (entry (held W.unit kinds.now entries.now)) slot }
{
    let down = place(2 * slot, 2 * slot + 1);
    low_end(kinds[slot], read(entries, down))
}

// The high end, over entries.
fn high_of<W: Width>(kinds: &[bool], entries: &[Entry<W>], slot: usize) -> i128
    requires narrow { IsNarrow W.unit kinds.now entries.now }
    requires slot { slot < length kinds.now }
    ensures high { result ≡ slot_high kinds.now (entry (held W.unit kinds.now entries.now)) slot }
{
    let up = place(2 * slot + 1, 2 * slot);
    high_end(kinds[slot], read(entries, up))
}

//! What matrices feed a hasher: a number for each kept bound.
ghost use Rattle.std.specs.Prelude.{◌≡◌, ◌*◌};
ghost use Rattle.std.specs.List.{fold};
ghost use Rattle.dbm_narrow.specs.Entries.{AreEntries};
ghost use Rattle.dbm_narrow.specs.Feeding.{entries_fed};

use crate::entry::Entry;
use crate::rows::read;
use crate::width::Width;
use std::hash::Hasher;

/// Feeds a hasher the entries: a number of 64 bits for each, which does not depend on the width.
#[inline]
pub fn feed_entries<W: Width, H: Hasher>(entries: &[Entry<W>], state: &mut H)
    requires entries { AreEntries W.unit (2 * W.unit) entries.now }
    ensures fed { state.new ≡ fold H.write state.old (entries_fed W.unit entries.now) }
{
    for k in 0..entries.len() {
        state.write_i64(read(entries, k).fed());
    }
}

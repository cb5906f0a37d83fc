//! Joins of narrow matrices.
ghost use Rattle.std.specs.Prelude.{◌≡◌, ◌*◌, IfOk, length};
ghost use Rattle.dbm_core.specs.Half.{HasEntries};
ghost use Rattle.dbm_core.specs.Operations.{joined};
ghost use Rattle.dbm_narrow.specs.Entries.{AreEntries};
ghost use Rattle.dbm_narrow.specs.Rows.{AreGreater};

use crate::Narrow;
use crate::entries::greater;
use crate::entry::Entry;
use crate::rows::read;
use crate::width::Width;
use base_values::Memory;
use std::alloc::Global;

/// The greater of the two bounds at each pair: the result fits, as both do.
pub fn join<W: Width>(
    alloc: Global,
    left: &Narrow<W>,
    right: &Narrow<W>,
) -> Result<Narrow<W>, Memory>
    requires same_kinds { right.now.kinds ≡ left.now.kinds }
    ensures entries { IfOk result (HasEntries left.now.kinds (joined left.now right.now)) }
{
    let kinds = left.kinds.share()?;
    let mut entries = Vec::from_slice(alloc, left.entries.as_slice())?;
    raise(entries.as_mut_slice(), right.entries.as_slice());
    Ok(Narrow { kinds, entries })
}

// Makes each entry at least the other's.
#[inline]
fn raise<W: Width>(entries: &mut [Entry<W>], others: &[Entry<W>])
    requires size { length others.now ≡ length entries.old }
    requires entries { AreEntries W.unit (2 * W.unit) entries.old }
    requires others { AreEntries W.unit (2 * W.unit) others.now }
    ensures greater { AreGreater W.unit entries.old others.now entries.new }
    ensures entries { AreEntries W.unit (2 * W.unit) entries.new }
{
    for k in 0..entries.len() {
        let own = read(entries, k);
        let other = read(others, k);
        entries[k] = greater(own, other);
    }
}

//! Bounds that a closed matrix has anyway.
ghost use Rattle.std.specs.Prelude.{◌≡◌, ◌*◌, true, length};
ghost use Rattle.dbm_close.specs.declared.closed.Closed.TheVariants as wide;
ghost use Rattle.dbm_core.specs.Half.{nodes};
ghost use Rattle.dbm_incremental.specs.ClosedMatrices.{IsClosed, IsWhole};
ghost use Rattle.dbm_incremental.specs.Steps.{AreBounds, ClosesAllLowered};
ghost use Rattle.dbm_narrow.specs.Addings.{AllLowered};
ghost use Rattle.dbm_narrow.specs.Lowerings.{HasOwnWeights};
ghost use Rattle.dbm_narrow.specs.Rounds.{IsNarrow};

use crate::Narrow;
use crate::adding::small_bound;
use crate::entry::Entry;
use crate::rows::entry_at;
use crate::width::Width;
use dbm_incremental::Bound;

/// Whether a closed matrix that obeys the triangle law has each of the bounds anyway: closing it with them
/// gives it again.
pub fn meets<W: Width>(closed: &Narrow<W>, bounds: &[Bound]) -> bool
    requires bounds { AreBounds (nodes closed.now) bounds.now }
    requires closed { IsClosed closed.now }
    requires whole { IsWhole closed.now }
    ensures met { result ≡ true
        → ClosesAllLowered closed.now bounds.now (wide.Matrix closed.now) }
{
    are_met(closed.kinds.list(), closed.entries.as_slice(), bounds)
}

// The same over entries.
fn are_met<W: Width>(kinds: &[bool], entries: &[Entry<W>], bounds: &[Bound]) -> bool
    requires narrow { IsNarrow W.unit kinds.now entries.now }
    requires weights { HasOwnWeights W.unit kinds.now entries.now }
    requires bounds { AreBounds (2 * length kinds.now) bounds.now }
    ensures met { result ≡ true
        → AllLowered W.unit kinds.now entries.now entries.now bounds.now }
{
    let slots = kinds.len();
    for bound in bounds {
        match small_bound::<W>(bound.bound) {
            None => return false,
            Some(small) => {
                let current = entry_at(entries, slots, bound.row, bound.column);
                if small.is_less(current) {
                    return false;
                }
            }
        }
    }
    true
}

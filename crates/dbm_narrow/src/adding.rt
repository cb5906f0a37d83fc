//! Bounds added to closed entries, which are then closed once more.
ghost use Rattle.std.specs.Prelude.{◌*◌, ◌≤◌, ◌^◌, length};
ghost use Rattle.dbm_incremental.specs.Steps.{AreBounds};
ghost use Rattle.dbm_narrow.specs.Addings.{AreLowered, IsLoweredOutcome};
ghost use Rattle.dbm_narrow.specs.Closings.{OutcomeLeavesIf};
ghost use Rattle.dbm_narrow.specs.Entries.{AreEntries};
ghost use Rattle.dbm_narrow.specs.Held.{IsSmallOf};
ghost use Rattle.dbm_narrow.specs.Lowerings.{HasOwnWeights};
ghost use Rattle.dbm_narrow.specs.Rounds.{IsNarrow, LeavesIf};

use crate::closing::ClosingResult;
use crate::convert::fits;
use crate::entry::Entry;
use crate::lower::lower;
use crate::steps::finish;
use crate::walks::Walks;
use crate::width::Width;
use dbm_incremental::Bound;

/// The bound as an entry, if it lies within the limits.
#[inline]
pub fn small_bound<W: Width>(bound: i128) -> Option<Entry<W>>
    ensures small { IsSmallOf W.unit bound result }
{
    if fits::<W>(Some(bound)) {
        Some(Entry::of(bound))
    } else {
        None
    }
}

/// Lowers the bounds, in place. After an answer other than `Done` the entries are of no use.
pub fn lower_all<W: Width>(kinds: &[bool], entries: &mut [Entry<W>], bounds: &[Bound]) -> Walks
    requires narrow { IsNarrow W.unit kinds.now entries.old }
    requires weights { HasOwnWeights W.unit kinds.now entries.old }
    requires few { length bounds.now ≤ 4 }
    requires bounds { AreBounds (2 * length kinds.now) bounds.now }
    requires within { AreEntries W.unit (2 ^ 64) entries.old }
    ensures lowered { AreLowered W.unit kinds.now entries.old entries.new bounds.now result }
    ensures total { LeavesIf W.checked result }
{
    for bound in bounds {
        match small_bound(bound.bound) {
            None => return Walks::TooWide,
            Some(small) => match lower(kinds, entries, bound.row, bound.column, small) {
                Walks::Done => {}
                Walks::Negative => return Walks::Negative,
                Walks::TooWide => return Walks::TooWide,
            },
        }
    }
    Walks::Done
}

/// Closes the entries with the bounds lowered, in place. After an answer other than `Closed` they are
/// of no use.
pub fn close_lowered<W: Width>(
    kinds: &[bool],
    entries: &mut [Entry<W>],
    bounds: &[Bound],
) -> ClosingResult
    requires narrow { IsNarrow W.unit kinds.now entries.old }
    requires weights { HasOwnWeights W.unit kinds.now entries.old }
    requires few { length bounds.now ≤ 4 }
    requires bounds { AreBounds (2 * length kinds.now) bounds.now }
    requires within { AreEntries W.unit (2 ^ 64) entries.old }
    ensures outcome { IsLoweredOutcome W.unit kinds.now entries.old entries.new bounds.now result }
    ensures total { OutcomeLeavesIf W.checked result }
{
    match lower_all(kinds, entries, bounds) {
        Walks::Done => finish(kinds, entries),
        Walks::Negative => ClosingResult::Empty,
        Walks::TooWide => ClosingResult::TooWide,
    }
}

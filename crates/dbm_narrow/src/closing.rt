//! Closing, over entries.
ghost use Rattle.std.specs.Prelude.{◌*◌, ◌^◌, length};
ghost use Rattle.dbm_core.specs.Half.{entry};
ghost use Rattle.dbm_core.specs.Limits.{AreWithin};
ghost use Rattle.dbm_incremental.specs.ClosedMatrices.{IsStrong};
ghost use Rattle.dbm_narrow.specs.Closings.{IsOutcome, OutcomeLeavesIf};
ghost use Rattle.dbm_narrow.specs.Entries.{held};
ghost use Rattle.dbm_narrow.specs.Held.{HasLowDiagonal};
ghost use Rattle.dbm_narrow.specs.Lowerings.{HasOwnWeights};
ghost use Rattle.dbm_narrow.specs.Rounds.{IsNarrow};

use crate::entry::Entry;
use crate::steps::{finish, finish_strong};
use crate::walks::{Walks, least_weights};
use crate::width::Width;

/// What closing answers.
#[derive(Clone, Copy, Debug, PartialEq, Eq)]
pub enum ClosingResult {
    /// The entries are closed.
    Closed,
    /// No values satisfy them.
    Empty,
    /// A bound has left the limits.
    TooWide,
}

/// Closes the entries, in place. After an answer other than `Closed` they are of no use.
pub fn close_entries<W: Width>(kinds: &[bool], entries: &mut [Entry<W>]) -> ClosingResult
    requires narrow { IsNarrow W.unit kinds.now entries.old }
    requires diagonal { HasLowDiagonal W.unit kinds.now entries.old }
    requires small { AreWithin (2 * length kinds.now) (2 ^ 70)
        (entry (held W.unit kinds.now entries.old)) }
    ensures outcome { IsOutcome W.unit kinds.now entries.old entries.new result }
    ensures total { OutcomeLeavesIf W.checked result }
{
    match least_weights(kinds, entries) {
        Walks::Done => finish(kinds, entries),
        Walks::Negative => ClosingResult::Empty,
        Walks::TooWide => ClosingResult::TooWide,
    }
}

/// Closes entries that are the least weights of their own walks, in place.
pub fn close_own<W: Width>(kinds: &[bool], entries: &mut [Entry<W>]) -> ClosingResult
    requires narrow { IsNarrow W.unit kinds.now entries.old }
    requires weights { HasOwnWeights W.unit kinds.now entries.old }
    ensures outcome { IsOutcome W.unit kinds.now entries.old entries.new result }
    ensures total { OutcomeLeavesIf W.checked result }
{
    finish(kinds, entries)
}

/// Closes strong entries, in place: only step 5 changes them.
pub fn close_strong<W: Width>(kinds: &[bool], entries: &mut [Entry<W>]) -> ClosingResult
    requires narrow { IsNarrow W.unit kinds.now entries.old }
    requires strong { IsStrong (2 * length kinds.now) (entry (held W.unit kinds.now entries.old)) }
    ensures outcome { IsOutcome W.unit kinds.now entries.old entries.new result }
    ensures total { OutcomeLeavesIf W.checked result }
{
    finish_strong(kinds, entries)
}

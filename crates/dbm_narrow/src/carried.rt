//! A slot that stands for a node plus a number, closed.
ghost use Rattle.std.specs.Prelude.{◌<◌, ◌^◌, IfOk, Some, length};
ghost use Rattle.dbm_core.specs.Half.{entry, nodes};
ghost use Rattle.dbm_core.specs.Limits.{IsWithin};
ghost use Rattle.dbm_incremental.specs.ClosedMatrices.{IsClosed, IsStrong, IsWhole};
ghost use Rattle.dbm_narrow.specs.Carried.{IsClosingStood};
ghost use Rattle.dbm_narrow.specs.Closed.{ClosingLeavesIf, IsClosing};

use crate::Narrow;
use crate::closed::Closing;
use crate::closing::{ClosingResult, close_strong};
use crate::stands::stood;
use crate::width::Width;
use base_values::Memory;
use std::alloc::Global;

/// A closed matrix that obeys the triangle law, in which slot q stands for node y plus c, its own or
/// another's, closed: it stays as it is, unless a range is empty.
pub fn close_carried<W: Width>(
    alloc: Global,
    closed: &Narrow<W>,
    q: usize,
    y: usize,
    c: i128,
) -> Result<Closing<W>, Memory>
    requires slot { q < length closed.now.kinds }
    requires node { y < nodes closed.now }
    requires closed { IsClosed closed.now }
    requires whole { IsWhole closed.now }
    requires small { IsWithin (2 ^ 70) (Some c) }
    ensures closing { IfOk result (IsClosingStood closed.now q y c) }
    ensures total { IfOk result (ClosingLeavesIf W.checked) }
{
    let _kinds = closed.kinds.list();
    match stood(alloc, closed, q, y, c)? {
        None => Ok(Closing::TooWide),
        Some(set) => Ok(close_set(set)),
    }
}

// Closes the matrix that is made.
fn close_set<W: Width>(set: Narrow<W>) -> Closing<W>
    requires strong { IsStrong (nodes set) (entry set) }
    ensures closing { IsClosing set result }
    ensures total { ClosingLeavesIf W.checked result }
{
    let Narrow { kinds, mut entries } = set;
    match close_strong(kinds.list(), entries.as_mut_slice()) {
        ClosingResult::Closed => Closing::Matrix(Narrow { kinds, entries }),
        ClosingResult::Empty => Closing::Empty,
        ClosingResult::TooWide => Closing::TooWide,
    }
}

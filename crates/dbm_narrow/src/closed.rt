//! Closing a narrow matrix.
ghost use Rattle.std.specs.Prelude.{◌≢◌, ◌<◌, ◌≤◌, ◌/◌, ◌^◌, IfOk, Some, length};
ghost use Rattle.dbm_core.specs.Half.{entry, nodes};
ghost use Rattle.dbm_core.specs.Limits.{AreWithin, HasZeroDiagonal, IsWithin, IsZeroAtMost};
ghost use Rattle.dbm_incremental.specs.ClosedMatrices.{IsClosed, IsWhole};
ghost use Rattle.dbm_incremental.specs.Steps.{AreBounds};
ghost use Rattle.dbm_narrow.specs.Closed.{ClosingLeavesIf, IsClosing, IsClosingEquated, IsClosingLowered};

use crate::Narrow;
use crate::adding::close_lowered;
use crate::closing::{ClosingResult, close_entries, close_own};
use crate::standing::close_stood;
use crate::width::Width;
use base_values::Memory;
use dbm_incremental::Bound;
use std::alloc::Global;

/// What closing answers.
#[derive(Drop)]
pub enum Closing<W: Width> {
    /// No values satisfy the matrix.
    Empty,
    /// The closed matrix.
    Matrix(Narrow<W>),
    /// A bound has left the limits of a width that is checked: nothing is said.
    TooWide,
}

/// Closes a matrix whose diagonal is 0 or less, as the definition of closing says, unless a bound
/// leaves the limits on the way.
pub fn close<W: Width>(alloc: Global, m: &Narrow<W>) -> Result<Closing<W>, Memory>
    requires diagonal { IsZeroAtMost (nodes m.now) (entry m.now) }
    requires small { AreWithin (nodes m.now) (2 ^ 70) (entry m.now) }
    ensures closing { IfOk result (IsClosing m.now) }
    ensures total { IfOk result (ClosingLeavesIf W.checked) }
{
    let kinds = m.kinds.share()?;
    let mut entries = Vec::from_slice(alloc, m.entries.as_slice())?;
    match close_entries(kinds.list(), entries.as_mut_slice()) {
        ClosingResult::Closed => Ok(Closing::Matrix(Narrow { kinds, entries })),
        ClosingResult::Empty => Ok(Closing::Empty),
        ClosingResult::TooWide => Ok(Closing::TooWide),
    }
}

/// Closes a matrix that obeys the triangle law: its entries are the least weights of its walks, so this
/// is one pass of tightening and strengthening.
pub fn close_whole<W: Width>(alloc: Global, m: &Narrow<W>) -> Result<Closing<W>, Memory>
    requires diagonal { HasZeroDiagonal (nodes m.now) (entry m.now) }
    requires whole { IsWhole m.now }
    ensures closing { IfOk result (IsClosing m.now) }
    ensures total { IfOk result (ClosingLeavesIf W.checked) }
{
    let kinds = m.kinds.share()?;
    let mut entries = Vec::from_slice(alloc, m.entries.as_slice())?;
    match close_own(kinds.list(), entries.as_mut_slice()) {
        ClosingResult::Closed => Ok(Closing::Matrix(Narrow { kinds, entries })),
        ClosingResult::Empty => Ok(Closing::Empty),
        ClosingResult::TooWide => Ok(Closing::TooWide),
    }
}

/// Closes a closed matrix that obeys the triangle law with bounds lowered, once, unless a bound leaves the
/// limits on the way.
pub fn close_after_bounds<W: Width>(
    alloc: Global,
    closed: &Narrow<W>,
    bounds: &[Bound],
) -> Result<Closing<W>, Memory>
    requires few { length bounds.now ≤ 4 }
    requires bounds { AreBounds (nodes closed.now) bounds.now }
    requires closed { IsClosed closed.now }
    requires whole { IsWhole closed.now }
    ensures closing { IfOk result (IsClosingLowered closed.now bounds.now) }
    ensures total { IfOk result (ClosingLeavesIf W.checked) }
{
    let kinds = closed.kinds.share()?;
    let mut entries = Vec::from_slice(alloc, closed.entries.as_slice())?;
    match close_lowered(kinds.list(), entries.as_mut_slice(), bounds) {
        ClosingResult::Closed => Ok(Closing::Matrix(Narrow { kinds, entries })),
        ClosingResult::Empty => Ok(Closing::Empty),
        ClosingResult::TooWide => Ok(Closing::TooWide),
    }
}

/// Closes a closed matrix that obeys the triangle law, in which slot q's bounds are dropped and q is made
/// node y, of another slot, plus c, unless a bound leaves the limits on the way.
pub fn close_equation<W: Width>(
    alloc: Global,
    closed: &Narrow<W>,
    q: usize,
    y: usize,
    c: i128,
) -> Result<Closing<W>, Memory>
    requires slot { q < length closed.now.kinds }
    requires node { y < nodes closed.now }
    requires apart { y / 2 ≢ q }
    requires closed { IsClosed closed.now }
    requires whole { IsWhole closed.now }
    requires small { IsWithin (2 ^ 70) (Some c) }
    ensures closing { IfOk result (IsClosingEquated closed.now q y c) }
    ensures total { IfOk result (ClosingLeavesIf W.checked) }
{
    let kinds = closed.kinds.share()?;
    let mut entries = Vec::from_slice(alloc, closed.entries.as_slice())?;
    match close_stood(kinds.list(), entries.as_mut_slice(), q, y, c) {
        ClosingResult::Closed => Ok(Closing::Matrix(Narrow { kinds, entries })),
        ClosingResult::Empty => Ok(Closing::Empty),
        ClosingResult::TooWide => Ok(Closing::TooWide),
    }
}

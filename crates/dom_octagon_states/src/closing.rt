//! Closing matrices: by narrow entries where these fit, else by wide ones.
ghost use Rattle.std.specs.Prelude.{◌≡◌, ◌≢◌, ◌<◌, ◌≤◌, ◌^◌, ◌/◌, Some, true, IfOk, IfSome, length};
ghost use Rattle.dbm_close.specs.CloseOf.{close_of};
ghost use Rattle.dbm_core.specs.Half.{entry, nodes};
ghost use Rattle.dbm_core.specs.Limits.{AreWithin, IsWithin};
ghost use Rattle.dbm_incremental.specs.ClosedMatrices.{IsClosed, IsWhole};
ghost use Rattle.dbm_incremental.specs.Equations.{ClosesEquated};
ghost use Rattle.dbm_incremental.specs.Steps.{AreBounds, ClosesAllLowered};
ghost use Rattle.dbm_narrow.specs.Carried.{ClosesStood};
ghost use Rattle.dom_octagon_states.specs.Limits.{IsReady, IsTight, ObeysTriangles};
ghost use Rattle.dom_octagon_states.specs.Tasks.{CanDo, Does};

use crate::OctagonState;
use crate::bounds::{Bounds, Held, hold, large, small};
use crate::close::{bounded, empty};
use crate::operations::is_whole;
use crate::tasks::{Task, close_by};
use base_values::Memory;
use dbm_incremental::Bound;
use dbm_narrow::{Closing, Narrow};
use std::alloc::Global;

// Closes a matrix by narrow entries where these fit, else by wide ones.
fn close(alloc: Global, m: &Bounds, task: Task<'_>) -> Result<OctagonState, Memory>
    requires can { CanDo m.now task }
    ensures does { IfOk result (Does m.now task.entry) }
{
    match &m.held {
        Held::Small(narrow) => close_small(alloc, narrow.as_ref(), task),
        Held::Large(wide) => close_large(alloc, wide.as_ref(), task),
    }
}

// The same of a narrow one.
fn close_small(alloc: Global, m: &Narrow<i32>, task: Task<'_>) -> Result<OctagonState, Memory>
    requires can { CanDo m.now task }
    ensures does { IfOk result (Does m.now task.entry) }
{
    match close_by(alloc, m, task)? {
        Closing::Empty => Ok(empty()),
        Closing::Matrix(closed) => Ok(bounded(small(alloc, closed)?)),
        Closing::TooWide => close_large(alloc, &large(alloc, m)?, task),
    }
}

// The same of a wide one, which always fits.
fn close_large(alloc: Global, m: &Narrow<i128>, task: Task<'_>) -> Result<OctagonState, Memory>
    requires can { CanDo m.now task }
    ensures does { IfOk result (Does m.now task.entry) }
{
    match close_by(alloc, m, task)? {
        Closing::Empty => Ok(empty()),
        Closing::Matrix(closed) => Ok(bounded(hold(alloc, closed)?)),
        Closing::TooWide => unreachable!(),
    }
}

/// The matrix closed.
pub fn closed_matrix(alloc: Global, m: &Bounds) -> Result<OctagonState, Memory>
    requires ready { IsReady m.now }
    ensures exact { IfOk result (λ s. s ≡ close_of m.now) }
{
    close(alloc, m, Task::Any)
}

/// Closes what an operation has made of a closed matrix, where it keeps the triangle law: one that
/// obeys it is closed in quadratic time.
pub fn close_kept(alloc: Global, m: &Bounds, set: &Bounds) -> Result<OctagonState, Memory>
    requires tight { IsTight m.now }
    requires ready { IsReady set.now }
    requires keeps { IsWhole m.now → ObeysTriangles set.now }
    ensures exact { IfOk result (λ s. s ≡ close_of set.now) }
{
    if is_whole(m) {
        return close(alloc, set, Task::Whole);
    }
    closed_matrix(alloc, set)
}

/// Closes a closed matrix with at most four bounds lowered, once.
pub fn close_after_bounds(
    alloc: Global,
    m: &Bounds,
    bounds: &[Bound],
) -> Result<OctagonState, Memory>
    requires few { length bounds.now ≤ 4 }
    requires bounds { AreBounds (nodes m.now) bounds.now }
    requires closed { IsClosed m.now }
    requires whole { IsWhole m.now }
    requires within { AreWithin (nodes m.now) (2 ^ 64) (entry m.now) }
    ensures closed { IfOk result (ClosesAllLowered m.now bounds.now) }
{
    if m.meets(bounds) {
        let same = m.copy()?;
        return Ok(bounded(same));
    }
    close(alloc, m, Task::Lowered(bounds))
}

/// Closes a closed matrix in which slot q's bounds are dropped and q is made node y, of another slot,
/// plus c.
pub fn close_equation(
    alloc: Global,
    m: &Bounds,
    q: usize,
    y: usize,
    c: i128,
) -> Result<OctagonState, Memory>
    requires slot { q < length m.now.kinds }
    requires node { y < nodes m.now }
    requires apart { y / 2 ≢ q }
    requires closed { IsClosed m.now }
    requires whole { IsWhole m.now }
    requires within { AreWithin (nodes m.now) (2 ^ 64) (entry m.now) }
    requires small { IsWithin (2 ^ 70) (Some c) }
    ensures closed { IfOk result (ClosesEquated m.now q y c) }
{
    close(alloc, m, Task::Equated(q, y, c))
}

/// A closed matrix in which slot q stands for node y plus c, its own or another's, closed, if it obeys the
/// triangle law and c lies from -2^70 to 2^70.
pub fn close_stood(
    alloc: Global,
    m: &Bounds,
    q: usize,
    y: usize,
    c: i128,
) -> Result<Option<OctagonState>, Memory>
    requires slot { q < length m.now.kinds }
    requires node { y < nodes m.now }
    requires closed { IsClosed m.now }
    ensures stood { IfOk result (λ o. IfSome o (ClosesStood m.now q y c)) }
{
    if !is_whole(m) || !is_limited(c) {
        return Ok(None);
    }
    Ok(Some(close(alloc, m, Task::Stood(q, y, c))?))
}

// Whether a number lies from -2^70 to 2^70.
fn is_limited(c: i128) -> bool
    ensures limited { result ≡ true → IsWithin (2 ^ 70) (Some c) }
{
    -1180591620717411303424 <= c && c <= 1180591620717411303424
}

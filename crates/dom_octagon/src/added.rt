//! Bounds added to a closed matrix.
ghost use Rattle.std.specs.Prelude.{◌≡◌, ◌≤◌, ◌^◌, true, IfOk, length};
ghost use Rattle.dbm_core.specs.Half.{nodes};
ghost use Rattle.dbm_core.specs.Limits.{IsLimited};
ghost use Rattle.dbm_close.specs.CloseOf.{close_of};
ghost use Rattle.dbm_incremental.specs.Steps.{AreBounds};
ghost use Rattle.dom_octagon.specs.Added.{AreSmallBounds, IsSmallBound, and_bound, with_bound_if, with_bounds, with_four};
ghost use Rattle.dom_octagon_states.specs.Limits.{IsReady, IsTight};

use crate::matrices::bound;
use base_values::Memory;
use dbm_core::Matrix;
use dbm_incremental::Bound;
use dom_octagon_states::{
    Bounds, OctagonState, bounds_of, close_after_bounds, closed_copy, closed_matrix, is_whole,
    matrix_of_bounds,
};
use std::alloc::Global;

/// A closed matrix with at most two bounds added, and closed.
pub fn close_with(
    alloc: Global,
    m: &Bounds,
    first: Option<Bound>,
    second: Option<Bound>,
) -> Result<OctagonState, Memory>
    requires tight { IsTight m.now }
    requires first { IsSmallBound first }
    requires second { IsSmallBound second }
    ensures exact { IfOk result (λ s. s ≡ close_of (with_bound_if
        (with_bound_if m.now first) second)) }
{
    match (first, second) {
        (None, None) => closed_copy(m),
        (Some(a), None) => close_bounds(alloc, m, &[a]),
        (None, Some(b)) => close_bounds(alloc, m, &[b]),
        (Some(a), Some(b)) => close_bounds(alloc, m, &[a, b]),
    }
}

/// A closed matrix with at most four bounds added, and closed.
pub fn close_with_more(
    alloc: Global,
    m: &Bounds,
    first: Option<Bound>,
    second: Option<Bound>,
    third: Option<Bound>,
    fourth: Option<Bound>,
) -> Result<OctagonState, Memory>
    requires tight { IsTight m.now }
    requires first { IsSmallBound first }
    requires second { IsSmallBound second }
    requires third { IsSmallBound third }
    requires fourth { IsSmallBound fourth }
    ensures exact { IfOk result (λ s. s ≡ close_of (with_four m.now first second third fourth)) }
{
    let mut bounds = Vec::new(alloc);
    collect(&mut bounds, first)?;
    collect(&mut bounds, second)?;
    collect(&mut bounds, third)?;
    collect(&mut bounds, fourth)?;
    close_bounds(alloc, m, &bounds)
}

/// Puts a bound, if there is one, after the others.
fn collect(bounds: &mut Vec<Bound>, added: Option<Bound>) -> Result<(), Memory>
    ensures value { IfOk result (λ u. bounds.new.items ≡ and_bound bounds.old.items added) }
{
    match added {
        None => {}
        Some(added) => bounds.push(added)?,
    }
    Ok(())
}

/// A closed matrix with bounds added, and closed.
fn close_bounds(alloc: Global, m: &Bounds, bounds: &[Bound]) -> Result<OctagonState, Memory>
    requires tight { IsTight m.now }
    requires few { length bounds.now ≤ 4 }
    requires small { AreSmallBounds bounds.now }
    ensures exact { IfOk result (λ s. s ≡ close_of (with_bounds m.now bounds.now)) }
{
    let _slots = m.kinds();
    if is_whole(m) && are_inside(m, bounds) {
        return close_after_bounds(alloc, m, bounds);
    }
    let mut plain = copied(alloc, m)?;
    put(&mut plain, bounds);
    let set = bounds_of(alloc, plain)?;
    closed_matrix(alloc, &set)
}

/// Whether each of the bounds is one of two nodes of the matrix.
fn are_inside(m: &Bounds, bounds: &[Bound]) -> bool
    requires small { AreSmallBounds bounds.now }
    ensures inside { result ≡ true → AreBounds (nodes m.now) bounds.now }
{
    let nodes = 2 * m.kinds().len();
    match bounds {
        [] => true,
        [first, rest @ ..] => { first.row < nodes && first.column < nodes && are_inside(m, rest) }
    }
}

/// The matrix once more, to be written to.
fn copied(alloc: Global, m: &Bounds) -> Result<Matrix, Memory>
    requires limited { IsLimited (2 ^ 64) m.now }
    ensures same { IfOk result (λ n. n ≡ m.now) }
    ensures ready { IfOk result IsReady }
{
    matrix_of_bounds(alloc, m)
}

/// Adds the bounds to a matrix that is to be closed whole.
fn put(m: &mut Matrix, bounds: &[Bound])
    requires small { AreSmallBounds bounds.now }
    ensures value { m.new ≡ with_bounds m.old bounds.now }
    ensures ready { IsReady m.old → IsReady m.new }
{
    match bounds {
        [] => {}
        [first, rest @ ..] => {
            bound(m, first.row, first.column, first.bound);
            put(m, rest);
        }
    }
}

//! Closing a closed matrix once more after bounds are added to it.
ghost use Rattle.std.specs.Prelude.{◌≤◌, ◌^◌, IfOk, length};
ghost use Rattle.dbm_core.specs.Half.{entry, nodes};
ghost use Rattle.dbm_core.specs.Limits.{AreWithin};
ghost use Rattle.dbm_incremental.specs.Answers.{IsClosedAnswer};
ghost use Rattle.dbm_incremental.specs.ClosedMatrices.{IsClosed, IsWhole};
ghost use Rattle.dbm_incremental.specs.Steps.{AreBounds, ClosesAllLowered};

use crate::lowering::lower;
use base_values::Memory;
use dbm_close::{Closed, finish};
use dbm_core::Matrix;
use std::alloc::Global;

/// A bound on the difference of what two nodes stand for: `v_column - v_row` is `bound` at most.
#[derive(Clone, Copy, Debug, PartialEq, Eq)]
pub struct Bound {
    pub row: usize,
    pub column: usize,
    pub bound: i128,
}

/// Closes a closed matrix with at most four bounds lowered, once.
pub fn close_after_bounds(
    alloc: Global,
    closed: &Matrix,
    bounds: &[Bound],
) -> Result<Closed, Memory>
    requires few { length bounds.now ≤ 4 }
    requires bounds { AreBounds (nodes closed.now) bounds.now }
    requires closed { IsClosed closed.now }
    requires whole { IsWhole closed.now }
    requires within { AreWithin (nodes closed.now) (2 ^ 64) (entry closed.now) }
    ensures closed { IfOk result (ClosesAllLowered closed.now bounds.now) }
    ensures stays_closed { IfOk result IsClosedAnswer }
{
    let _slots = closed.kinds();
    let mut weights = closed.copy(alloc)?;
    for bound in bounds {
        if !lower(&mut weights, bound.row, bound.column, bound.bound) {
            return Ok(Closed::Empty);
        }
    }
    let _kinds = weights.kinds();
    Ok(finish(weights))
}

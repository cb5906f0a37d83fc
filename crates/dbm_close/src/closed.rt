//! Closing a matrix, for the clauses of `close`.
ghost use Rattle.std.specs.Prelude.{◌≡◌, ◌^◌, IfOk};
ghost use Rattle.dbm_close.specs.Close.{IsCloseOf};
ghost use Rattle.dbm_close.specs.CloseOf.{close_of};
ghost use Rattle.dbm_close.specs.Laws.{IsLimitedAnswer, IsOnlyAnswer, KeepsKinds, KeepsMeaning};
ghost use Rattle.dbm_core.specs.Half.{entry, nodes};
ghost use Rattle.dbm_core.specs.Limits.{AreWithin, IsZeroAtMost};

use crate::steps::finish;
use crate::walks::least_weights;
use base_values::Memory;
use dbm_core::Matrix;
use std::alloc::Global;

/// What closing answers.
#[derive(Drop)]
pub enum Closed {
    /// No values satisfy the matrix.
    Empty,
    /// The closed matrix.
    Matrix(Matrix),
}

/// Closes a matrix.
///
/// Its diagonal is 0 or less, and its finite entries lie from -2^70 to 2^70. The answer keeps the
/// meaning: values within the slots' extremes satisfy it exactly where they satisfy the matrix,
/// and none do where it is Empty. A closed matrix has a diagonal of 0 and entries from -2^64 to
/// 2^64, so it can be closed again.
pub fn close(alloc: Global, matrix: &Matrix) -> Result<Closed, Memory>
    requires diagonal { IsZeroAtMost (nodes matrix.now) (entry matrix.now) }
    requires within { AreWithin (nodes matrix.now) (2 ^ 70) (entry matrix.now) }
    ensures closed { IfOk result (IsCloseOf matrix.now) }
    ensures only { IfOk result (IsOnlyAnswer matrix.now) }
    ensures value { IfOk result (λ c. c ≡ close_of matrix.now) }
    ensures meaning { IfOk result (KeepsMeaning matrix.now) }
    ensures same_kinds { IfOk result (KeepsKinds matrix.now) }
    ensures limited { IfOk result IsLimitedAnswer }
{
    let _slots = matrix.kinds();
    match least_weights(alloc, matrix)? {
        Some(s) => Ok(finish(s)),
        None => Ok(Closed::Empty),
    }
}

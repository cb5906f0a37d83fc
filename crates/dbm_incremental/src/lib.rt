//! Closing in time quadratic in the slots: what becomes of a closed matrix in an operation.
//!
//! Closing a closed matrix gives it again, and so are the join of two closed matrices and a closed
//! matrix without the bounds on a slot closed. Where its entries obey the triangle law too, it has
//! the least weights of its own walks, and an added bound changes these in one pass over the
//! entries (`close_after_bounds`); a slot made equal to another and a constant takes its bounds
//! (`close_equation`). Each function answers exactly what closing the changed matrix from nothing
//! answers: the contracts say so by the definition of closing, `IsCloseOf`.
//!
//! A closed matrix obeys the triangle law unless closing has cut an entry of 2^64 or more that a
//! walk still needs: `is_whole` sees in one pass that none is near that.
//!
//! Adding a bound in quadratic time is due to A. Miné, "The Octagon Abstract Domain", 2006, and, with
//! integers made tight, to A. Chawdhary, E. Robbins and A. King, "Incrementally Closing Octagons",
//! 2019. `close_after_bounds` makes one copy, goes over the kept entries once for each bound that
//! is lower, and twice more; `close_equation` makes one copy and goes over the slot's entries.
#![tactic(auto)]

ghost use Rattle.dbm_incremental.specs.Laws.{ClosedIsItsClose, CloseIsClosed, ForgetKeepsClosed, ForgetKeepsWhole, JoinKeepsClosed, JoinKeepsWhole};

mod bounds;
mod ends;
mod equation;
mod lowering;
mod whole;

pub use bounds::{Bound, close_after_bounds};
pub use equation::close_equation;
pub use whole::{close_whole, is_whole};

/// A law, with nothing to run: closing gives a closed matrix or Empty, and closing a closed matrix
/// gives it again.
pub fn closed_law()
    ensures closed { CloseIsClosed }
    ensures same { ClosedIsItsClose }
{}

/// A law, with nothing to run: the join of closed matrices is closed, and obeys the triangle law where
/// both do.
pub fn join_law()
    ensures closed { JoinKeepsClosed }
    ensures whole { JoinKeepsWhole }
{}

/// A law, with nothing to run: a closed matrix without the bounds on a slot is closed, and obeys the
/// triangle law where it did.
pub fn forget_law()
    ensures closed { ForgetKeepsClosed }
    ensures whole { ForgetKeepsWhole }
{}

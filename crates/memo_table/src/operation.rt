//! The operations on states that a memo remembers the results of.
ghost use Rattle.std.specs.Prelude.{◌≡◌, IfOk};

use base_values::{Items, Memory};
use imp_slots::{Entering, Layout, Returning, SlotCall, SlotCond, SlotStmt};
use std::alloc::Global;

/// What is done to the values of a cell's inputs. Equal ones do the same.
#[derive(PartialEq, Eq, Hash, Drop)]
pub enum Operation {
    /// The start of main, with its variables.
    Init(Layout),
    /// What a simple statement does.
    Post(SlotStmt),
    /// A condition has this truth value.
    Assume(SlotCond, bool),
    /// Into a procedure with these arguments.
    Enter(Entering),
    Join,
    /// Back from a call, with what is taken of the result.
    Leave(Option<Returning>),
    /// Widening at these thresholds.
    Widen(Items<i64>),
}

impl Operation {
    /// Of a simple statement, which it shares.
    #[inline]
    pub fn post(stmt: &SlotStmt) -> Result<Operation, Memory>
        ensures is { IfOk result (λ o. o ≡ Operation.Post stmt.now) }
    {
        Ok(Operation::Post(stmt.clone()?))
    }

    /// Of a condition, which it shares, and its truth value.
    #[inline]
    pub fn assume(condition: &SlotCond, sense: bool) -> Result<Operation, Memory>
        ensures is { IfOk result (λ o. o ≡ Operation.Assume condition.now sense) }
    {
        Ok(Operation::Assume(condition.clone()?, sense))
    }

    /// Of entering a call, whose arguments it shares.
    #[inline]
    pub fn enter(call: &SlotCall) -> Result<Operation, Memory>
        ensures is { IfOk result (λ o. o ≡ Operation.Enter call.now.entering) }
    {
        Ok(Operation::Enter(call.entering().clone()?))
    }

    /// Of widening at these thresholds, which it copies.
    #[inline]
    pub fn widen(alloc: Global, thresholds: &[i64]) -> Result<Operation, Memory>
        ensures is { IfOk result (λ o. o ≡ Operation.Widen thresholds.now) }
    {
        let thresholds = Vec::from_slice(alloc, thresholds)?;
        Ok(Operation::Widen(Items::from_vec(thresholds)))
    }
}

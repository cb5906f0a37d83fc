//! Why a program is refused.
ghost use Rattle.std.specs.Prelude.{◌≡◌};
ghost use Rattle.imp_check.specs.declared.fault.CheckError.TheVariants.{Memory as of_memory};

use base_values::{Memory, Text};
use std::alloc::AllocError;
use thiserror::Error;

/// Why a program is refused, in the order in which faults are looked for.
#[derive(Clone, Copy, Debug, PartialEq, Eq, Hash)]
pub enum Fault {
    /// More than 64 procedures.
    Procedures,
    /// More than 10,000 statements.
    Statements,
    /// A block at nesting 33.
    Nesting,
    /// A procedure or a variable with the name of an earlier one.
    Redeclared,
    /// More than 16 ints and arrays in a procedure.
    Ints,
    /// More than 8 lists in a procedure.
    Lists,
    /// A name of no variable, or of no procedure.
    UnknownName,
    /// A call of the procedure itself or of a later one.
    CallsLater,
    /// Another number of arguments than of parameters, or a result that is not there.
    WrongArguments,
    /// A variable or an expression of another kind than is needed.
    WrongKind,
    /// A break with no loop of its procedure around it.
    BreakOutside,
    /// The last procedure is not `main`.
    NoMain,
    /// `main` has parameters or a result.
    MainHasParameters,
    /// A chain of more than 8 calls.
    Depth,
    /// More than 4,096 chains of calls.
    Chains,
}

/// A fault and the number of its statement, or 0.
#[derive(Clone, Copy, Debug, PartialEq, Eq)]
pub(crate) struct Spot {
    pub(crate) fault: Fault,
    pub(crate) at: u32,
}

/// A fault, the name of its procedure, and the number of its statement, or 0.
#[derive(Debug, Drop)]
pub struct LocatedFault {
    pub fault: Fault,
    pub proc: Text,
    pub at: u32,
}

/// Why a program is not checked.
#[derive(Debug, Drop, Error)]
pub enum CheckError {
    /// The program has a fault.
    #[error("the program has a fault")]
    Fault(LocatedFault),
    /// Out of memory.
    #[error("out of memory")]
    Memory,
}

impl From<Memory> for CheckError {
    ghost from_gives = { λ _ e. e ≡ of_memory };

    fn from(_e: Memory) -> CheckError {
        CheckError::Memory
    }
}

impl From<AllocError> for CheckError {
    ghost from_gives = { λ _ e. e ≡ of_memory };

    fn from(_e: AllocError) -> CheckError {
        CheckError::Memory
    }
}

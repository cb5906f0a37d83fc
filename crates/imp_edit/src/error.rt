//! Why an edit is refused.
ghost use Rattle.imp_edit.specs.declared.error.EditError.TheVariants.{Memory as of_memory};
ghost use Rattle.std.specs.Prelude.{◌≡◌};

use base_values::Memory;
use imp_check::LocatedFault;
use std::alloc::AllocError;
use thiserror::Error;

/// Why an edit is refused, in the order in which refusals are looked for.
#[derive(Debug, Drop, Error)]
pub enum EditError {
    /// The program has no procedure of this name.
    #[error("no such procedure")]
    NoProcedure,
    /// The program has no statement of this number.
    #[error("no such statement")]
    NoStatement,
    /// The statement is not of the kind that the edit needs.
    #[error("wrong statement for this edit")]
    WrongStatement,
    /// `main` is not dropped.
    #[error("main cannot be dropped")]
    IsMain,
    /// The procedure is called.
    #[error("the procedure is still called")]
    StillCalled,
    /// A new statement's number would pass 1,000,000.
    #[error("the statement numbers are used up")]
    Numbers,
    /// The new program has this fault, and no earlier one.
    #[error("the new program has a fault")]
    Fault(LocatedFault),
    /// Out of memory.
    #[error("out of memory")]
    Memory,
}

impl From<Memory> for EditError {
    ghost from_gives = { λ _ e. e ≡ of_memory };

    fn from(_e: Memory) -> EditError {
        EditError::Memory
    }
}

impl From<AllocError> for EditError {
    ghost from_gives = { λ _ e. e ≡ of_memory };

    fn from(_e: AllocError) -> EditError {
        EditError::Memory
    }
}

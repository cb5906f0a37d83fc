//! Why a call has no answer.
ghost use Rattle.std.specs.Prelude.{◌≡◌};
ghost use Rattle.daig_session.specs.declared.error.QueryError.TheVariants.{Memory as query_memory};
ghost use Rattle.daig_session.specs.declared.error.AskError.TheVariants.{Memory as ask_memory};
ghost use Rattle.daig_session.specs.declared.error.StepError.TheVariants.{Memory as step_memory};
ghost use Rattle.daig_session.specs.declared.error.UndoError.TheVariants.{Memory as undo_memory};

use base_values::Memory;
use batch_meaning::QueryRefusal;
use thiserror::Error;

/// Why a question has no answer.
#[derive(Clone, Copy, Debug, PartialEq, Eq, Hash, Error)]
pub enum QueryError {
    /// The program has no such location, or no such chain.
    #[error("the query is refused")]
    Refused(QueryRefusal),
    /// Out of memory.
    #[error("out of memory")]
    Memory,
}

impl From<Memory> for QueryError {
    ghost from_gives = { λ _ e. e ≡ query_memory };

    fn from(_e: Memory) -> QueryError {
        QueryError::Memory
    }
}

/// Why no ticket is opened.
#[derive(Clone, Copy, Debug, PartialEq, Eq, Hash, Error)]
pub enum AskError {
    /// The question has no answer.
    #[error("the question is refused")]
    Refused(QueryRefusal),
    /// Sixteen tickets are open.
    #[error("sixteen tickets are open")]
    Full,
    /// Out of memory.
    #[error("out of memory")]
    Memory,
}

impl From<Memory> for AskError {
    ghost from_gives = { λ _ e. e ≡ ask_memory };

    fn from(_e: Memory) -> AskError {
        AskError::Memory
    }
}

/// Why a ticket is not stepped.
#[derive(Clone, Copy, Debug, PartialEq, Eq, Hash, Error)]
pub enum StepError {
    /// No ticket of this number is open.
    #[error("no such ticket is open")]
    NoTicket,
    /// The present program has no such location any more, or no chain to it. The ticket is closed.
    #[error("the ticket's location is gone")]
    Gone,
    /// Out of memory.
    #[error("out of memory")]
    Memory,
}

impl From<Memory> for StepError {
    ghost from_gives = { λ _ e. e ≡ step_memory };

    fn from(_e: Memory) -> StepError {
        StepError::Memory
    }
}

/// Why a session does not go to another program.
#[derive(Clone, Copy, Debug, PartialEq, Eq, Hash, Error)]
pub enum UndoError {
    /// There is no program to go to.
    #[error("nothing to undo or redo")]
    Nothing,
    /// Out of memory.
    #[error("out of memory")]
    Memory,
}

impl From<Memory> for UndoError {
    ghost from_gives = { λ _ e. e ≡ undo_memory };

    fn from(_e: Memory) -> UndoError {
        UndoError::Memory
    }
}

//! Why a question has no answer.
ghost use Rattle.std.specs.Prelude.{◌≡◌};
ghost use Rattle.batch_interp.specs.declared.error.QueryError.TheVariants.{Memory as of_memory};

use base_values::Memory;
use batch_meaning::QueryRefusal;
use thiserror::Error;

/// Why a location has no answer under a call string.
#[derive(Clone, Copy, Debug, PartialEq, Eq, Hash, Error)]
pub enum QueryError {
    /// The program has no such location, or no such chain.
    #[error("the query is refused")]
    Refused(QueryRefusal),
    /// Out of memory.
    #[error("out of memory")]
    Memory,
}

impl From<Memory> for QueryError {
    ghost from_gives = { λ _ e. e ≡ of_memory };

    fn from(_e: Memory) -> QueryError {
        QueryError::Memory
    }
}

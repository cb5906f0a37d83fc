//! Why words give no job.
ghost use Rattle.std.specs.Prelude.{◌≡◌};

use base_values::Memory;
use std::alloc::AllocError;
use thiserror::Error;

/// Why words give no job.
#[derive(Clone, Copy, Debug, PartialEq, Eq, Hash, Error)]
pub enum WordsError {
    /// The command line does not take them.
    #[error("the words are not taken")]
    Refused,
    /// Memory ran out.
    #[error("out of memory")]
    Memory,
}

impl From<Memory> for WordsError {
    ghost use Rattle.serve_command.specs.declared.error.WordsError.{WordsError};
    ghost use Rattle.serve_command.specs.declared.error.WordsError.TheVariants as e;

    ghost from_gives = { λ memory error. error ≡ e.Memory };

    fn from(_memory: Memory) -> WordsError {
        WordsError::Memory
    }
}

impl From<AllocError> for WordsError {
    ghost use Rattle.serve_command.specs.declared.error.WordsError.{WordsError};
    ghost use Rattle.serve_command.specs.declared.error.WordsError.TheVariants as e;

    ghost from_gives = { λ memory error. error ≡ e.Memory };

    fn from(_memory: AllocError) -> WordsError {
        WordsError::Memory
    }
}

//! Why a text is not read.
ghost use Rattle.std.specs.Prelude.{◌≡◌};
ghost use Rattle.imp_parse.specs.Judged.{of_lex};
ghost use Rattle.imp_parse.specs.declared.error.Stopped.TheVariants.{Memory as no_memory};

use base_values::Memory;
use imp_lex::LexError;
use std::alloc::AllocError;
use thiserror::Error;

/// Why a text is not read, and at which token, counted from 0.
#[derive(Clone, Copy, Debug, PartialEq, Eq, Hash, Drop, Error)]
pub enum ParseError {
    /// A lexical fault, never [`LexError::Memory`].
    #[error("{0}")]
    Lex(LexError),
    /// No text goes on with this token; or the text ends too early, and this is how many tokens
    /// it has.
    #[error("token {0} is not expected")]
    Unexpected(usize),
    /// This token begins a block at nesting 33, or is the 33rd operator of one expression or
    /// condition.
    #[error("token {0} is nested too deep")]
    TooDeep(usize),
    /// Out of memory.
    #[error("out of memory")]
    Memory,
}

impl From<LexError> for ParseError {
    ghost from_gives = { λ error e. e ≡ of_lex error };

    fn from(error: LexError) -> ParseError {
        match error {
            LexError::Memory => ParseError::Memory,
            LexError::BadByte(at) => ParseError::Lex(LexError::BadByte(at)),
            LexError::NumberTooBig(at) => ParseError::Lex(LexError::NumberTooBig(at)),
            LexError::NameTooLong(at) => ParseError::Lex(LexError::NameTooLong(at)),
        }
    }
}

/// Why reading stops: lack of memory, or a token, with how many are left from it on.
#[derive(Clone, Copy, Debug, PartialEq, Eq, Drop)]
pub(crate) enum Stopped {
    Memory,
    Unexpected(usize),
}

impl From<Memory> for Stopped {
    ghost from_gives = { λ _ e. e ≡ no_memory };

    fn from(_e: Memory) -> Stopped {
        Stopped::Memory
    }
}

impl From<AllocError> for Stopped {
    ghost from_gives = { λ _ e. e ≡ no_memory };

    fn from(_e: AllocError) -> Stopped {
        Stopped::Memory
    }
}

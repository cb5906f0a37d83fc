//! Why a text has no tokens.
ghost use Rattle.std.specs.Prelude.{◌≡◌};
ghost use Rattle.imp_lex.specs.declared.error.LexError.TheVariants.{Memory as of_memory};
ghost use Rattle.imp_lex.specs.Lexing.{error_at};

use base_values::Memory;
use thiserror::Error;

/// Why a text has no tokens, and at which byte, counted from 0.
#[derive(Clone, Copy, Debug, PartialEq, Eq, Hash, Drop, Error)]
pub enum LexError {
    /// No token begins with the byte at this place.
    #[error("no token begins at byte {0}")]
    BadByte(usize),
    /// The number that begins at this place is greater than 2^63 - 1.
    #[error("the number at byte {0} is too big")]
    NumberTooBig(usize),
    /// The name that begins at this place has more than 32 bytes.
    #[error("the name at byte {0} is too long")]
    NameTooLong(usize),
    /// Out of memory.
    #[error("out of memory")]
    Memory,
}

impl From<Memory> for LexError {
    ghost from_gives = { λ _ e. e ≡ of_memory };

    fn from(_e: Memory) -> LexError {
        LexError::Memory
    }
}

/// Why no token stands at the front of a text.
#[derive(Clone, Copy, Debug, PartialEq, Eq, Drop)]
pub(crate) enum Fault {
    BadByte,
    NumberTooBig,
    NameTooLong,
}

impl Fault {
    /// The fault at this place.
    pub(crate) fn at(self, place: usize) -> LexError
        ensures is { result ≡ error_at self place }
    {
        match self {
            Fault::BadByte => LexError::BadByte(place),
            Fault::NumberTooBig => LexError::NumberTooBig(place),
            Fault::NameTooLong => LexError::NameTooLong(place),
        }
    }
}

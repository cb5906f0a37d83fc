//! Why a line is no request.
ghost use Rattle.std.specs.Prelude.{◌≡◌};

use base_values::Memory;
use thiserror::Error;

/// Why a line is no request: the first of these in this order, but when memory runs out.
#[derive(Clone, Copy, Debug, PartialEq, Eq, Hash, Error)]
pub enum ReadError {
    /// The line is not UTF-8, or no JSON.
    #[error("no JSON")]
    NoJson,
    /// The line is no object, has no text `do`, or a field of the request is missing or not as it
    /// should be.
    #[error("a member is missing or not as it should be")]
    BadMember,
    /// `do` names no request.
    #[error("no such request")]
    NoRequest,
    /// The call string has more than two members.
    #[error("the call string is longer than two")]
    LongString,
    /// Memory ran out.
    #[error("out of memory")]
    Memory,
}

impl From<Memory> for ReadError {
    ghost use Rattle.request_json.specs.declared.error.ReadError.{ReadError};
    ghost use Rattle.request_json.specs.declared.error.ReadError.TheVariants as e;

    ghost from_gives = { λ memory error. error ≡ e.Memory };

    fn from(_memory: Memory) -> ReadError {
        ReadError::Memory
    }
}

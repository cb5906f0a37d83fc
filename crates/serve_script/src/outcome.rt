//! Why the answering of a script stops short.
ghost use Rattle.std.specs.Prelude.{◌≡◌};

use thiserror::Error;

/// Why the answering of a script stopped short.
#[derive(Clone, Copy, Debug, Drop, Error, PartialEq, Eq)]
pub enum Stop {
    /// A read of the script failed.
    #[error("the script could not be read")]
    Script,
    /// A write of a reply failed.
    #[error("a reply could not be written")]
    Sink,
    /// Memory ran out.
    #[error("out of memory")]
    Memory,
    /// The most bytes of a script, 2^40, were read.
    #[error("the script is too long")]
    Long,
}

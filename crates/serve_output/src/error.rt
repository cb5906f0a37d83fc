//! Why nothing is given for a job.
ghost use Rattle.std.specs.Prelude.{◌≡◌};
ghost use Rattle.serve_output.specs.declared.error.JobError.TheVariants.{Memory as of_memory};

use base_values::Memory;
use request_json::Refusal;
use thiserror::Error;

/// Why nothing is given for a job.
#[derive(Debug, Drop, Error)]
pub enum JobError {
    /// The source is not read, or its program has a fault.
    #[error("the source is refused")]
    Refused(Refusal),
    /// A file could not be loaded, or is not there.
    #[error("a file is missing")]
    Files,
    /// A file has too many bytes.
    #[error("a file is too long")]
    LongFile,
    /// Out of memory.
    #[error("out of memory")]
    Memory,
}

impl From<Memory> for JobError {
    ghost from_gives = { λ _ e. e ≡ of_memory };

    fn from(_e: Memory) -> JobError {
        JobError::Memory
    }
}

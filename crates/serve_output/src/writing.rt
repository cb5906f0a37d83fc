//! The end of a job: what is given is written.
ghost use Rattle.std.specs.Prelude.{◌≡◌};
ghost use Rattle.io_edge.specs.Outside.{Rose};
ghost use Rattle.serve_output.specs.Ends.{EndsBy, WritesOutput};
ghost use Rattle.serve_output.specs.Given.{EndsGiven, Gives};
ghost use Rattle.serve_output.specs.Output.{done, Output};

use crate::error::JobError;
use crate::refusing::refuse_source;
use crate::status::Status;
use io_edge::{Failed, Sink};
use serve_script::write_all;
use std::alloc::Global;

/// Writes all bytes.
fn write_done<O: Sink>(bytes: &[u8], out: &mut O) -> Status
    ensures ends { EndsBy Status.Done (Rose (O.faults out.old) (O.faults out.new)) result }
    ensures wrote { WritesOutput result (done bytes.now) (O.told out.old) (O.told out.new) }
{
    match write_all(out, bytes) {
        Ok(()) => Status::Done,
        Err(Failed) => Status::Sink,
    }
}

/// Writes what is given for a job, or why its source is refused.
pub fn write_given<O: Sink>(alloc: Global, given: Result<Vec<u8>, JobError>, out: &mut O) -> Status
    ensures ends { EndsGiven (O.told out.new ≡ O.told out.old)
        (Rose (O.faults out.old) (O.faults out.new)) given result }
    ensures wrote { (output : Output) → Gives given output →
        WritesOutput result output (O.told out.old) (O.told out.new) }
{
    match given {
        Ok(bytes) => write_done(bytes.as_slice(), out),
        Err(JobError::Refused(why)) => refuse_source(alloc, why, out),
        Err(JobError::Files) => Status::Files,
        Err(JobError::LongFile) => Status::LongFile,
        Err(JobError::Memory) => Status::Memory,
    }
}

//! From the names of files to what they have: bytes, or a program without faults.
ghost use Rattle.std.specs.Prelude.{◌≡◌, ◌≤◌, length, IfOk, IfErr};
ghost use Rattle.serve_output.specs.Given.{EndsFile, EndsProgram, FailsOnFile, HasBytes, IsProgramIn};
ghost use Rattle.serve_output.specs.Sources.{IsNumbered};

use crate::error::JobError;
use crate::source::{read_checked, read_table};
use imp_table::{Checked, Table};
use io_edge::{Files, LoadFault};
use serve_answers::texts_are_read;
use std::alloc::Global;

/// The most bytes of a source.
const MOST_SOURCE: usize = 1_048_576;

/// The bytes of a file.
pub(crate) fn load<F: Files>(
    alloc: Global,
    name: &str,
    most: usize,
    files: &mut F,
) -> Result<Vec<u8>, JobError>
    ensures bytes { IfOk result (λ v. HasBytes (F.told files.old) name.now v.items) }
    ensures fits { IfOk result (λ v. length v.items ≤ most) }
    ensures ends { IfErr result (EndsFile (F.told files.old) name.now most) }
    ensures missing { FailsOnFile F.faults F.told files.old files.new name.now result }
    ensures stays { F.told files.new ≡ F.told files.old }
    ensures never_falls { F.faults files.old ≤ F.faults files.new }
{
    match files.load(alloc, name, most) {
        Ok(bytes) => Ok(bytes),
        Err(LoadFault::Failed) => Err(JobError::Files),
        Err(LoadFault::Absent) => Err(JobError::Files),
        Err(LoadFault::TooLong) => Err(JobError::LongFile),
        Err(LoadFault::Memory) => Err(JobError::Memory),
    }
}

/// The program that a file is, as a tree.
pub(crate) fn load_checked<F: Files>(
    alloc: Global,
    name: &str,
    files: &mut F,
) -> Result<Checked, JobError>
    ensures program { IfOk result (IsProgramIn (F.told files.old) name.now) }
    ensures ends { IfErr result (EndsProgram (F.told files.old) name.now) }
    ensures missing { FailsOnFile F.faults F.told files.old files.new name.now result }
    ensures stays { F.told files.new ≡ F.told files.old }
    ensures never_falls { F.faults files.old ≤ F.faults files.new }
{
    texts_are_read();
    let source = load(alloc, name, MOST_SOURCE, files)?;
    read_checked(alloc, source.as_slice())
}

/// The program that a file is, as a table of its statements.
///
/// # Errors
///
/// [`JobError::Files`] and [`JobError::LongFile`] where the file is not loaded, [`JobError::Refused`] with the first
/// fault of the text, else of its program, and [`JobError::Memory`] when memory runs out.
pub fn load_table<F: Files>(alloc: Global, name: &str, files: &mut F) -> Result<Table, JobError>
    ensures program { IfOk result (λ t. IsProgramIn (F.told files.old) name.now t.program) }
    ensures numbered { IfOk result (λ t. IsNumbered t.program) }
    ensures ends { IfErr result (EndsProgram (F.told files.old) name.now) }
    ensures missing { FailsOnFile F.faults F.told files.old files.new name.now result }
{
    texts_are_read();
    let source = load(alloc, name, MOST_SOURCE, files)?;
    read_table(alloc, source.as_slice())
}

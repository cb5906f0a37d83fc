//! From the bytes of a source to a program without faults, or the refusal: `source_of` of
//! `specs/Sources.antt`.
ghost use Rattle.std.specs.Prelude.{◌≡◌, ◌<◌, ◌^◌, length, IfOk, IfErr, None, Ok};
ghost use Rattle.imp_check.specs.Programs.{AreNumbered, check_fault};
ghost use Rattle.serve_answers.specs.Readings.{Readings};
ghost use Rattle.serve_output.specs.Sources.{unless_faulty, IsErrorOf, IsNumbered};
ghost use Rattle.serve_output.specs.Sources.{IsSourceError, IsTextOf};

use crate::error::JobError;
use dom_interval::Interval;
use imp_check::CheckError;
use imp_parse::{ParseError, parse_program};
use imp_syntax::Program;
use imp_table::{Checked, Table, check, check_table};
use serve_answers::{machines_stay_fine, texts_are_read};
use serve_replies::{fault_refusal, text_refusal};
use std::alloc::Global;

/// The program as a table of its statements, where it has no fault.
fn tabled(alloc: Global, program: &Program) -> Result<Table, JobError>
    requires numbered { AreNumbered program.now }
    ensures accepted { IfOk result (λ t. t.program ≡ program.now) }
    ensures faultless { IfOk result (λ _. check_fault program.now ≡ None) }
    ensures refused { IfErr result
        (IsSourceError (unless_faulty program.now (check_fault program.now))) }
{
    match check_table(alloc, program) {
        Ok(table) => Ok(table),
        Err(CheckError::Fault(found)) => Err(JobError::Refused(fault_refusal(alloc, found)?)),
        Err(CheckError::Memory) => Err(JobError::Memory),
    }
}

/// The program as a tree, where it has no fault.
fn checked(alloc: Global, program: Program) -> Result<Checked, JobError>
    requires numbered { AreNumbered program }
    ensures accepted { IfOk result (λ c. c ≡ program) }
    ensures faultless { IfOk result (λ _. check_fault program ≡ None) }
    ensures refused { IfErr result (IsSourceError (unless_faulty program (check_fault program))) }
{
    match check(alloc, program) {
        Ok(checked) => Ok(checked),
        Err(CheckError::Fault(found)) => Err(JobError::Refused(fault_refusal(alloc, found)?)),
        Err(CheckError::Memory) => Err(JobError::Memory),
    }
}

/// The program of a text, whose faults are not yet known.
fn read_program(alloc: Global, source: &[u8]) -> Result<Program, JobError>
    requires short { length source.now < 2 ^ 31 }
    ensures read { IfOk result (λ p.
        (readings : Readings) → readings.program.answer source.now ≡ Ok p) }
    ensures numbered { IfOk result AreNumbered }
    ensures refused { IfErr result (IsErrorOf source.now) }
{
    match parse_program(alloc, source) {
        Ok(program) => Ok(program),
        Err(ParseError::Memory) => Err(JobError::Memory),
        Err(error) => Err(JobError::Refused(text_refusal(alloc, error)?)),
    }
}

/// The program without faults that a source is, as a table of its statements.
///
/// # Errors
///
/// [`JobError::Refused`] with the first fault of the text, else of its program, and
/// [`JobError::Memory`] when memory runs out.
pub fn read_table(alloc: Global, source: &[u8]) -> Result<Table, JobError>
    requires short { length source.now < 2 ^ 31 }
    ensures accepted { IfOk result (λ t. IsTextOf source.now t.program) }
    ensures numbered { IfOk result (λ t. IsNumbered t.program) }
    ensures refused { IfErr result (IsErrorOf source.now) }
{
    texts_are_read();
    machines_stay_fine::<Interval>();
    let program = read_program(alloc, source)?;
    tabled(alloc, &program)
}

/// The program without faults that a source is, as a tree.
///
/// # Errors
///
/// As for [`read_table`].
pub(crate) fn read_checked(alloc: Global, source: &[u8]) -> Result<Checked, JobError>
    requires short { length source.now < 2 ^ 31 }
    ensures accepted { IfOk result (IsTextOf source.now) }
    ensures refused { IfErr result (IsErrorOf source.now) }
{
    let program = read_program(alloc, source)?;
    checked(alloc, program)
}

//! The edits of requests: `specs/Edits.antt`.
ghost use Rattle.std.specs.Prelude.{◌≡◌, ◌≤◌, ℕ, IfOk, IfErr, Ok};
ghost use Rattle.imp_edit.specs.Edited.{Continues};
ghost use Rattle.serve_answers.specs.declared.edits.TextError.TheVariants.{Memory as of_memory};
ghost use Rattle.serve_answers.specs.Edits.{replace_of, insert_of, guard_of, add_of, IsTextError};
ghost use Rattle.serve_answers.specs.Readings.{Readings};

use base_values::{Memory, Text};
use imp_parse::{ParseError, parse_cond, parse_proc, parse_simple, parse_stmts};
use imp_syntax::{Edit, Place, StmtId};
use request_json::Refusal;
use serve_replies::text_refusal;
use std::alloc::Global;
use thiserror::Error;

/// Why a text gives no edit.
#[derive(Debug, Drop, Error)]
pub enum TextError {
    /// It is not read.
    #[error("the text is refused")]
    Refused(Refusal),
    /// Out of memory.
    #[error("out of memory")]
    Memory,
}

impl From<Memory> for TextError {
    ghost from_gives = { λ _ e. e ≡ of_memory };

    fn from(_e: Memory) -> TextError {
        TextError::Memory
    }
}

/// The most bytes of a text; no line has as many.
const MOST_TEXT: usize = 1 << 30;

/// The edit that puts the simple statement of a text in the place of one. It is numbered `next`.
///
/// # Errors
///
/// [`TextError::Refused`] exactly where the text is not a simple statement, with its first fault. [`TextError::Memory`]
/// when memory runs out, also where the text has more than 2^30 bytes.
pub fn replace_of(alloc: Global, id: StmtId, text: &[u8], next: u32) -> Result<Edit, TextError>
    requires low { next ≤ 1000001 }
    ensures made { IfOk result (λ e. (readings : Readings) →
        replace_of readings next id text.now ≡ Ok e) }
    ensures refused { IfErr result (λ e. (readings : Readings) →
        IsTextError (replace_of readings next id text.now) e) }
    ensures continues { IfOk result (λ e. Continues e next) }
{
    if text.len() > MOST_TEXT {
        return Err(TextError::Memory);
    }
    match parse_simple(alloc, text, next) {
        Ok((stmt, _)) => Ok(Edit::Replace(id, stmt)),
        Err(ParseError::Memory) => Err(TextError::Memory),
        Err(error) => Err(TextError::Refused(text_refusal(alloc, error)?)),
    }
}

/// The edit that puts the statements of a text at a place. They are numbered from `next` on.
///
/// # Errors
///
/// As [`replace_of`], of a text of statements.
pub fn insert_of(alloc: Global, place: Place, text: &[u8], next: u32) -> Result<Edit, TextError>
    requires low { next ≤ 1000001 }
    ensures made { IfOk result (λ e. (readings : Readings) →
        insert_of readings next place text.now ≡ Ok e) }
    ensures refused { IfErr result (λ e. (readings : Readings) →
        IsTextError (insert_of readings next place text.now) e) }
    ensures continues { IfOk result (λ e. Continues e next) }
{
    if text.len() > MOST_TEXT {
        return Err(TextError::Memory);
    }
    match parse_stmts(alloc, text, next) {
        Ok((block, _)) => Ok(Edit::Insert(place, block)),
        Err(ParseError::Memory) => Err(TextError::Memory),
        Err(error) => Err(TextError::Refused(text_refusal(alloc, error)?)),
    }
}

/// The edit that gives an if or while the condition of a text.
///
/// # Errors
///
/// As [`replace_of`], of a text of a condition.
pub fn guard_of(alloc: Global, id: StmtId, text: &[u8]) -> Result<Edit, TextError>
    ensures made { IfOk result (λ e. (readings : Readings) → guard_of readings id text.now ≡ Ok e) }
    ensures refused { IfErr result (λ e. (readings : Readings) →
        IsTextError (guard_of readings id text.now) e) }
    ensures continues { (next : ℕ) → IfOk result (λ e. Continues e next) }
{
    if text.len() > MOST_TEXT {
        return Err(TextError::Memory);
    }
    match parse_cond(alloc, text) {
        Ok(condition) => Ok(Edit::Guard(id, condition)),
        Err(ParseError::Memory) => Err(TextError::Memory),
        Err(error) => Err(TextError::Refused(text_refusal(alloc, error)?)),
    }
}

/// The edit that puts the procedure of a text before a procedure. Its statements are numbered from `next` on.
///
/// # Errors
///
/// As [`replace_of`], of a text of a procedure.
pub fn add_of(alloc: Global, before: Text, text: &[u8], next: u32) -> Result<Edit, TextError>
    requires low { next ≤ 1000001 }
    ensures made { IfOk result (λ e. (readings : Readings) →
        add_of readings next before text.now ≡ Ok e) }
    ensures refused { IfErr result (λ e. (readings : Readings) →
        IsTextError (add_of readings next before text.now) e) }
    ensures continues { IfOk result (λ e. Continues e next) }
{
    if text.len() > MOST_TEXT {
        return Err(TextError::Memory);
    }
    match parse_proc(alloc, text, next) {
        Ok((proc, _)) => Ok(Edit::AddProc { before, proc }),
        Err(ParseError::Memory) => Err(TextError::Memory),
        Err(error) => Err(TextError::Refused(text_refusal(alloc, error)?)),
    }
}

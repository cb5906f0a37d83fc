//! The five readings of a text.
ghost use Rattle.std.specs.Prelude.{◌≡◌, ℕ, ◌+◌, ◌^◌, ◌<◌, ◌≤◌, length, Ok, IfOk, IfErr};
ghost use Rattle.imp_parse.specs.Answer.{HasTree, IsFault, IsOnlyAnswer, HasOneAnswer};
ghost use Rattle.imp_parse.specs.Judged.{Gives, finished};
ghost use Rattle.imp_parse.specs.Kinds.{kinds};
ghost use Rattle.imp_parse.specs.Languages.{SimpleText, BodyText, ProcedureText, ConditionText, ProgramText};
ghost use Rattle.imp_parse.specs.Limits.{inside, outside};
ghost use Rattle.imp_parse.specs.ProgramReading.{procedure_at, program_at};
ghost use Rattle.imp_parse.specs.Reading.{condition_at};
ghost use Rattle.imp_parse.specs.StatementReading.{numbered_at, body_at};

use crate::condition::condition;
use crate::error::{ParseError, Stopped};
use crate::procedure::{procedure, program};
use crate::scanned::Scanned;
use crate::statement::{numbered, statements};
use imp_lex::{Token, each_text_has_one_answer as tokens_have_one_answer};
use imp_syntax::{Block, Cond, Proc, Program, Stmt};
use std::alloc::Global;

/// The value, where nothing is left.
fn finish<X: Drop>(value: X, rest: &[Token]) -> Result<X, Stopped>
    ensures is { Gives (λ x. x) result (finished (Ok (value, kinds rest.now))) }
{
    match rest {
        [] => Ok(value),
        _ => Err(Stopped::Unexpected(rest.len())),
    }
}

fn whole_program(alloc: Global, tokens: &[Token]) -> Result<Program, Stopped>
    requires room { length tokens.now + 1 < 2 ^ 32 }
    ensures read { Gives (λ x. x) result (finished (program_at (kinds tokens.now))) }
{
    let (program, rest) = program(alloc, tokens)?;
    finish(program, rest)
}

fn whole_procedure(alloc: Global, next: u32, tokens: &[Token]) -> Result<(Proc, u32), Stopped>
    requires room { next + length tokens.now < 2 ^ 32 }
    ensures read { Gives (λ x. x) result (finished (procedure_at next (kinds tokens.now))) }
{
    let (procedure, after, rest) = procedure(alloc, next, tokens)?;
    finish((procedure, after), rest)
}

fn whole_body(alloc: Global, next: u32, tokens: &[Token]) -> Result<(Block, u32), Stopped>
    requires room { next + length tokens.now < 2 ^ 32 }
    ensures read { Gives (λ x. x) result (finished (body_at next (kinds tokens.now))) }
{
    let (stmts, after, rest) = statements(alloc, next, tokens)?;
    let block = Block::new(alloc, stmts)?;
    finish((block, after), rest)
}

fn whole_simple(alloc: Global, next: u32, tokens: &[Token]) -> Result<(Stmt, u32), Stopped>
    requires room { next + length tokens.now < 2 ^ 32 }
    ensures read { Gives (λ x. x) result (finished (numbered_at next (kinds tokens.now))) }
{
    let (stmt, after, rest) = numbered(alloc, next, tokens)?;
    finish((stmt, after), rest)
}

fn whole_condition(alloc: Global, tokens: &[Token]) -> Result<Cond, Stopped>
    ensures read { Gives (λ x. x) result (finished (condition_at (kinds tokens.now))) }
{
    let (condition, rest) = condition(alloc, tokens)?;
    finish(condition, rest)
}

/// The program that a text is, its statements numbered from 1 in the order of the text.
///
/// # Errors
///
/// [`ParseError::Lex`] with the text's first lexical fault; else [`ParseError::Unexpected`] or
/// [`ParseError::TooDeep`], whichever token comes first, at one token `Unexpected`; and
/// [`ParseError::Memory`] when memory runs out.
pub fn parse_program(alloc: Global, text: &[u8]) -> Result<Program, ParseError>
    requires short { length text.now < 2 ^ 31 }
    ensures parsed { IfOk result (HasTree ProgramText outside text.now) }
    ensures faulty { IfErr result (IsFault ProgramText outside text.now) }
    ensures only { IsOnlyAnswer ProgramText outside text.now result }
{
    let scanned = Scanned::new(alloc, text, 0)?;
    scanned.judge(whole_program(alloc, scanned.readable()))
}

/// The procedure that a text is, its statements numbered from `next` on in the order of the text,
/// and the next number.
///
/// # Errors
///
/// As [`parse_program`].
pub fn parse_proc(alloc: Global, text: &[u8], next: u32) -> Result<(Proc, u32), ParseError>
    requires short { length text.now < 2 ^ 31 }
    requires low { next ≤ 1000001 }
    ensures parsed { IfOk result (HasTree (ProcedureText next) outside text.now) }
    ensures faulty { IfErr result (IsFault (ProcedureText next) outside text.now) }
    ensures only { IsOnlyAnswer (ProcedureText next) outside text.now result }
{
    let scanned = Scanned::new(alloc, text, 0)?;
    scanned.judge(whole_procedure(alloc, next, scanned.readable()))
}

/// The statements that a text is, as a block, numbered from `next` on in the order of the text,
/// and the next number. The text may have no token.
///
/// # Errors
///
/// As [`parse_program`].
pub fn parse_stmts(alloc: Global, text: &[u8], next: u32) -> Result<(Block, u32), ParseError>
    requires short { length text.now < 2 ^ 31 }
    requires low { next ≤ 1000001 }
    ensures parsed { IfOk result (HasTree (BodyText next) inside text.now) }
    ensures faulty { IfErr result (IsFault (BodyText next) inside text.now) }
    ensures only { IsOnlyAnswer (BodyText next) inside text.now result }
{
    let scanned = Scanned::new(alloc, text, 1)?;
    scanned.judge(whole_body(alloc, next, scanned.readable()))
}

/// The simple statement that a text is, with the number `next`, and the next number.
///
/// # Errors
///
/// As [`parse_program`].
pub fn parse_simple(alloc: Global, text: &[u8], next: u32) -> Result<(Stmt, u32), ParseError>
    requires short { length text.now < 2 ^ 31 }
    requires low { next ≤ 1000001 }
    ensures parsed { IfOk result (HasTree (SimpleText next) inside text.now) }
    ensures faulty { IfErr result (IsFault (SimpleText next) inside text.now) }
    ensures only { IsOnlyAnswer (SimpleText next) inside text.now result }
{
    let scanned = Scanned::new(alloc, text, 1)?;
    scanned.judge(whole_simple(alloc, next, scanned.readable()))
}

/// The condition that a text is.
///
/// # Errors
///
/// As [`parse_program`].
pub fn parse_cond(alloc: Global, text: &[u8]) -> Result<Cond, ParseError>
    requires short { length text.now < 2 ^ 31 }
    ensures parsed { IfOk result (HasTree ConditionText inside text.now) }
    ensures faulty { IfErr result (IsFault ConditionText inside text.now) }
    ensures only { IsOnlyAnswer ConditionText inside text.now result }
{
    let scanned = Scanned::new(alloc, text, 1)?;
    scanned.judge(whole_condition(alloc, scanned.readable()))
}

/// A text has its tree or a fault, one answer and no other, for each of the five readings.
pub fn each_text_has_one_answer()
    ensures program { HasOneAnswer ProgramText outside }
    ensures procedure { (n : ℕ) → HasOneAnswer (ProcedureText n) outside }
    ensures body { (n : ℕ) → HasOneAnswer (BodyText n) inside }
    ensures simple { (n : ℕ) → HasOneAnswer (SimpleText n) inside }
    ensures condition { HasOneAnswer ConditionText inside }
{
    tokens_have_one_answer();
}

//! Reading procedures and programs, for `parsed`, `faulty` and `only` of `parse_proc` and `parse_program`.
ghost use Rattle.std.specs.Prelude.{◌≡◌, [], ◌∷◌, ◌+◌, ◌^◌, ◌<◌, ◌≤◌, length, IfOk};
ghost use Rattle.imp_parse.specs.Kinds.{kinds};
ghost use Rattle.imp_parse.specs.Judged.{Gives};
ghost use Rattle.imp_parse.specs.Lists.{begun, with_front};
ghost use Rattle.imp_parse.specs.Reader.{fix};
ghost use Rattle.imp_syntax.specs.Plain.{block_of};
ghost use Rattle.imp_parse.specs.Parts.{behind_locals_at, behind_head_at, behind_parenthesis_at};
ghost use Rattle.imp_parse.specs.Commas.{next_by, commas_step, commas_at, some_listed_at};
ghost use Rattle.imp_parse.specs.ProgramReading.{declaration_at, parameters_at, outcome_at, begins_local, local_by, locals_step, locals_at, procedure_behind, procedure_at, begins_procedure, procedures_at, program_at};

use crate::call::begins_with_comma;
use crate::error::Stopped;
use crate::marks::{front, mark, name, variable_kind};
use crate::statement::statements;
use base_values::{Items, Memory, Text};
use imp_lex::{Mark, Token, TokenKind, Word};
use imp_syntax::{Block, Declaration, Proc, Program, Stmt};
use std::alloc::Global;

/// A name and its kind, and the tokens after them.
#[tactic(auto, unfolding(crate::specs::ProgramReading::declaration_at))]
fn declaration(tokens: &[Token]) -> Result<(Declaration, &[Token]), Stopped>
    ensures read { Gives (λ x. (x.0, kinds x.1.now)) result (declaration_at (kinds tokens.now)) }
    ensures shorter { IfOk result (λ x. length x.1.now < length tokens.now) }
{
    let (name, rest) = name(tokens)?;
    let rest = mark(Mark::Colon, rest)?;
    let (kind, rest) = variable_kind(rest)?;
    Ok((Declaration { name, kind }, rest))
}

fn next_declaration(tokens: &[Token]) -> Result<(Declaration, &[Token]), Stopped>
    ensures read { Gives (λ x. ((x.0, tt), kinds x.1.now)) result
        (next_by declaration_at (fix (commas_step declaration_at)) tt (kinds tokens.now)) }
    ensures shorter { IfOk result (λ x. length x.1.now < length tokens.now) }
{
    let rest = mark(Mark::Comma, tokens)?;
    declaration(rest)
}

/// The first declaration and those after commas, and the tokens after them.
fn declarations(
    alloc: Global,
    first: Declaration,
    tokens: &[Token],
) -> Result<(Items<Declaration>, &[Token]), Stopped>
    ensures read { Gives (λ x. ((x.0, tt), kinds x.1.now)) result
        (with_front (first ∷ []) (commas_at declaration_at (kinds tokens.now))) }
    ensures shorter { IfOk result (λ x. length x.1.now ≤ length tokens.now) }
{
    let mut found = Items::new(alloc);
    found.push(first)?;
    let mut rest = tokens;
    'each: while begins_with_comma(rest) {
        let (one, left) = next_declaration(rest)?;
        found.push(one)?;
        rest = left;
    }
    Ok((found, rest))
}

fn some_parameters(
    alloc: Global,
    tokens: &[Token],
) -> Result<(Items<Declaration>, &[Token]), Stopped>
    ensures read { Gives (λ x. (x.0, kinds x.1.now)) result
        (some_listed_at declaration_at (kinds tokens.now)) }
    ensures shorter { IfOk result (λ x. length x.1.now < length tokens.now) }
{
    let (first, rest) = declaration(tokens)?;
    let (all, rest) = declarations(alloc, first, rest)?;
    let rest = mark(Mark::CloseParenthesis, rest)?;
    Ok((all, rest))
}

/// The parameters up to `)`, and the tokens after it.
fn parameters(alloc: Global, tokens: &[Token]) -> Result<(Items<Declaration>, &[Token]), Stopped>
    ensures read { Gives (λ x. (x.0, kinds x.1.now)) result (parameters_at (kinds tokens.now)) }
    ensures shorter { IfOk result (λ x. length x.1.now < length tokens.now) }
{
    match front(tokens) {
        Some((TokenKind::Mark(Mark::CloseParenthesis), rest)) => Ok((Items::new(alloc), rest)),
        _ => some_parameters(alloc, tokens),
    }
}

/// The result after `->`, if there is one, and the tokens after it.
#[tactic(auto, unfolding(crate::specs::ProgramReading::outcome_at))]
fn outcome(tokens: &[Token]) -> Result<(Option<Declaration>, &[Token]), Stopped>
    ensures read { Gives (λ x. (x.0, kinds x.1.now)) result (outcome_at (kinds tokens.now)) }
    ensures shorter { IfOk result (λ x. length x.1.now ≤ length tokens.now) }
{
    match front(tokens) {
        Some((TokenKind::Mark(Mark::Arrow), rest)) => {
            let (outcome, rest) = declaration(rest)?;
            Ok((Some(outcome), rest))
        }
        _ => Ok((None, tokens)),
    }
}

/// Whether `var` is the first token.
fn begins_local(tokens: &[Token]) -> bool
    ensures is { result ≡ begun begins_local (kinds tokens.now) }
{
    matches!(front(tokens), Some((TokenKind::Word(Word::Var), _)))
}

/// A local variable from `var` on, and the tokens after it.
fn local(tokens: &[Token]) -> Result<(Declaration, &[Token]), Stopped>
    ensures read { Gives (λ x. ((x.0, tt), kinds x.1.now)) result
        (local_by (fix locals_step) tt (kinds tokens.now)) }
    ensures shorter { IfOk result (λ x. length x.1.now < length tokens.now) }
{
    match front(tokens) {
        Some((TokenKind::Word(Word::Var), rest)) => {
            let (declaration, rest) = declaration(rest)?;
            let rest = mark(Mark::Semicolon, rest)?;
            Ok((declaration, rest))
        }
        _ => Err(Stopped::Unexpected(tokens.len())),
    }
}

/// Local variables, and the tokens after them.
fn locals(alloc: Global, tokens: &[Token]) -> Result<(Items<Declaration>, &[Token]), Stopped>
    ensures read { Gives (λ x. ((x.0, tt), kinds x.1.now)) result (locals_at (kinds tokens.now)) }
    ensures shorter { IfOk result (λ x. length x.1.now ≤ length tokens.now) }
{
    let mut found = Items::new(alloc);
    let mut rest = tokens;
    'each: while begins_local(rest) {
        let (one, left) = local(rest)?;
        found.push(one)?;
        rest = left;
    }
    Ok((found, rest))
}

/// What heads a procedure.
#[derive(Drop)]
struct Signature {
    name: Text,
    parameters: Items<Declaration>,
    outcome: Option<Declaration>,
}

/// The procedure of these parts.
fn assembled(
    alloc: Global,
    head: Signature,
    locals: Items<Declaration>,
    stmts: Items<Stmt>,
) -> Result<Proc, Memory>
    ensures is { IfOk result (λ p. p ≡ record {
      name = head.name;
      parameters = head.parameters;
      outcome = head.outcome;
      locals = locals;
      body = block_of stmts;
    }) }
{
    let body = Block::new(alloc, stmts)?;
    Proc::new(
        alloc,
        head.name,
        head.parameters,
        head.outcome,
        locals,
        body,
    )
}

/// A procedure after its locals.
fn behind_locals(
    alloc: Global,
    number: u32,
    head: Signature,
    locals: Items<Declaration>,
    tokens: &[Token],
) -> Result<(Proc, u32, &[Token]), Stopped>
    requires room { number + length tokens.now < 2 ^ 32 }
    ensures read { Gives (λ x. ((x.0, x.1), kinds x.2.now)) result
        (behind_locals_at number head.name head.parameters head.outcome locals
        (kinds tokens.now)) }
    ensures shorter { IfOk result (λ x. length x.2.now < length tokens.now) }
    ensures numbers { IfOk result (λ x. x.1 + length x.2.now ≤ number + length tokens.now) }
{
    let (stmts, next, rest) = statements(alloc, number, tokens)?;
    let rest = mark(Mark::CloseBrace, rest)?;
    let procedure = assembled(alloc, head, locals, stmts)?;
    Ok((procedure, next, rest))
}

/// A procedure after its outcome.
fn behind_head(
    alloc: Global,
    number: u32,
    head: Signature,
    tokens: &[Token],
) -> Result<(Proc, u32, &[Token]), Stopped>
    requires room { number + length tokens.now < 2 ^ 32 }
    ensures read { Gives (λ x. ((x.0, x.1), kinds x.2.now)) result
        (behind_head_at number head.name head.parameters head.outcome (kinds tokens.now)) }
    ensures shorter { IfOk result (λ x. length x.2.now < length tokens.now) }
    ensures numbers { IfOk result (λ x. x.1 + length x.2.now ≤ number + length tokens.now) }
{
    let rest = mark(Mark::OpenBrace, tokens)?;
    let (locals, rest) = locals(alloc, rest)?;
    behind_locals(alloc, number, head, locals, rest)
}

/// A procedure after its name and the parenthesis there.
fn behind_parenthesis(
    alloc: Global,
    number: u32,
    name: Text,
    tokens: &[Token],
) -> Result<(Proc, u32, &[Token]), Stopped>
    requires room { number + length tokens.now < 2 ^ 32 }
    ensures read { Gives (λ x. ((x.0, x.1), kinds x.2.now)) result
        (behind_parenthesis_at number name (kinds tokens.now)) }
    ensures shorter { IfOk result (λ x. length x.2.now < length tokens.now) }
    ensures numbers { IfOk result (λ x. x.1 + length x.2.now ≤ number + length tokens.now) }
{
    let (parameters, rest) = parameters(alloc, tokens)?;
    let (outcome, rest) = outcome(rest)?;
    let head = Signature {
        name,
        parameters,
        outcome,
    };
    behind_head(alloc, number, head, rest)
}

/// A procedure after its first word.
fn procedure_behind_word(
    alloc: Global,
    number: u32,
    tokens: &[Token],
) -> Result<(Proc, u32, &[Token]), Stopped>
    requires room { number + length tokens.now < 2 ^ 32 }
    ensures read { Gives (λ x. ((x.0, x.1), kinds x.2.now)) result
        (procedure_behind number (kinds tokens.now)) }
    ensures shorter { IfOk result (λ x. length x.2.now < length tokens.now) }
    ensures numbers { IfOk result (λ x. x.1 + length x.2.now ≤ number + length tokens.now) }
{
    let (name, rest) = name(tokens)?;
    let rest = mark(Mark::OpenParenthesis, rest)?;
    behind_parenthesis(alloc, number, name, rest)
}

/// A procedure whose statements are numbered from here, the next number, and the tokens after it.
#[tactic(auto, unfolding(crate::specs::ProgramReading::procedure_at))]
pub(crate) fn procedure(
    alloc: Global,
    number: u32,
    tokens: &[Token],
) -> Result<(Proc, u32, &[Token]), Stopped>
    requires room { number + length tokens.now < 2 ^ 32 }
    ensures read { Gives (λ x. ((x.0, x.1), kinds x.2.now)) result
        (procedure_at number (kinds tokens.now)) }
    ensures shorter { IfOk result (λ x. length x.2.now < length tokens.now) }
    ensures numbers { IfOk result (λ x. x.1 + length x.2.now ≤ number + length tokens.now) }
{
    match front(tokens) {
        Some((TokenKind::Word(Word::Proc), rest)) => procedure_behind_word(alloc, number, rest),
        _ => Err(Stopped::Unexpected(tokens.len())),
    }
}

/// Whether `proc` is the first token.
fn begins_procedure(tokens: &[Token]) -> bool
    ensures is { result ≡ begun begins_procedure (kinds tokens.now) }
{
    matches!(front(tokens), Some((TokenKind::Word(Word::Proc), _)))
}

/// The first procedure and those after it, the next number, and the tokens after them.
fn procedures(
    alloc: Global,
    first: Proc,
    number: u32,
    tokens: &[Token],
) -> Result<(Items<Proc>, u32, &[Token]), Stopped>
    requires room { number + length tokens.now < 2 ^ 32 }
    ensures read { Gives (λ x. ((x.0, x.1), kinds x.2.now)) result
        (with_front (first ∷ []) (procedures_at number (kinds tokens.now))) }
{
    let mut found = Items::new(alloc);
    found.push(first)?;
    let mut next = number;
    let mut rest = tokens;
    'each: while begins_procedure(rest) {
        let (one, after, left) = procedure(alloc, next, rest)?;
        found.push(one)?;
        next = after;
        rest = left;
    }
    Ok((found, next, rest))
}

/// A program, numbered from 1, and the tokens after it.
#[tactic(auto, unfolding(crate::specs::ProgramReading::program_at))]
pub(crate) fn program(alloc: Global, tokens: &[Token]) -> Result<(Program, &[Token]), Stopped>
    requires room { length tokens.now + 1 < 2 ^ 32 }
    ensures read { Gives (λ x. (x.0, kinds x.1.now)) result (program_at (kinds tokens.now)) }
{
    let (first, next, rest) = procedure(alloc, 1, tokens)?;
    let (all, _, rest) = procedures(alloc, first, next, rest)?;
    let program = Program::new(alloc, all)?;
    Ok((program, rest))
}

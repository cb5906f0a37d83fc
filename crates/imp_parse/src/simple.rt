//! Reading simple statements, for `parsed`, `faulty` and `only` of `parse_simple`.
ghost use Rattle.std.specs.Prelude.{◌≡◌, ◌<◌, length, IfOk};
ghost use Rattle.imp_parse.specs.Kinds.{kinds};
ghost use Rattle.imp_parse.specs.Judged.{Gives};
ghost use Rattle.imp_parse.specs.Parts.{write_next_at, write_item_at, write_element_at, assignment_at, assertion_at, plain_call_at};
ghost use Rattle.imp_parse.specs.StatementReading.{field_at, element_at, named_at, simple_at};

use crate::assigned::{made, of_action, rhs};
use crate::call::invoke;
use crate::condition::condition;
use crate::error::Stopped;
use crate::expression::expression;
use crate::marks::{front, mark, name};
use base_values::Text;
use imp_lex::{Mark, Token, TokenKind, Word};
use imp_syntax::{Action, Call, Expr, Stmt, StmtNode};
use std::alloc::Global;

/// What is assigned to the `next` of this variable.
fn write_next(
    alloc: Global,
    number: u32,
    link: Text,
    tokens: &[Token],
) -> Result<(Stmt, &[Token]), Stopped>
    ensures read { Gives (λ x. (x.0, kinds x.1.now)) result
        (write_next_at number link (kinds tokens.now)) }
    ensures shorter { IfOk result (λ x. length x.1.now < length tokens.now) }
{
    let rest = mark(Mark::Equals, tokens)?;
    let (target, rest) = name(rest)?;
    let rest = mark(Mark::Semicolon, rest)?;
    of_action(alloc, number, Action::WriteNext(link, target), rest)
}

/// What is assigned to the `item` of this variable.
fn write_item(
    alloc: Global,
    number: u32,
    link: Text,
    tokens: &[Token],
) -> Result<(Stmt, &[Token]), Stopped>
    ensures read { Gives (λ x. (x.0, kinds x.1.now)) result
        (write_item_at number link (kinds tokens.now)) }
    ensures shorter { IfOk result (λ x. length x.1.now < length tokens.now) }
{
    let rest = mark(Mark::Equals, tokens)?;
    let (value, rest) = expression(alloc, rest)?;
    let rest = mark(Mark::Semicolon, rest)?;
    of_action(alloc, number, Action::WriteItem(link, value), rest)
}

/// `next` or `item` and what is assigned to it, after a name and a dot.
fn field(
    alloc: Global,
    number: u32,
    link: Text,
    tokens: &[Token],
) -> Result<(Stmt, &[Token]), Stopped>
    ensures read { Gives (λ x. (x.0, kinds x.1.now)) result
        (field_at number link (kinds tokens.now)) }
    ensures shorter { IfOk result (λ x. length x.1.now < length tokens.now) }
{
    match front(tokens) {
        Some((TokenKind::Word(Word::Next), rest)) => write_next(alloc, number, link, rest),
        Some((TokenKind::Word(Word::Item), rest)) => write_item(alloc, number, link, rest),
        _ => Err(Stopped::Unexpected(tokens.len())),
    }
}

/// What is assigned to an element of this array, after its index.
fn write_element(
    alloc: Global,
    number: u32,
    array: Text,
    index: Expr,
    tokens: &[Token],
) -> Result<(Stmt, &[Token]), Stopped>
    ensures read { Gives (λ x. (x.0, kinds x.1.now)) result
        (write_element_at number array index (kinds tokens.now)) }
    ensures shorter { IfOk result (λ x. length x.1.now < length tokens.now) }
{
    let rest = mark(Mark::Equals, tokens)?;
    let (value, rest) = expression(alloc, rest)?;
    let rest = mark(Mark::Semicolon, rest)?;
    of_action(
        alloc,
        number,
        Action::WriteElement(array, index, value),
        rest,
    )
}

/// An index and what is assigned to the element, after a name and a bracket.
fn element(
    alloc: Global,
    number: u32,
    array: Text,
    tokens: &[Token],
) -> Result<(Stmt, &[Token]), Stopped>
    ensures read { Gives (λ x. (x.0, kinds x.1.now)) result
        (element_at number array (kinds tokens.now)) }
    ensures shorter { IfOk result (λ x. length x.1.now < length tokens.now) }
{
    let (index, rest) = expression(alloc, tokens)?;
    let rest = mark(Mark::CloseBracket, rest)?;
    write_element(alloc, number, array, index, rest)
}

/// What is assigned to this variable, after `=`.
fn assignment(
    alloc: Global,
    number: u32,
    target: Text,
    tokens: &[Token],
) -> Result<(Stmt, &[Token]), Stopped>
    ensures read { Gives (λ x. (x.0, kinds x.1.now)) result
        (assignment_at number target (kinds tokens.now)) }
    ensures shorter { IfOk result (λ x. length x.1.now < length tokens.now) }
{
    let (stmt, rest) = rhs(alloc, number, target, tokens)?;
    let rest = mark(Mark::Semicolon, rest)?;
    Ok((stmt, rest))
}

/// What goes on after a name that begins a statement.
#[tactic(auto, unfolding(crate::specs::StatementReading::named_at))]
fn named(
    alloc: Global,
    number: u32,
    target: Text,
    tokens: &[Token],
) -> Result<(Stmt, &[Token]), Stopped>
    ensures read { Gives (λ x. (x.0, kinds x.1.now)) result
        (named_at number target (kinds tokens.now)) }
    ensures shorter { IfOk result (λ x. length x.1.now < length tokens.now) }
{
    match front(tokens) {
        Some((TokenKind::Mark(Mark::Equals), rest)) => assignment(alloc, number, target, rest),
        Some((TokenKind::Mark(Mark::OpenBracket), rest)) => element(alloc, number, target, rest),
        Some((TokenKind::Mark(Mark::Dot), rest)) => field(alloc, number, target, rest),
        _ => Err(Stopped::Unexpected(tokens.len())),
    }
}

/// What is asserted, after the word.
fn assertion(alloc: Global, number: u32, tokens: &[Token]) -> Result<(Stmt, &[Token]), Stopped>
    ensures read { Gives (λ x. (x.0, kinds x.1.now)) result
        (assertion_at number (kinds tokens.now)) }
    ensures shorter { IfOk result (λ x. length x.1.now < length tokens.now) }
{
    let (claim, rest) = condition(alloc, tokens)?;
    let rest = mark(Mark::Semicolon, rest)?;
    of_action(alloc, number, Action::Assert(claim), rest)
}

/// A call whose result is not assigned, after its first word.
fn plain_call(alloc: Global, number: u32, tokens: &[Token]) -> Result<(Stmt, &[Token]), Stopped>
    ensures read { Gives (λ x. (x.0, kinds x.1.now)) result
        (plain_call_at number (kinds tokens.now)) }
    ensures shorter { IfOk result (λ x. length x.1.now < length tokens.now) }
{
    let (callee, arguments, rest) = invoke(alloc, tokens)?;
    let rest = mark(Mark::Semicolon, rest)?;
    let call = Call {
        target: None,
        callee,
        arguments,
    };
    made(alloc, number, StmtNode::Call(call), rest)
}

/// A simple statement of this number, and the tokens after it.
#[tactic(auto, unfolding(crate::specs::StatementReading::simple_at))]
pub(crate) fn simple(
    alloc: Global,
    number: u32,
    tokens: &[Token],
) -> Result<(Stmt, &[Token]), Stopped>
    ensures read { Gives (λ x. (x.0, kinds x.1.now)) result (simple_at number (kinds tokens.now)) }
    ensures shorter { IfOk result (λ x. length x.1.now < length tokens.now) }
{
    match front(tokens) {
        Some((TokenKind::Word(Word::Skip), rest)) => {
            let rest = mark(Mark::Semicolon, rest)?;
            of_action(alloc, number, Action::Skip, rest)
        }
        Some((TokenKind::Word(Word::Break), rest)) => {
            let rest = mark(Mark::Semicolon, rest)?;
            made(alloc, number, StmtNode::Break, rest)
        }
        Some((TokenKind::Word(Word::Assert), rest)) => assertion(alloc, number, rest),
        Some((TokenKind::Word(Word::Call), rest)) => plain_call(alloc, number, rest),
        Some((TokenKind::Name(target), rest)) => {
            let target = target.clone()?;
            named(alloc, number, target, rest)
        }
        _ => Err(Stopped::Unexpected(tokens.len())),
    }
}

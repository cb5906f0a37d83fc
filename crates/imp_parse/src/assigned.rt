//! Reading what is assigned to a variable, for `parsed`, `faulty` and `only` of `parse_simple`.
ghost use Rattle.std.specs.Prelude.{◌≡◌, ◌<◌, ◌≤◌, length, IfOk};
ghost use Rattle.imp_syntax.specs.Plain.{Simple};
ghost use Rattle.imp_syntax.specs.ActionViews.{action_of};
ghost use Rattle.imp_syntax.specs.StmtViews.{statement_of};
ghost use Rattle.imp_parse.specs.Kinds.{kinds};
ghost use Rattle.imp_parse.specs.Judged.{Gives};
ghost use Rattle.imp_parse.specs.Parts.{made_at, element_rhs_at, array_rhs_at, call_rhs_at};
ghost use Rattle.imp_parse.specs.StatementReading.{value_rhs_at, variable_rhs_at, field_rhs_at, named_rhs_at, rhs_at};

use crate::call::invoke;
use crate::error::Stopped;
use crate::expression::{expression, product_tail, sum_tail};
use crate::marks::{front, mark};
use base_values::Text;
use imp_lex::{Mark, Token, TokenKind, Word};
use imp_syntax::{Action, Call, Expr, ExprNode, Stmt, StmtId, StmtNode};
use std::alloc::Global;

/// The statement of this number and outermost part, and the tokens after it.
pub(crate) fn made(
    alloc: Global,
    number: u32,
    node: StmtNode,
    rest: &[Token],
) -> Result<(Stmt, &[Token]), Stopped>
    ensures read { Gives (λ x. (x.0, kinds x.1.now)) result
        (made_at (statement_of number node) (kinds rest.now)) }
    ensures shorter { IfOk result (λ x. length x.1.now ≤ length rest.now) }
{
    let stmt = Stmt::new(alloc, StmtId::new(number), node)?;
    Ok((stmt, rest))
}

/// The action as a statement of this number, and the tokens after it.
pub(crate) fn of_action(
    alloc: Global,
    number: u32,
    action: Action,
    rest: &[Token],
) -> Result<(Stmt, &[Token]), Stopped>
    ensures read { Gives (λ x. (x.0, kinds x.1.now)) result
        (made_at (Simple number (action_of action)) (kinds rest.now)) }
    ensures shorter { IfOk result (λ x. length x.1.now ≤ length rest.now) }
{
    made(alloc, number, StmtNode::Simple(action), rest)
}

fn value_rhs(
    alloc: Global,
    number: u32,
    target: Text,
    tokens: &[Token],
) -> Result<(Stmt, &[Token]), Stopped>
    ensures read { Gives (λ x. (x.0, kinds x.1.now)) result
        (value_rhs_at number target (kinds tokens.now)) }
    ensures shorter { IfOk result (λ x. length x.1.now < length tokens.now) }
{
    let (value, rest) = expression(alloc, tokens)?;
    of_action(alloc, number, Action::Assign(target, value), rest)
}

/// An expression that begins with this variable, after it.
fn variable_rhs(
    alloc: Global,
    number: u32,
    target: Text,
    variable: Text,
    tokens: &[Token],
) -> Result<(Stmt, &[Token]), Stopped>
    ensures read { Gives (λ x. (x.0, kinds x.1.now)) result
        (variable_rhs_at number target variable (kinds tokens.now)) }
    ensures shorter { IfOk result (λ x. length x.1.now ≤ length tokens.now) }
{
    let variable = Expr::new(alloc, ExprNode::Variable(variable))?;
    let (product, rest) = product_tail(alloc, variable, tokens)?;
    let (value, rest) = sum_tail(alloc, product, rest)?;
    of_action(alloc, number, Action::Assign(target, value), rest)
}

/// `next` or `item`, after a name and a dot.
fn field_rhs(
    alloc: Global,
    number: u32,
    target: Text,
    link: Text,
    tokens: &[Token],
) -> Result<(Stmt, &[Token]), Stopped>
    ensures read { Gives (λ x. (x.0, kinds x.1.now)) result
        (field_rhs_at number target link (kinds tokens.now)) }
    ensures shorter { IfOk result (λ x. length x.1.now < length tokens.now) }
{
    match front(tokens) {
        Some((TokenKind::Word(Word::Next), rest)) => {
            of_action(alloc, number, Action::ReadNext(target, link), rest)
        }
        Some((TokenKind::Word(Word::Item), rest)) => {
            of_action(alloc, number, Action::ReadItem(target, link), rest)
        }
        _ => Err(Stopped::Unexpected(tokens.len())),
    }
}

/// The index of an element that is read, after its bracket.
fn element_rhs(
    alloc: Global,
    number: u32,
    target: Text,
    array: Text,
    tokens: &[Token],
) -> Result<(Stmt, &[Token]), Stopped>
    ensures read { Gives (λ x. (x.0, kinds x.1.now)) result
        (element_rhs_at number target array (kinds tokens.now)) }
    ensures shorter { IfOk result (λ x. length x.1.now < length tokens.now) }
{
    let (index, rest) = expression(alloc, tokens)?;
    let rest = mark(Mark::CloseBracket, rest)?;
    of_action(
        alloc,
        number,
        Action::ReadElement(target, array, index),
        rest,
    )
}

/// What goes on after a name.
#[tactic(auto, unfolding(crate::specs::StatementReading::named_rhs_at))]
fn named_rhs(
    alloc: Global,
    number: u32,
    target: Text,
    source: Text,
    tokens: &[Token],
) -> Result<(Stmt, &[Token]), Stopped>
    ensures read { Gives (λ x. (x.0, kinds x.1.now)) result
        (named_rhs_at number target source (kinds tokens.now)) }
    ensures shorter { IfOk result (λ x. length x.1.now ≤ length tokens.now) }
{
    match front(tokens) {
        Some((TokenKind::Mark(Mark::Dot), rest)) => field_rhs(alloc, number, target, source, rest),
        Some((TokenKind::Mark(Mark::OpenBracket), rest)) => {
            element_rhs(alloc, number, target, source, rest)
        }
        _ => variable_rhs(alloc, number, target, source, tokens),
    }
}

/// The length of a new array.
fn array_rhs(
    alloc: Global,
    number: u32,
    target: Text,
    tokens: &[Token],
) -> Result<(Stmt, &[Token]), Stopped>
    ensures read { Gives (λ x. (x.0, kinds x.1.now)) result
        (array_rhs_at number target (kinds tokens.now)) }
    ensures shorter { IfOk result (λ x. length x.1.now < length tokens.now) }
{
    let (length, rest) = expression(alloc, tokens)?;
    of_action(alloc, number, Action::MakeArray(target, length), rest)
}

/// A call whose result is assigned, after its first word.
fn call_rhs(
    alloc: Global,
    number: u32,
    target: Text,
    tokens: &[Token],
) -> Result<(Stmt, &[Token]), Stopped>
    ensures read { Gives (λ x. (x.0, kinds x.1.now)) result
        (call_rhs_at number target (kinds tokens.now)) }
    ensures shorter { IfOk result (λ x. length x.1.now < length tokens.now) }
{
    let (callee, arguments, rest) = invoke(alloc, tokens)?;
    let call = Call {
        target: Some(target),
        callee,
        arguments,
    };
    made(alloc, number, StmtNode::Call(call), rest)
}

/// What is assigned to the target, as a statement of this number, and the tokens after it.
#[tactic(auto, unfolding(crate::specs::StatementReading::rhs_at))]
pub(crate) fn rhs(
    alloc: Global,
    number: u32,
    target: Text,
    tokens: &[Token],
) -> Result<(Stmt, &[Token]), Stopped>
    ensures read { Gives (λ x. (x.0, kinds x.1.now)) result
        (rhs_at number target (kinds tokens.now)) }
    ensures shorter { IfOk result (λ x. length x.1.now < length tokens.now) }
{
    match front(tokens) {
        Some((TokenKind::Word(Word::Input), rest)) => {
            of_action(alloc, number, Action::Input(target), rest)
        }
        Some((TokenKind::Word(Word::Array), rest)) => array_rhs(alloc, number, target, rest),
        Some((TokenKind::Word(Word::Null), rest)) => {
            of_action(alloc, number, Action::SetNull(target), rest)
        }
        Some((TokenKind::Word(Word::New), rest)) => {
            of_action(alloc, number, Action::MakeCell(target), rest)
        }
        Some((TokenKind::Word(Word::Call), rest)) => call_rhs(alloc, number, target, rest),
        Some((TokenKind::Name(source), rest)) => {
            let source = source.clone()?;
            named_rhs(alloc, number, target, source, rest)
        }
        _ => value_rhs(alloc, number, target, tokens),
    }
}

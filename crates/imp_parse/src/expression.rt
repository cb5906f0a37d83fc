//! Reading expressions, sums of products of factors, for `parsed`, `faulty` and `only` of `parse_cond`.
ghost use Rattle.std.specs.Prelude.{◌≡◌, ◌<◌, ◌≤◌, length, IfOk};
ghost use Rattle.imp_lex.specs.declared.token.Mark.TheVariants as m;
ghost use Rattle.imp_syntax.specs.Views.{expression_of};
ghost use Rattle.imp_parse.specs.Kinds.{kinds};
ghost use Rattle.imp_parse.specs.Parts.{made_at, closed_at, variable_at, length_at};
ghost use Rattle.imp_parse.specs.Judged.{Gives};
ghost use Rattle.imp_parse.specs.Reading.{expression_at, term_at, factor_at, product_at, sum_at};
ghost use Rattle.imp_parse.specs.Tables.{additive, multiplicative};

use crate::error::Stopped;
use crate::marks::{front, mark, name};
use imp_lex::{Mark, Token, TokenKind, Word};
use imp_syntax::{Expr, ExprNode, Operator};
use std::alloc::Global;

/// The expression with this outermost part, and the tokens after it.
fn made(alloc: Global, node: ExprNode, rest: &[Token]) -> Result<(Expr, &[Token]), Stopped>
    ensures read { Gives (λ x. (x.0, kinds x.1.now)) result
        (made_at (expression_of node) (kinds rest.now)) }
    ensures shorter { IfOk result (λ x. length x.1.now ≤ length rest.now) }
{
    let value = Expr::new(alloc, node)?;
    Ok((value, rest))
}

/// An expression that a parenthesis closes.
fn closed(inner: Expr, tokens: &[Token]) -> Result<(Expr, &[Token]), Stopped>
    ensures read { Gives (λ x. (x.0, kinds x.1.now)) result
        (closed_at m.CloseParenthesis inner (kinds tokens.now)) }
    ensures shorter { IfOk result (λ x. length x.1.now < length tokens.now) }
{
    let rest = mark(Mark::CloseParenthesis, tokens)?;
    Ok((inner, rest))
}

/// A variable.
fn variable(alloc: Global, tokens: &[Token]) -> Result<(Expr, &[Token]), Stopped>
    ensures read { Gives (λ x. (x.0, kinds x.1.now)) result (variable_at (kinds tokens.now)) }
    ensures shorter { IfOk result (λ x. length x.1.now < length tokens.now) }
{
    let (variable, rest) = name(tokens)?;
    made(alloc, ExprNode::Variable(variable), rest)
}

/// The array whose length is meant.
fn measured(alloc: Global, tokens: &[Token]) -> Result<(Expr, &[Token]), Stopped>
    ensures read { Gives (λ x. (x.0, kinds x.1.now)) result (length_at (kinds tokens.now)) }
    ensures shorter { IfOk result (λ x. length x.1.now < length tokens.now) }
{
    let (array, rest) = name(tokens)?;
    made(alloc, ExprNode::Length(array), rest)
}

/// An expression, and the tokens after it.
#[cycle(expression)]
#[tactic(auto, using(crate::proofs::Expressions::expression_eq))]
pub(crate) fn expression(alloc: Global, tokens: &[Token]) -> Result<(Expr, &[Token]), Stopped>
    ensures read { Gives (λ x. (x.0, kinds x.1.now)) result (expression_at (kinds tokens.now)) }
    ensures shorter { IfOk result (λ x. length x.1.now < length tokens.now) }
{
    let (left, rest) = term(alloc, tokens)?;
    sum_tail(alloc, left, rest)
}

/// What stands after terms that make `left`.
#[cycle(expression)]
#[tactic(auto, using(crate::proofs::Expressions::sum_eq))]
pub(crate) fn sum_tail(
    alloc: Global,
    left: Expr,
    tokens: &[Token],
) -> Result<(Expr, &[Token]), Stopped>
    ensures read { Gives (λ x. (x.0, kinds x.1.now)) result (sum_at left (kinds tokens.now)) }
    ensures shorter { IfOk result (λ x. length x.1.now ≤ length tokens.now) }
{
    let Some((kind, rest)) = front(tokens) else {
        return Ok((left, tokens));
    };
    let Some(operator) = additive(kind) else {
        return Ok((left, tokens));
    };
    let (right, rest) = term(alloc, rest)?;
    let sum = Expr::new(alloc, ExprNode::Binary(operator, left, right))?;
    sum_tail(alloc, sum, rest)
}

#[cycle(expression)]
fn term(alloc: Global, tokens: &[Token]) -> Result<(Expr, &[Token]), Stopped>
    ensures read { Gives (λ x. (x.0, kinds x.1.now)) result (term_at (kinds tokens.now)) }
    ensures shorter { IfOk result (λ x. length x.1.now < length tokens.now) }
{
    let (left, rest) = factor(alloc, tokens)?;
    product_tail(alloc, left, rest)
}

/// What stands after factors that make `left`.
#[cycle(expression)]
#[tactic(auto, using(crate::proofs::Expressions::product_eq))]
pub(crate) fn product_tail(
    alloc: Global,
    left: Expr,
    tokens: &[Token],
) -> Result<(Expr, &[Token]), Stopped>
    ensures read { Gives (λ x. (x.0, kinds x.1.now)) result (product_at left (kinds tokens.now)) }
    ensures shorter { IfOk result (λ x. length x.1.now ≤ length tokens.now) }
{
    let Some((kind, rest)) = front(tokens) else {
        return Ok((left, tokens));
    };
    let Some(operator) = multiplicative(kind) else {
        return Ok((left, tokens));
    };
    let (right, rest) = factor(alloc, rest)?;
    let product = Expr::new(alloc, ExprNode::Binary(operator, left, right))?;
    product_tail(alloc, product, rest)
}

#[cycle(expression)]
#[tactic(auto, using(crate::proofs::Expressions::factor_eq))]
fn factor(alloc: Global, tokens: &[Token]) -> Result<(Expr, &[Token]), Stopped>
    ensures read { Gives (λ x. (x.0, kinds x.1.now)) result (factor_at (kinds tokens.now)) }
    ensures shorter { IfOk result (λ x. length x.1.now < length tokens.now) }
{
    match front(tokens) {
        Some((TokenKind::Number(n), rest)) => made(alloc, ExprNode::Literal(*n), rest),
        Some((TokenKind::Name(_), _)) => variable(alloc, tokens),
        Some((TokenKind::Word(Word::Len), rest)) => measured(alloc, rest),
        Some((TokenKind::Mark(Mark::Minus), rest)) => {
            let (inner, rest) = factor(alloc, rest)?;
            made(alloc, ExprNode::Negative(inner), rest)
        }
        Some((TokenKind::Mark(Mark::OpenParenthesis), rest)) => {
            let (inner, rest) = expression(alloc, rest)?;
            closed(inner, rest)
        }
        _ => Err(Stopped::Unexpected(tokens.len())),
    }
}

fn additive(kind: &TokenKind) -> Option<Operator>
    ensures is { result ≡ additive kind.now }
{
    match kind {
        TokenKind::Mark(Mark::Plus) => Some(Operator::Add),
        TokenKind::Mark(Mark::Minus) => Some(Operator::Subtract),
        _ => None,
    }
}

fn multiplicative(kind: &TokenKind) -> Option<Operator>
    ensures is { result ≡ multiplicative kind.now }
{
    match kind {
        TokenKind::Mark(Mark::Star) => Some(Operator::Multiply),
        TokenKind::Mark(Mark::Slash) => Some(Operator::Divide),
        TokenKind::Mark(Mark::Percent) => Some(Operator::Remainder),
        _ => None,
    }
}

//! Reading conditions and their sides, for `parsed`, `faulty` and `only` of `parse_cond`.
ghost use Rattle.std.specs.Prelude.{◌≡◌, ◌<◌, ◌≤◌, length, IfOk};
ghost use Rattle.imp_lex.specs.declared.token.Mark.TheVariants as m;
ghost use Rattle.imp_syntax.specs.Plain.{Not};
ghost use Rattle.imp_syntax.specs.Views.{operand_of, condition_of};
ghost use Rattle.imp_parse.specs.Kinds.{kinds};
ghost use Rattle.imp_parse.specs.Parts.{made_at, closed_at};
ghost use Rattle.imp_parse.specs.Judged.{Gives};
ghost use Rattle.imp_parse.specs.Reading.{side_at, compare_at, unit_at, condition_at, conjunction_at, and_at, or_at};

use crate::error::Stopped;
use crate::expression::expression;
use crate::marks::{front, mark, relation};
use imp_lex::{Mark, Token, TokenKind, Word};
use imp_syntax::{Cond, CondNode, Side};
use std::alloc::Global;

/// A side of a comparison or an argument, and the tokens after it.
pub(crate) fn side(alloc: Global, tokens: &[Token]) -> Result<(Side, &[Token]), Stopped>
    ensures read { Gives (λ x. (operand_of x.0, kinds x.1.now)) result
        (side_at (kinds tokens.now)) }
    ensures shorter { IfOk result (λ x. length x.1.now < length tokens.now) }
{
    match front(tokens) {
        Some((TokenKind::Word(Word::Null), rest)) => Ok((Side::Null, rest)),
        _ => {
            let (value, rest) = expression(alloc, tokens)?;
            Ok((Side::Expr(value), rest))
        }
    }
}

/// The condition with this outermost part, and the tokens after it.
fn made(alloc: Global, node: CondNode, rest: &[Token]) -> Result<(Cond, &[Token]), Stopped>
    ensures read { Gives (λ x. (x.0, kinds x.1.now)) result
        (made_at (condition_of node) (kinds rest.now)) }
    ensures shorter { IfOk result (λ x. length x.1.now ≤ length rest.now) }
{
    let value = Cond::new(alloc, node)?;
    Ok((value, rest))
}

/// A condition that a parenthesis closes.
fn closed(inner: Cond, tokens: &[Token]) -> Result<(Cond, &[Token]), Stopped>
    ensures read { Gives (λ x. (x.0, kinds x.1.now)) result
        (closed_at m.CloseParenthesis inner (kinds tokens.now)) }
    ensures shorter { IfOk result (λ x. length x.1.now < length tokens.now) }
{
    let rest = mark(Mark::CloseParenthesis, tokens)?;
    Ok((inner, rest))
}

/// The opposite of a condition that a parenthesis closes.
fn closed_not(alloc: Global, inner: Cond, tokens: &[Token]) -> Result<(Cond, &[Token]), Stopped>
    ensures read { Gives (λ x. (x.0, kinds x.1.now)) result
        (closed_at m.CloseParenthesis (Not inner) (kinds tokens.now)) }
    ensures shorter { IfOk result (λ x. length x.1.now < length tokens.now) }
{
    let rest = mark(Mark::CloseParenthesis, tokens)?;
    made(alloc, CondNode::Not(inner), rest)
}

fn compare(alloc: Global, tokens: &[Token]) -> Result<(Cond, &[Token]), Stopped>
    ensures read { Gives (λ x. (x.0, kinds x.1.now)) result (compare_at (kinds tokens.now)) }
    ensures shorter { IfOk result (λ x. length x.1.now < length tokens.now) }
{
    let (left, rest) = side(alloc, tokens)?;
    let (relation, rest) = relation(rest)?;
    let (right, rest) = side(alloc, rest)?;
    made(alloc, CondNode::Compare(relation, left, right), rest)
}

/// A condition, and the tokens after it.
#[cycle(condition)]
#[tactic(auto, using(crate::proofs::Conditions::condition_eq))]
pub(crate) fn condition(alloc: Global, tokens: &[Token]) -> Result<(Cond, &[Token]), Stopped>
    ensures read { Gives (λ x. (x.0, kinds x.1.now)) result (condition_at (kinds tokens.now)) }
    ensures shorter { IfOk result (λ x. length x.1.now < length tokens.now) }
{
    let (left, rest) = conjunction(alloc, tokens)?;
    or_tail(alloc, left, rest)
}

/// What stands after conjunctions that make `left`.
#[cycle(condition)]
#[tactic(auto, using(crate::proofs::Conditions::or_eq))]
fn or_tail(alloc: Global, left: Cond, tokens: &[Token]) -> Result<(Cond, &[Token]), Stopped>
    ensures read { Gives (λ x. (x.0, kinds x.1.now)) result (or_at left (kinds tokens.now)) }
    ensures shorter { IfOk result (λ x. length x.1.now ≤ length tokens.now) }
{
    let Some((TokenKind::Mark(Mark::Or), rest)) = front(tokens) else {
        return Ok((left, tokens));
    };
    let (right, rest) = conjunction(alloc, rest)?;
    let either = Cond::new(alloc, CondNode::Or(left, right))?;
    or_tail(alloc, either, rest)
}

#[cycle(condition)]
fn conjunction(alloc: Global, tokens: &[Token]) -> Result<(Cond, &[Token]), Stopped>
    ensures read { Gives (λ x. (x.0, kinds x.1.now)) result (conjunction_at (kinds tokens.now)) }
    ensures shorter { IfOk result (λ x. length x.1.now < length tokens.now) }
{
    let (left, rest) = unit(alloc, tokens)?;
    and_tail(alloc, left, rest)
}

/// What stands after units that make `left`.
#[cycle(condition)]
#[tactic(auto, using(crate::proofs::Conditions::and_eq))]
fn and_tail(alloc: Global, left: Cond, tokens: &[Token]) -> Result<(Cond, &[Token]), Stopped>
    ensures read { Gives (λ x. (x.0, kinds x.1.now)) result (and_at left (kinds tokens.now)) }
    ensures shorter { IfOk result (λ x. length x.1.now ≤ length tokens.now) }
{
    let Some((TokenKind::Mark(Mark::And), rest)) = front(tokens) else {
        return Ok((left, tokens));
    };
    let (right, rest) = unit(alloc, rest)?;
    let both = Cond::new(alloc, CondNode::And(left, right))?;
    and_tail(alloc, both, rest)
}

#[cycle(condition)]
#[tactic(auto, using(crate::proofs::Conditions::unit_eq))]
fn unit(alloc: Global, tokens: &[Token]) -> Result<(Cond, &[Token]), Stopped>
    ensures read { Gives (λ x. (x.0, kinds x.1.now)) result (unit_at (kinds tokens.now)) }
    ensures shorter { IfOk result (λ x. length x.1.now < length tokens.now) }
{
    match front(tokens) {
        Some((TokenKind::Mark(Mark::Not), rest)) => {
            let rest = mark(Mark::OpenParenthesis, rest)?;
            let (inner, rest) = condition(alloc, rest)?;
            closed_not(alloc, inner, rest)
        }
        Some((TokenKind::Mark(Mark::OpenParenthesis), rest)) => {
            let (inner, rest) = condition(alloc, rest)?;
            closed(inner, rest)
        }
        _ => compare(alloc, tokens),
    }
}

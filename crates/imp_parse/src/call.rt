//! Reading a call, its procedure and its arguments, for `parsed`, `faulty` and `only` of `parse_simple`.
ghost use Rattle.std.specs.Prelude.{◌≡◌, [], ◌∷◌, ◌<◌, ◌≤◌, length, IfOk};
ghost use Rattle.imp_syntax.specs.Views.{operand_of};
ghost use Rattle.imp_syntax.specs.ActionViews.{operands_of};
ghost use Rattle.imp_parse.specs.Kinds.{kinds};
ghost use Rattle.imp_parse.specs.Judged.{Gives};
ghost use Rattle.imp_parse.specs.Lists.{begun, with_front};
ghost use Rattle.imp_parse.specs.Reading.{side_at};
ghost use Rattle.imp_parse.specs.Commas.{is_comma, next_by, commas_step, commas_at, some_listed_at};
ghost use Rattle.imp_parse.specs.StatementReading.{arguments_at, invoke_at};
ghost use Rattle.imp_parse.specs.Reader.{fix};

use crate::condition::side;
use crate::error::Stopped;
use crate::marks::{front, mark, name};
use base_values::{Items, Text};
use imp_lex::{Mark, Token, TokenKind};
use imp_syntax::Side;
use std::alloc::Global;

/// Whether a comma is the first token.
pub(crate) fn begins_with_comma(tokens: &[Token]) -> bool
    ensures is { result ≡ begun is_comma (kinds tokens.now) }
{
    matches!(front(tokens), Some((TokenKind::Mark(Mark::Comma), _)))
}

/// A comma and a side, and the tokens after them.
#[tactic(auto, unfolding(crate::specs::Tables::same_mark))]
fn next_side(alloc: Global, tokens: &[Token]) -> Result<(Side, &[Token]), Stopped>
    ensures read { Gives (λ x. ((operand_of x.0, tt), kinds x.1.now)) result
        (next_by side_at (fix (commas_step side_at)) tt (kinds tokens.now)) }
    ensures shorter { IfOk result (λ x. length x.1.now < length tokens.now) }
{
    let rest = mark(Mark::Comma, tokens)?;
    side(alloc, rest)
}

/// The first side and those after commas, and the tokens after them.
fn sides(alloc: Global, first: Side, tokens: &[Token]) -> Result<(Items<Side>, &[Token]), Stopped>
    ensures read { Gives (λ x. ((operands_of x.0, tt), kinds x.1.now)) result
        (with_front (operand_of first ∷ []) (commas_at side_at (kinds tokens.now))) }
    ensures shorter { IfOk result (λ x. length x.1.now ≤ length tokens.now) }
{
    let mut found = Items::new(alloc);
    found.push(first)?;
    let mut rest = tokens;
    'each: while begins_with_comma(rest) {
        let (one, left) = next_side(alloc, rest)?;
        found.push(one)?;
        rest = left;
    }
    Ok((found, rest))
}

fn some_arguments(alloc: Global, tokens: &[Token]) -> Result<(Items<Side>, &[Token]), Stopped>
    ensures read { Gives (λ x. (operands_of x.0, kinds x.1.now)) result
        (some_listed_at side_at (kinds tokens.now)) }
    ensures shorter { IfOk result (λ x. length x.1.now < length tokens.now) }
{
    let (first, rest) = side(alloc, tokens)?;
    let (all, rest) = sides(alloc, first, rest)?;
    let rest = mark(Mark::CloseParenthesis, rest)?;
    Ok((all, rest))
}

/// The arguments up to `)`, and the tokens after it.
fn arguments(alloc: Global, tokens: &[Token]) -> Result<(Items<Side>, &[Token]), Stopped>
    ensures read { Gives (λ x. (operands_of x.0, kinds x.1.now)) result
        (arguments_at (kinds tokens.now)) }
    ensures shorter { IfOk result (λ x. length x.1.now < length tokens.now) }
{
    match front(tokens) {
        Some((TokenKind::Mark(Mark::CloseParenthesis), rest)) => Ok((Items::new(alloc), rest)),
        _ => some_arguments(alloc, tokens),
    }
}

/// The callee and the arguments of a call after its first word, and the tokens after them.
#[tactic(auto, unfolding(crate::specs::StatementReading::invoke_at))]
pub(crate) fn invoke(
    alloc: Global,
    tokens: &[Token],
) -> Result<(Text, Items<Side>, &[Token]), Stopped>
    ensures read { Gives (λ x. ((x.0, operands_of x.1), kinds x.2.now)) result
        (invoke_at (kinds tokens.now)) }
    ensures shorter { IfOk result (λ x. length x.2.now < length tokens.now) }
{
    let (callee, rest) = name(tokens)?;
    let rest = mark(Mark::OpenParenthesis, rest)?;
    let (arguments, rest) = arguments(alloc, rest)?;
    Ok((callee, arguments, rest))
}

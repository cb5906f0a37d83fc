//! Reading single tokens, for `parsed`, `faulty` and `only` of all five readings.
ghost use Rattle.std.specs.Prelude.{◌≡◌, ◌<◌, length, IfOk, IfSome};
ghost use Rattle.imp_parse.specs.Kinds.{kinds, joined};
ghost use Rattle.imp_parse.specs.Judged.{Gives};
ghost use Rattle.imp_parse.specs.Reading.{mark_at, name_at, relation_at};
ghost use Rattle.imp_parse.specs.ProgramReading.{kind_at};
ghost use Rattle.imp_parse.specs.Tables.{relation_of, kind_of};

use crate::error::Stopped;
use base_values::Text;
use imp_lex::{Mark, Token, TokenKind, Word};
use imp_syntax::{Relation, VariableKind as VariableKind};

/// The kind of the first token, and the tokens after it.
pub(crate) fn front(tokens: &[Token]) -> Option<(&TokenKind, &[Token])>
    ensures is { kinds tokens.now ≡ joined result }
    ensures shorter { IfSome result (λ x. length x.1.now < length tokens.now) }
{
    match tokens {
        [] => None,
        [token, rest @ ..] => Some((&token.kind, rest)),
    }
}

/// The tokens after the wanted mark.
#[tactic(auto, unfolding(crate::specs::Tables::same_mark))]
pub(crate) fn mark(wanted: Mark, tokens: &[Token]) -> Result<&[Token], Stopped>
    ensures read { Gives (λ r. (tt, kinds r.now)) result (mark_at wanted (kinds tokens.now)) }
    ensures shorter { IfOk result (λ r. length r.now < length tokens.now) }
{
    match front(tokens) {
        Some((TokenKind::Mark(found), rest)) => {
            if *found == wanted {
                Ok(rest)
            } else {
                Err(Stopped::Unexpected(tokens.len()))
            }
        }
        _ => Err(Stopped::Unexpected(tokens.len())),
    }
}

/// A name, and the tokens after it.
pub(crate) fn name(tokens: &[Token]) -> Result<(Text, &[Token]), Stopped>
    ensures read { Gives (λ x. (x.0, kinds x.1.now)) result (name_at (kinds tokens.now)) }
    ensures shorter { IfOk result (λ x. length x.1.now < length tokens.now) }
{
    match front(tokens) {
        Some((TokenKind::Name(name), rest)) => {
            let name = name.clone()?;
            Ok((name, rest))
        }
        _ => Err(Stopped::Unexpected(tokens.len())),
    }
}

/// A relation, and the tokens after it.
pub(crate) fn relation(tokens: &[Token]) -> Result<(Relation, &[Token]), Stopped>
    ensures read { Gives (λ x. (x.0, kinds x.1.now)) result (relation_at (kinds tokens.now)) }
    ensures shorter { IfOk result (λ x. length x.1.now < length tokens.now) }
{
    match front(tokens) {
        None => Err(Stopped::Unexpected(0)),
        Some((kind, rest)) => match relation_of(kind) {
            Some(relation) => Ok((relation, rest)),
            None => Err(Stopped::Unexpected(tokens.len())),
        },
    }
}

fn relation_of(kind: &TokenKind) -> Option<Relation>
    ensures is { result ≡ relation_of kind.now }
{
    match kind {
        TokenKind::Mark(Mark::EqualTo) => Some(Relation::Equal),
        TokenKind::Mark(Mark::NotEqualTo) => Some(Relation::NotEqual),
        TokenKind::Mark(Mark::Less) => Some(Relation::Less),
        TokenKind::Mark(Mark::AtMost) => Some(Relation::AtMost),
        TokenKind::Mark(Mark::Greater) => Some(Relation::Greater),
        TokenKind::Mark(Mark::AtLeast) => Some(Relation::AtLeast),
        _ => None,
    }
}

/// The kind of a variable, and the tokens after it.
pub(crate) fn variable_kind(tokens: &[Token]) -> Result<(VariableKind, &[Token]), Stopped>
    ensures read { Gives (λ x. (x.0, kinds x.1.now)) result (kind_at (kinds tokens.now)) }
    ensures shorter { IfOk result (λ x. length x.1.now < length tokens.now) }
{
    match front(tokens) {
        None => Err(Stopped::Unexpected(0)),
        Some((kind, rest)) => match kind_of(kind) {
            Some(kind) => Ok((kind, rest)),
            None => Err(Stopped::Unexpected(tokens.len())),
        },
    }
}

fn kind_of(kind: &TokenKind) -> Option<VariableKind>
    ensures is { result ≡ kind_of kind.now }
{
    match kind {
        TokenKind::Word(Word::Int) => Some(VariableKind::Int),
        TokenKind::Word(Word::Array) => Some(VariableKind::Array),
        TokenKind::Word(Word::List) => Some(VariableKind::List),
        _ => None,
    }
}

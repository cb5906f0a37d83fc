//! The tokens of a text.
ghost use Rattle.std.specs.Prelude.{◌≡◌, length, IfOk, IfErr};
ghost use Rattle.std.specs.List.{All};
ghost use Rattle.imp_lex.specs.Lexing.{IsLexed, IsFault, IsOnlyAnswer, AreInOrder, IsSpelled};

use crate::front::{Front, front_at};
use crate::{LexError, Span, Token};
use base_values::Items;
use std::alloc::Global;

/// The tokens of a text, or its first fault in the order of the bytes.
///
/// # Errors
///
/// [`LexError::BadByte`], [`LexError::NumberTooBig`] and [`LexError::NameTooLong`] at the fault's
/// first byte, and [`LexError::Memory`] when memory runs out.
pub fn tokens(alloc: Global, text: &[u8]) -> Result<Items<Token>, LexError>
    ensures lexed { IfOk result (IsLexed 0 text.now) }
    ensures faulty { IfErr result (IsFault text.now) }
    ensures only { IsOnlyAnswer text.now result }
    ensures in_order { IfOk result (AreInOrder 0 (length text.now)) }
    ensures spelled { IfOk result (All (IsSpelled text.now)) }
{
    let mut found = Items::new(alloc);
    let mut at = 0;
    'each: loop {
        match front_at(alloc, &text[at..])? {
            Front::End => {
                return Ok(found);
            }
            Front::Skip(n) => {
                at += n;
            }
            Front::Takes(n, kind) => {
                let span = Span {
                    start: at,
                    end: at + n,
                };
                found.push(Token { kind, span })?;
                at += n;
            }
            Front::Bad(fault) => {
                return Err(fault.at(at));
            }
        }
    }
}

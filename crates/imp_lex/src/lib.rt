//! The tokens of a text of the language, or its first fault.
//!
//! A token is a reserved word, a mark, a name or a number, with the span of its bytes: the longest
//! each time, from left to right. Spaces, tabs, CR and LF separate tokens; two slashes begin a
//! comment, which goes up to the next LF or the end, whatever its bytes. [`tokens`] gives all
//! tokens of a text, or the first fault in the order of the bytes.
//!
//! `front_of` of `specs/Front.antt` says what stands at the front of a text. `IsLexed` and
//! `IsFaulty` of `specs/Lexing.antt` go along the text by it: they say which tokens a text has, and
//! which fault. A text has one answer ([`each_text_has_one_answer`]).
//!
//! Lexing takes time linear in the text, and one allocation for each name beside the list.
#![tactic(auto)]

ghost use Rattle.imp_lex.specs.Lexing.{HasOneAnswer};

mod error;
mod front;
mod kinds;
mod lexer;
mod names;
mod token;

pub use error::LexError;
pub use lexer::tokens;
pub use names::is_name;
pub use token::{Mark, Span, Token, TokenKind, Word};

/// A text has its tokens or a fault, one answer and no other.
pub fn each_text_has_one_answer()
    ensures one { HasOneAnswer }
{}

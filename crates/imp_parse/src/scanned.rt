//! The tokens of a text, and the first of them that is too deep.
ghost use Rattle.std.specs.Prelude.{◌≡◌, ◌<◌, ◌≤◌, length, IfOk, IfErr, false};
ghost use Rattle.std.specs.Option.{ForSome};
ghost use Rattle.imp_parse.specs.Judged.{cut, judged};
ghost use Rattle.imp_parse.specs.Kinds.{kinds};
ghost use Rattle.imp_parse.specs.Limits.{place};

use crate::error::{ParseError, Stopped};
use crate::limits::{Nesting, first_too_deep};
use base_values::Items;
use imp_lex::{Token, tokens};
use std::alloc::Global;

/// The tokens of a text, and where the first of them stands that is too deep, if one is.
#[derive(Drop)]
pub(crate) struct Scanned {
    tokens: Items<Token>,
    deep: Option<usize>,
    ghost within: { ForSome deep (λ i. i < length tokens) },
}

impl Scanned {
    ghost use Rattle.imp_parse.specs.Scanned.{IsScanned, IsLexicalFault};

    /// Those of a text that begins inside so many blocks, one at most.
    pub(crate) fn new(alloc: Global, text: &[u8], depth: u32) -> Result<Scanned, ParseError>
        requires shallow { depth ≤ 1 }
        ensures scanned { IfOk result (IsScanned (place depth 0 false) text.now) }
        ensures faulty { IfErr result (IsLexicalFault text.now) }
    {
        let tokens = tokens(alloc, text)?;
        let deep = first_too_deep(Nesting::new(depth), tokens.as_slice());
        Ok(Scanned { tokens, deep })
    }

    /// The tokens up to the first that is too deep, with it.
    #[tactic(auto, using(crate::proofs::Texts::kinds_take))]
    pub(crate) fn readable(&self) -> &[Token]
        ensures are { kinds result.now ≡ cut self.now.deep (kinds self.now.tokens) }
        ensures shorter { length result.now ≤ length self.now.tokens }
    {
        let tokens = self.tokens.as_slice();
        match self.deep {
            None => tokens,
            Some(i) => &tokens[..i + 1],
        }
    }

    /// The answer, from what was read of those.
    pub(crate) fn judge<X: Drop>(&self, read: Result<X, Stopped>) -> Result<X, ParseError>
        ensures is { result ≡ judged self.now.deep (length self.now.tokens) read }
    {
        match read {
            Ok(tree) => match self.deep {
                None => Ok(tree),
                Some(i) => Err(ParseError::TooDeep(i)),
            },
            Err(Stopped::Memory) => Err(ParseError::Memory),
            Err(Stopped::Unexpected(left)) => match self.deep {
                None => Err(ParseError::Unexpected(self.tokens.len().saturating_sub(left))),
                Some(i) => {
                    if left == 0 {
                        Err(ParseError::TooDeep(i))
                    } else {
                        Err(ParseError::Unexpected(i.saturating_sub(left - 1)))
                    }
                }
            },
        }
    }
}

//! Names of the language.
ghost use Rattle.std.specs.Prelude.{◌≡◌};
ghost use Rattle.imp_lex.specs.Names.{is_name};

use crate::front::{is_letter, word_run};
use crate::kinds::{MOST_NAME_BYTES, reserved_word};

/// Whether the text is a name: a letter or `_`, then letters, digits and `_`, at most 32 bytes in
/// all, and no reserved word.
#[tactic(auto, unfolding(crate::specs::Names::is_name))]
pub fn is_name(text: &[u8]) -> bool
    ensures is { result ≡ is_name text.now }
{
    match text {
        [] => false,
        [first, rest @ ..] => {
            is_letter(*first)
                && word_run(rest) == rest.len()
                && text.len() <= MOST_NAME_BYTES
                && reserved_word(text).is_none()
        }
    }
}

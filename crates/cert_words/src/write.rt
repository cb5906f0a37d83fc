//! Texts of words.
ghost use Rattle.std.specs.Prelude.{◌≡◌, ◌++◌, ◌∷◌, IfOk, OnOk};
ghost use Rattle.cert_words.specs.Words as meant;

use base_values::{Memory, Text};
use itoa::Buffer;
use std::alloc::Global;

/// Adds a word. It fails only when memory runs out.
pub fn put_word(text: &mut Text, word: Option<i128>) -> Result<(), Memory>
    ensures added { OnOk result (text.new ≡ text.old ++ meant.word_text word) }
{
    let Some(number) = word else {
        return text.append(b"n");
    };
    let mut buffer = Buffer::new();
    text.append(buffer.format(number).as_bytes())
}

/// Adds a space and a word. It fails only when memory runs out.
pub fn put_more(text: &mut Text, word: Option<i128>) -> Result<(), Memory>
    ensures added { OnOk result (text.new ≡ text.old ++ (32 ∷ meant.word_text word)) }
{
    text.push(b' ')?;
    put_word(text, word)
}

/// The text of words. It fails only when memory runs out.
pub fn words_text(alloc: Global, words: &[Option<i128>]) -> Result<Text, Memory>
    ensures exact { IfOk result (λ text. text ≡ meant.words_text words.now) }
{
    let mut text = Text::new(alloc);
    let [first, rest @ ..] = words else {
        return Ok(text);
    };
    put_word(&mut text, *first)?;
    for word in rest {
        put_more(&mut text, *word)?;
    }
    Ok(text)
}

//! Words of texts.
ghost use Rattle.std.specs.Prelude.{◌≡◌, ◌≤◌, ◌≤ℤ◌, pos, false, unsigned_abs, IfOk};
ghost use Rattle.std.specs.Option.{option_map};
ghost use Rattle.cert_words.specs.Words as meant;

use crate::write::words_text;
use base_values::{Memory, Text};
use std::alloc::{AllocError, Global};

const LIMIT: u128 = 18_446_744_073_709_551_616;

/// A magnitude with one digit more, up to 2^64.
fn with_digit(size: u128, byte: u8) -> u128
    requires small { size ≤ meant.limit }
    ensures exact { result ≡ meant.with_digit size byte }
    ensures small { result ≤ meant.limit }
{
    let longer = size * 10 + u128::from(byte.saturating_sub(48));
    if longer > LIMIT { LIMIT } else { longer }
}

fn word(is_none: bool, is_negative: bool, size: u128) -> Option<i128>
    requires small { size ≤ meant.limit }
    ensures exact { result ≡ meant.word_read is_none is_negative size }
{
    if is_none {
        return None;
    }
    let number = size as i128;
    if is_negative {
        Some(-number)
    } else {
        Some(number)
    }
}

/// The words of a text that is one of words.
fn read(alloc: Global, text: &[u8]) -> Result<Vec<Option<i128>>, AllocError>
    ensures exact { IfOk result (λ found. found.items ≡ meant.read false false 0 text.now) }
{
    let mut found = Vec::new(alloc);
    let mut is_none = false;
    let mut is_negative = false;
    let mut size = 0;
    for byte in text {
        match *byte {
            b' ' => {
                found.push(word(is_none, is_negative, size))?;
                is_none = false;
                is_negative = false;
                size = 0;
            }
            b'-' => is_negative = true,
            b'n' => is_none = true,
            _ => size = with_digit(size, *byte),
        }
    }
    found.push(word(is_none, is_negative, size))?;
    Ok(found)
}

/// The words that have this text, if there are such. It fails only when memory runs out.
#[tactic(auto, unfolding(crate::specs::Words::words_of))]
pub fn words_of(alloc: Global, text: &[u8]) -> Result<Option<Vec<Option<i128>>>, Memory>
    ensures exact { IfOk result (λ found. option_map (λ v. v.items) found ≡
        meant.words_of text.now) }
{
    let found = read(alloc, text)?;
    let back = words_text(alloc, &found)?;
    if back.as_slice() == text {
        return Ok(Some(found));
    }
    Ok(None)
}

/// Whether a word is this number, which is not negative.
pub fn is_number(number: i128, word: Option<i128>) -> bool
    requires positive { pos 0 ≤ℤ number }
    ensures exact { result ≡ meant.is_number (unsigned_abs number) word }
{
    match word {
        None => false,
        Some(other) => number == other,
    }
}

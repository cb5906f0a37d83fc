//! The token that a whole text is: a word, a number or a mark.
ghost use Rattle.std.specs.Prelude.{◌≡◌, [], ◌∷◌, IfOk};
ghost use Rattle.std.specs.Str.{bytes_eq};
ghost use Rattle.imp_lex.specs.Kinds.{look_up, of_length, reserved_words, reserved_word, word_kind, number_kind, mark_of};

use crate::{Mark, TokenKind, Word};
use base_values::{Memory, Number, Text};
use std::alloc::Global;

/// The most bytes of a name.
pub(crate) const MOST_NAME_BYTES: usize = 32;

/// The greatest number.
const GREATEST: u64 = 9_223_372_036_854_775_807;

/// The word: a reserved word, a name, or none where it is too long.
#[tactic(auto, unfolding(crate::specs::Kinds::word_kind))]
pub(crate) fn word_kind(alloc: Global, word: &[u8]) -> Result<Option<TokenKind>, Memory>
    ensures is { IfOk result (λ kind. kind ≡ word_kind word.now) }
{
    if let Some(reserved) = reserved_word(word) {
        return Ok(Some(TokenKind::Word(reserved)));
    }
    if word.len() > MOST_NAME_BYTES {
        return Ok(None);
    }
    let name = Text::from_slice(alloc, word)?;
    Ok(Some(TokenKind::Name(name)))
}

/// The reserved word that this is. It is compared only with those of its length.
#[tactic(auto, using(crate::proofs::Lengths::of_two, crate::proofs::Lengths::of_three, crate::proofs::Lengths::of_four, crate::proofs::Lengths::of_five, crate::proofs::Lengths::of_six, crate::proofs::Lengths::of_no_word))]
pub(crate) fn reserved_word(word: &[u8]) -> Option<Word>
    ensures is { result ≡ reserved_word word.now }
{
    match word.len() {
        2 => two_letters(word),
        3 => three_letters(word),
        4 => four_letters(word),
        5 => five_letters(word),
        6 => six_letters(word),
        _ => None,
    }
}

fn two_letters(word: &[u8]) -> Option<Word>
    ensures is { result ≡ look_up word.now (of_length 2 reserved_words) }
{
    if is(word, b"if") {
        Some(Word::If)
    } else {
        None
    }
}

fn three_letters(word: &[u8]) -> Option<Word>
    ensures is { result ≡ look_up word.now (of_length 3 reserved_words) }
{
    if is(word, b"var") {
        Some(Word::Var)
    } else if is(word, b"int") {
        Some(Word::Int)
    } else if is(word, b"new") {
        Some(Word::New)
    } else if is(word, b"len") {
        Some(Word::Len)
    } else {
        None
    }
}

fn four_letters(word: &[u8]) -> Option<Word>
    ensures is { result ≡ look_up word.now (of_length 4 reserved_words) }
{
    if is(word, b"proc") {
        Some(Word::Proc)
    } else if is(word, b"list") {
        Some(Word::List)
    } else if is(word, b"skip") {
        Some(Word::Skip)
    } else if is(word, b"null") {
        Some(Word::Null)
    } else if is(word, b"next") {
        Some(Word::Next)
    } else if is(word, b"item") {
        Some(Word::Item)
    } else if is(word, b"else") {
        Some(Word::Else)
    } else if is(word, b"call") {
        Some(Word::Call)
    } else {
        None
    }
}

fn five_letters(word: &[u8]) -> Option<Word>
    ensures is { result ≡ look_up word.now (of_length 5 reserved_words) }
{
    if is(word, b"array") {
        Some(Word::Array)
    } else if is(word, b"input") {
        Some(Word::Input)
    } else if is(word, b"while") {
        Some(Word::While)
    } else if is(word, b"break") {
        Some(Word::Break)
    } else {
        None
    }
}

fn six_letters(word: &[u8]) -> Option<Word>
    ensures is { result ≡ look_up word.now (of_length 6 reserved_words) }
{
    if is(word, b"assert") {
        Some(Word::Assert)
    } else {
        None
    }
}

fn is(word: &[u8], text: &[u8]) -> bool
    ensures is { result ≡ bytes_eq word.now text.now }
{
    word == text
}

/// The number that the digits write, or none where it is too big.
#[tactic(auto, unfolding(crate::specs::Kinds::number_kind))]
pub(crate) fn number_kind(digits: &[u8]) -> Option<TokenKind>
    ensures is { result ≡ number_kind digits.now }
{
    let mut value: u64 = 0;
    for digit in digits {
        let digit = u64::from(digit.saturating_sub(b'0'));
        if value > (GREATEST - digit) / 10 {
            return None;
        }
        value = value * 10 + digit;
    }
    Some(TokenKind::Number(Number::new(value)))
}

/// The mark of two bytes.
#[tactic(auto, unfolding(crate::specs::Kinds::mark_of))]
pub(crate) fn long_mark(first: u8, second: u8) -> Option<Mark>
    ensures is { result ≡ mark_of (first ∷ second ∷ []) }
{
    match (first, second) {
        (b'-', b'>') => Some(Mark::Arrow),
        (b'=', b'=') => Some(Mark::EqualTo),
        (b'!', b'=') => Some(Mark::NotEqualTo),
        (b'<', b'=') => Some(Mark::AtMost),
        (b'>', b'=') => Some(Mark::AtLeast),
        (b'&', b'&') => Some(Mark::And),
        (b'|', b'|') => Some(Mark::Or),
        _ => None,
    }
}

/// The mark of one byte.
#[tactic(auto, unfolding(crate::specs::Kinds::mark_of))]
pub(crate) fn short_mark(byte: u8) -> Option<Mark>
    ensures is { result ≡ mark_of (byte ∷ []) }
{
    match byte {
        b'(' => Some(Mark::OpenParenthesis),
        b')' => Some(Mark::CloseParenthesis),
        b'{' => Some(Mark::OpenBrace),
        b'}' => Some(Mark::CloseBrace),
        b'[' => Some(Mark::OpenBracket),
        b']' => Some(Mark::CloseBracket),
        b':' => Some(Mark::Colon),
        b';' => Some(Mark::Semicolon),
        b',' => Some(Mark::Comma),
        b'.' => Some(Mark::Dot),
        b'=' => Some(Mark::Equals),
        b'<' => Some(Mark::Less),
        b'>' => Some(Mark::Greater),
        b'+' => Some(Mark::Plus),
        b'-' => Some(Mark::Minus),
        b'*' => Some(Mark::Star),
        b'/' => Some(Mark::Slash),
        b'%' => Some(Mark::Percent),
        b'!' => Some(Mark::Not),
        _ => None,
    }
}

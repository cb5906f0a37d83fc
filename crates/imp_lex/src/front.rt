//! What stands at the front of a text.
ghost use Rattle.std.specs.Prelude.{◌≡◌, ◌+◌, ◌≤◌, length, IfOk};
ghost use Rattle.imp_lex.specs.Front.{front_of, taken, mark_front, pair_at, begins_comment, run, is_blank, is_letter, is_digit, is_word, in_line, IsBounded};

use crate::error::Fault;
use crate::kinds::{long_mark, number_kind, short_mark, word_kind};
use crate::{Mark, TokenKind};
use base_values::Memory;
use std::alloc::Global;

/// What stands at the front: nothing, bytes to pass, a token of so many bytes, or a fault.
#[derive(Drop)]
pub(crate) enum Front {
    End,
    Skip(usize),
    Takes(usize, TokenKind),
    Bad(Fault),
}

/// What stands at the front of the text.
#[tactic(auto, unfolding(crate::specs::Front::front_of))]
pub(crate) fn front_at(alloc: Global, text: &[u8]) -> Result<Front, Memory>
    ensures is { IfOk result (λ front. front ≡ front_of text.now) }
    ensures bounded { IfOk result (IsBounded (length text.now)) }
{
    match text {
        [] => Ok(Front::End),
        [b, rest @ ..] => {
            if is_blank(*b) {
                Ok(Front::Skip(1))
            } else if begins_comment(*b, rest) {
                Ok(Front::Skip(1 + line_run(rest)))
            } else if is_letter(*b) {
                let n = 1 + word_run(rest);
                let kind = word_kind(alloc, &text[..n])?;
                Ok(taken(n, kind, Fault::NameTooLong))
            } else if is_digit(*b) {
                let n = 1 + digit_run(rest);
                Ok(taken(n, number_kind(&text[..n]), Fault::NumberTooBig))
            } else {
                Ok(mark_front(*b, rest))
            }
        }
    }
}

fn taken(n: usize, kind: Option<TokenKind>, fault: Fault) -> Front
    ensures is { result ≡ taken n kind fault }
{
    match kind {
        Some(kind) => Front::Takes(n, kind),
        None => Front::Bad(fault),
    }
}

/// The mark at the front, the longer one first.
fn mark_front(b: u8, rest: &[u8]) -> Front
    ensures is { result ≡ mark_front b rest.now }
    ensures bounded { IsBounded (1 + length rest.now) result }
{
    if let [c, ..] = rest {
        if let Some(mark) = long_mark(b, *c) {
            return Front::Takes(2, TokenKind::Mark(mark));
        }
    }
    match short_mark(b) {
        Some(mark) => Front::Takes(1, TokenKind::Mark(mark)),
        None => Front::Bad(Fault::BadByte),
    }
}

fn is_blank(b: u8) -> bool
    ensures is { result ≡ is_blank b }
{
    b == b' ' || b == b'\t' || b == b'\r' || b == b'\n'
}

fn begins_comment(b: u8, rest: &[u8]) -> bool
    ensures is { result ≡ begins_comment b rest.now }
{
    match rest {
        [] => false,
        [c, ..] => b == b'/' && *c == b'/',
    }
}

pub(crate) fn is_letter(b: u8) -> bool
    ensures is { result ≡ is_letter b }
{
    (b'A' <= b && b <= b'Z') || (b'a' <= b && b <= b'z') || b == b'_'
}

fn is_digit(b: u8) -> bool
    ensures is { result ≡ is_digit b }
{
    b'0' <= b && b <= b'9'
}

/// How many bytes at the front go on with a word.
pub(crate) fn word_run(bytes: &[u8]) -> usize
    ensures is { result ≡ run is_word bytes.now }
    ensures within { result ≤ length bytes.now }
{
    for (n, b) in bytes.iter().enumerate() {
        if !is_letter(*b) && !is_digit(*b) {
            return n;
        }
    }
    bytes.len()
}

/// How many bytes at the front go on with a number.
fn digit_run(bytes: &[u8]) -> usize
    ensures is { result ≡ run is_digit bytes.now }
    ensures within { result ≤ length bytes.now }
{
    for (n, b) in bytes.iter().enumerate() {
        if !is_digit(*b) {
            return n;
        }
    }
    bytes.len()
}

/// How many bytes at the front go on with a comment: all up to the next LF.
fn line_run(bytes: &[u8]) -> usize
    ensures is { result ≡ run in_line bytes.now }
    ensures within { result ≤ length bytes.now }
{
    for (n, b) in bytes.iter().enumerate() {
        if *b == b'\n' {
            return n;
        }
    }
    bytes.len()
}

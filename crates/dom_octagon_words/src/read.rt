//! The state of a text.
ghost use Rattle.std.specs.Prelude.{◌≡◌, ◌≤◌, ◌<◌, ◌*◌, ◌^◌, true, IfOk, IfSome, length};
ghost use Rattle.std.specs.Option.{option_map};
ghost use Rattle.dbm_core.specs.Limits.{IsLimited};
ghost use Rattle.dbm_core.specs.Tables.{matrix_of};
ghost use Rattle.dom_octagon_meaning.specs.Covers as covers;
ghost use Rattle.dom_octagon_words.specs.Words as meant;

use base_values::Memory;
use cert_words::{is_number, words_of};
use dbm_core::{Matrix, other_sign};
use std::alloc::Global;

/// Whether a bound is none, or within the limits of a state.
fn in_limits(bound: Option<i128>) -> bool
    ensures exact { result ≡ covers.in_limits bound }
{
    match bound {
        None => true,
        Some(x) => -18_446_744_073_709_551_616 <= x && x < 18_446_744_073_709_551_616,
    }
}

/// The word at row i and column j.
#[tactic(auto, using(crate::proofs::Texts::word_within))]
fn word_at(words: &[Option<i128>], nodes: usize, i: usize, j: usize) -> Option<i128>
    requires few { nodes ≤ 32 }
    requires size { length words.now ≡ nodes * nodes }
    requires row { i < nodes }
    requires column { j < nodes }
    ensures exact { result ≡ meant.word_at words.now nodes i j }
{
    words[i * nodes + j]
}

/// Whether the word at row i and column j is an entry of a state.
#[tactic(auto, using(dbm_core::proofs::NodeLemmas::flip_below))]
fn is_entry(words: &[Option<i128>], slots: usize, i: usize, j: usize) -> bool
    requires few { slots ≤ 16 }
    requires size { length words.now ≡ (2 * slots) * (2 * slots) }
    requires row { i < 2 * slots }
    requires column { j < 2 * slots }
    ensures exact { result ≡ meant.is_entry words.now (2 * slots) i j }
{
    let nodes = 2 * slots;
    let word = word_at(words, nodes, i, j);
    let mirrored = word_at(words, nodes, other_sign(j), other_sign(i));
    in_limits(word) && word == mirrored && (i != j || word == Some(0))
}

/// Whether all words are entries of a state with so many slots.
#[tactic(auto, using(crate::proofs::Below::place_within, crate::proofs::Texts::some_row, crate::proofs::Texts::few_places, crate::proofs::Below::all_so_far, crate::proofs::Below::not_all))]
fn all_entries(words: &[Option<i128>], slots: usize) -> bool
    requires few { slots ≤ 16 }
    requires size { length words.now ≡ (2 * slots) * (2 * slots) }
    ensures exact { result ≡ meant.all_entries words.now (2 * slots) }
{
    let nodes = 2 * slots;
    for place in 0..nodes * nodes {
        if !is_entry(words, slots, place / nodes, place % nodes) {
            return false;
        }
    }
    true
}

/// Whether these are the entries of a state with so many slots, row by row.
#[tactic(auto, using(crate::proofs::Texts::few_places))]
fn are_entries(words: &[Option<i128>], slots: usize) -> bool
    requires few { slots ≤ 16 }
    ensures exact { result ≡ meant.are_entries words.now (2 * slots) }
{
    let nodes = 2 * slots;
    words.len() == nodes * nodes && all_entries(words, slots)
}

/// The matrix of these kinds with these entries.
fn table(alloc: Global, kinds: &[bool], words: &[Option<i128>]) -> Result<Matrix, Memory>
    requires few { length kinds.now ≤ 16 }
    requires entries { meant.are_entries words.now (2 * length kinds.now) ≡ true }
    ensures exact { IfOk result (λ m. m ≡ matrix_of kinds.now
        (meant.word_at words.now (2 * length kinds.now))) }
{
    let nodes = 2 * kinds.len();
    Matrix::from_fn(
        alloc,
        kinds,
        |i: usize, j: usize| -> Option<i128>
            requires few { nodes ≤ 32 }
            requires size { length words.now ≡ nodes * nodes }
            requires row { i < nodes }
            requires column { j < nodes }
            ensures value { result ≡ meant.word_at words.entry.now nodes i j }
        { word_at(words, nodes, i, j) },
    )
}

fn matrix_with(
    alloc: Global,
    kinds: &[bool],
    words: &[Option<i128>],
) -> Result<Option<Matrix>, Memory>
    requires few { length kinds.now ≤ 16 }
    ensures exact { IfOk result (λ found. found ≡ meant.matrix_with kinds.now words.now) }
{
    if !are_entries(words, kinds.len()) {
        return Ok(None);
    }
    Ok(Some(table(alloc, kinds, words)?))
}

fn bounded_of(
    alloc: Global,
    kinds: Option<&[bool]>,
    words: &[Option<i128>],
) -> Result<Option<Option<Matrix>>, Memory>
    requires few { IfSome (option_map (λ k. k.now) kinds) (λ k. length k ≤ 16) }
    ensures exact { IfOk result (λ found. found ≡ meant.bounded_of
        (option_map (λ k. k.now) kinds.entry) words.now) }
{
    let Some(kinds) = kinds else {
        return Ok(None);
    };
    match matrix_with(alloc, kinds, words)? {
        None => Ok(None),
        Some(m) => Ok(Some(Some(m))),
    }
}

fn kept_of(
    alloc: Global,
    kinds: Option<&[bool]>,
    words: &[Option<i128>],
) -> Result<Option<Option<Matrix>>, Memory>
    requires few { IfSome (option_map (λ k. k.now) kinds) (λ k. length k ≤ 16) }
    ensures exact { IfOk result (λ found. found ≡ meant.kept_of
        (option_map (λ k. k.now) kinds.entry) words.now) }
{
    let [word, rest @ ..] = words else {
        return Ok(None);
    };
    if is_number(0, *word) {
        return Ok(if rest.is_empty() { Some(None) } else { None });
    }
    if is_number(1, *word) {
        return bounded_of(alloc, kinds, rest);
    }
    Ok(None)
}

/// The matrix of the state that has this text, none for Empty, of frames the last of which has slots of
/// these kinds, no kinds where there is no frame; or None where no such state fits. It fails for want of
/// memory alone.
pub fn take(
    alloc: Global,
    kinds: Option<&[bool]>,
    text: &[u8],
) -> Result<Option<Option<Matrix>>, Memory>
    requires few { IfSome (option_map (λ k. k.now) kinds) (λ k. length k ≤ 16) }
    ensures exact { IfOk result (λ found. found ≡ meant.state_of_text
        (option_map (λ k. k.now) kinds.entry) text.now) }
    ensures limited { IfOk result (λ found. IfSome found (λ o. IfSome o (IsLimited (2 ^ 64)))) }
{
    let Some(words) = words_of(alloc, text)? else {
        return Ok(None);
    };
    kept_of(alloc, kinds, &words)
}

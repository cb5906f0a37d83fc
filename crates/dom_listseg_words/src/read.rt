//! The state of a text.
ghost use Rattle.std.specs.Prelude.{◌≡◌, Some, drop, IfOk};
ghost use Rattle.std.specs.Option.{option_eq, option_map};
ghost use Rattle.std.specs.Ordering.{int_eq};
ghost use lib.Pointwise.{pointwise};
ghost use Rattle.dom_listseg_meaning.specs.Sets.{most};
ghost use Rattle.dom_listseg_meaning.specs.State.{Top};
ghost use Rattle.dom_listseg_words.specs.Words as meant;
ghost use Rattle.dom_listseg_words.specs.Words.{state_in};

use crate::graphs::{graphs_of, rises};
use crate::parts::{behind, number_of, word_at};
use crate::write::graphs_told;
use base_values::Memory;
use cert_words::{is_number, words_of};
use dom_listseg_sets::GraphSet;
use std::alloc::Global;

/// How many graphs a state keeps at most.
const MOST: u128 = 64;

/// The state of these graphs, if these words are told of it.
fn if_told(
    alloc: Global,
    words: &[Option<i128>],
    graphs: GraphSet,
) -> Result<Option<GraphSet>, Memory>
    ensures exact { IfOk result (λ found. option_map (λ v. state_in (Some v)) found ≡
        meant.if_told words.now (state_in (Some graphs))) }
{
    let told = graphs_told(alloc, graphs.as_slice())?;
    if told.as_slice() == words {
        Ok(Some(graphs))
    } else {
        Ok(None)
    }
}

/// The state of the graphs that words tell after the first, if it is one.
fn graphs_if(
    alloc: Global,
    counts: &[usize],
    words: &[Option<i128>],
) -> Result<Option<GraphSet>, Memory>
    ensures exact { IfOk result (λ found. option_map (λ v. state_in (Some v)) found ≡
        meant.if_rises words.now (meant.graphs_of counts.now
        (meant.number_of most (meant.word_at words.now 1)) (drop 2 words.now))) }
{
    let many = number_of(MOST, word_at(words, 1)) as usize;
    let rest = behind(words, 2);
    let Some(graphs) = graphs_of(alloc, counts, many, rest, Vec::new(alloc))? else {
        return Ok(None);
    };
    if !rises(&graphs) {
        return Ok(None);
    }
    if_told(alloc, words, GraphSet::from_rising(graphs))
}

/// Whether these words are told of Top.
fn is_top(words: &[Option<i128>]) -> bool
    ensures exact { result ≡ pointwise (option_eq int_eq) (meant.state_words Top) words.now }
{
    let top = [Some(2)];
    top.as_slice() == words
}

fn state_with(
    alloc: Global,
    counts: &[usize],
    words: &[Option<i128>],
) -> Result<Option<Option<GraphSet>>, Memory>
    ensures exact { IfOk result (λ found. option_map state_in found ≡
        meant.state_with counts.now words.now) }
{
    let first = word_at(words, 0);
    if is_number(2, first) {
        return Ok(if is_top(words) { Some(None) } else { None });
    }
    let graphs = if is_number(0, first) {
        if_told(alloc, words, GraphSet::new(alloc))?
    } else {
        graphs_if(alloc, counts, words)?
    };
    Ok(graphs.map(Some))
}

/// The graphs of the state of frames with these numbers of slots, main's first, that has this text, none for
/// Top; or None where no such state fits. It fails only when memory runs out.
pub fn take(
    alloc: Global,
    counts: &[usize],
    text: &[u8],
) -> Result<Option<Option<GraphSet>>, Memory>
    ensures exact { IfOk result (λ found. option_map state_in found ≡
        meant.state_of_text counts.now text.now) }
{
    let Some(words) = words_of(alloc, text)? else {
        return Ok(None);
    };
    state_with(alloc, counts, &words)
}

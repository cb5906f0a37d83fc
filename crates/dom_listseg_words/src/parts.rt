//! What words tell of frames and nodes, read leniently.
ghost use Rattle.std.specs.Prelude.{◌≡◌, ◌≤◌, ◌<◌, ◌^◌, IfOk, map, take, drop};
ghost use Rattle.dom_listseg_words.specs.Words as meant;

use cert_words::is_number;
use shape_graph::{Atom, Row};
use std::alloc::{AllocError, Global};

/// The magnitude up to which words are read.
const LIMIT: u128 = 18_446_744_073_709_551_616;

/// A number up to the bound, else 0.
pub fn number_of(bound: u128, word: Option<i128>) -> u128
    ensures exact { result ≡ meant.number_of bound word }
    ensures small { result ≤ bound }
{
    match word {
        None => 0,
        Some(number) => {
            if 0 <= number && number as u128 <= bound {
                number as u128
            } else {
                0
            }
        }
    }
}

fn target_of(word: Option<i128>) -> Option<usize>
    ensures exact { result ≡ meant.target_of word }
{
    let number = number_of(LIMIT, word);
    if number == 0 {
        None
    } else {
        Some((number - 1) as usize)
    }
}

/// The words after so many.
pub fn behind(words: &[Option<i128>], count: usize) -> &[Option<i128>]
    ensures exact { result.now ≡ drop count words.now }
{
    if count <= words.len() {
        &words[count..]
    } else {
        &[]
    }
}

/// The word at a place, none where there is none.
pub fn word_at(words: &[Option<i128>], place: usize) -> Option<i128>
    ensures exact { result ≡ meant.word_at words.now place }
{
    if place < words.len() {
        words[place]
    } else {
        None
    }
}

/// The targets of so many slots.
fn targets_of(
    alloc: Global,
    words: &[Option<i128>],
    count: usize,
) -> Result<Vec<Option<usize>>, AllocError>
    ensures exact { IfOk result (λ v. v.items ≡ map meant.target_of (take count words.now)) }
{
    words
        .iter()
        .take(count)
        .map(|word| target_of(*word))
        .collect(alloc)
}

fn row_of(alloc: Global, words: &[Option<i128>], count: usize) -> Result<Row, AllocError>
    ensures exact { IfOk result (λ row. row ≡ map meant.target_of (take count words.now)) }
{
    Ok(Row::from_slots(targets_of(alloc, words, count)?))
}

/// Frames with so many slots each, from the first words on.
#[tactic(auto, using(crate::proofs::Steps::frames_step))]
pub fn frames_of(
    alloc: Global,
    counts: &[usize],
    words: &[Option<i128>],
) -> Result<Vec<Row>, AllocError>
    ensures exact { IfOk result (λ frames. frames.items ≡ meant.frames_of counts.now words.now) }
{
    let mut frames = Vec::new(alloc);
    let mut words = words;
    for count in counts {
        frames.push(row_of(alloc, words, *count)?)?;
        words = behind(words, *count);
    }
    Ok(frames)
}

/// The words after such frames.
#[tactic(auto, using(crate::proofs::Steps::after_step))]
pub fn after_frames<'a>(counts: &[usize], words: &'a [Option<i128>]) -> &'a [Option<i128>]
    ensures exact { result.now ≡ meant.after_frames counts.now words.now }
{
    let mut words = words;
    for count in counts {
        words = behind(words, *count);
    }
    words
}

fn node_count(words: &[Option<i128>]) -> usize
    ensures exact { result ≡ meant.node_count words.now }
{
    let number = number_of(LIMIT, word_at(words, 0));
    let most = words.len() / 2;
    if number <= most as u128 {
        number as usize
    } else {
        most
    }
}

fn atom_of(words: &[Option<i128>], node: usize) -> Atom
    requires room { node < 2 ^ 62 }
    ensures exact { result ≡ meant.atom_of words.now node }
{
    Atom {
        many: is_number(1, word_at(words, 2 * node + 1)),
        target: target_of(word_at(words, 2 * node + 2)),
    }
}

/// The nodes, by the words from their number on.
#[tactic(auto, using(crate::proofs::Steps::nodes_few, crate::proofs::Steps::atoms_step))]
pub fn atoms_of(alloc: Global, words: &[Option<i128>]) -> Result<Vec<Atom>, AllocError>
    ensures exact { IfOk result (λ atoms. atoms.items ≡ meant.atoms_of words.now) }
{
    let mut atoms = Vec::new(alloc);
    for node in 0..node_count(words) {
        atoms.push(atom_of(words, node))?;
    }
    Ok(atoms)
}

/// The words after the number of nodes and the nodes.
#[tactic(auto, using(crate::proofs::Steps::nodes_few))]
pub fn after_atoms(words: &[Option<i128>]) -> &[Option<i128>]
    ensures exact { result.now ≡ meant.after_atoms words.now }
{
    behind(words, 2 * node_count(words) + 1)
}

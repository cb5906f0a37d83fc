//! The words and the text of a state.
ghost use Rattle.std.specs.Prelude.{◌≡◌, ◌++◌, Some, IfOk, OnOk, map};
ghost use Rattle.std.specs.List.{flat_map};
ghost use Rattle.std.specs.Option.{option_map};
ghost use Rattle.cert_words.specs.Words as words;
ghost use Rattle.shape_graph.specs.Shape.{all_slots_of};
ghost use Rattle.dom_listseg_words.specs.Words as meant;
ghost use Rattle.dom_listseg_words.specs.Words.{atom_told, graph_told, state_in};

use base_values::{Memory, Text};
use cert_words::words_text;
use dom_listseg_sets::FoldedGraph;
use shape_graph::{Atom, Row, ShapeGraph};
use std::alloc::{AllocError, Global};

fn target_word(target: Option<usize>) -> Option<i128>
    ensures exact { result ≡ meant.target_word target }
{
    match target {
        None => Some(0),
        Some(node) => Some(node as i128 + 1),
    }
}

#[tactic(auto, using(crate::proofs::Texts::target_step))]
fn put_row(words: &mut Vec<Option<i128>>, row: &Row) -> Result<(), AllocError>
    ensures added { OnOk result (words.new.items ≡ words.old.items
        ++ map meant.target_word row.now) }
{
    let targets = row.as_slice();
    for target in targets {
        words.push(target_word(*target))?;
    }
    Ok(())
}

#[tactic(auto, using(crate::proofs::Texts::row_step))]
fn put_frames(words: &mut Vec<Option<i128>>, frames: &[Row]) -> Result<(), AllocError>
    ensures added { OnOk result (words.new.items ≡ words.old.items ++ map meant.target_word
        (all_slots_of frames.now)) }
{
    for row in frames {
        put_row(words, row)?;
    }
    Ok(())
}

#[tactic(auto, using(crate::proofs::Texts::two_behind))]
fn put_atom(words: &mut Vec<Option<i128>>, atom: Atom) -> Result<(), AllocError>
    ensures added { OnOk result (words.new.items ≡ words.old.items ++ atom_told atom) }
{
    words.push(if atom.many { Some(1) } else { Some(0) })?;
    words.push(target_word(atom.target))?;
    Ok(())
}

#[tactic(auto, using(crate::proofs::Texts::atom_step))]
fn put_atoms(words: &mut Vec<Option<i128>>, atoms: &[Atom]) -> Result<(), AllocError>
    ensures added { OnOk result (words.new.items ≡ words.old.items
        ++ flat_map atom_told atoms.now) }
{
    for atom in atoms {
        put_atom(words, *atom)?;
    }
    Ok(())
}

#[tactic(auto, using(crate::proofs::Texts::three_behind))]
fn put_graph(words: &mut Vec<Option<i128>>, graph: &ShapeGraph) -> Result<(), AllocError>
    ensures added { OnOk result (words.new.items ≡ words.old.items ++ graph_told graph.now) }
{
    put_frames(words, graph.frames())?;
    words.push(Some(graph.atoms().len() as i128))?;
    put_atoms(words, graph.atoms())
}

#[tactic(auto, using(crate::proofs::Texts::graph_step))]
fn put_graphs(words: &mut Vec<Option<i128>>, graphs: &[FoldedGraph]) -> Result<(), AllocError>
    ensures added { OnOk result (words.new.items ≡ words.old.items
        ++ flat_map graph_told graphs.now) }
{
    for graph in graphs {
        put_graph(words, graph.as_graph())?;
    }
    Ok(())
}

/// The words of the state with these graphs.
pub fn graphs_told(alloc: Global, graphs: &[FoldedGraph]) -> Result<Vec<Option<i128>>, AllocError>
    ensures exact { IfOk result (λ v. v.items ≡ meant.state_words (state_in (Some graphs.now))) }
{
    let mut words = Vec::new(alloc);
    if graphs.is_empty() {
        words.push(Some(0))?;
        return Ok(words);
    }
    words.push(Some(1))?;
    words.push(Some(graphs.len() as i128))?;
    put_graphs(&mut words, graphs)?;
    Ok(words)
}

/// The text of the state with these graphs, of Top where there are none. It fails only when memory runs out.
pub fn put(alloc: Global, graphs: Option<&[FoldedGraph]>) -> Result<Text, Memory>
    ensures exact { IfOk result (λ text. text ≡ words.words_text
        (meant.state_words (state_in (option_map (λ g. g.now) graphs.entry)))) }
{
    match graphs {
        None => words_text(alloc, &[Some(2)]),
        Some(graphs) => {
            let words = graphs_told(alloc, graphs)?;
            words_text(alloc, &words)
        }
    }
}

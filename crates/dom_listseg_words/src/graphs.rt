//! Graphs that words tell.
ghost use Rattle.std.specs.Prelude.{◌≡◌, ◌++◌, nat_eq, IfOk, None, Some, if◌then◌else◌, map, length};
ghost use Rattle.std.specs.Option.{option_map};
ghost use lib.Pointwise.{pointwise};
ghost use Rattle.fold_laws.specs.Folding as folding;
ghost use Rattle.shape_graph.specs.Shape.{shape_of};
ghost use Rattle.dom_listseg_meaning.specs.Sets as sets;
ghost use Rattle.dom_listseg_words.specs.Words as meant;

use crate::parts::{after_atoms, after_frames, atoms_of, frames_of};
use base_values::Memory;
use dom_listseg_sets::FoldedGraph;
use shape_graph::{Atom, Row, ShapeGraph};
use std::alloc::Global;

/// Whether the frames have so many slots.
fn has_counts(frames: &[Row], counts: &[usize]) -> bool
    ensures exact { result ≡ pointwise nat_eq (map length frames.now) counts.now }
{
    match frames {
        [] => counts.is_empty(),
        [row, frames @ ..] => match counts {
            [] => false,
            [count, counts @ ..] => row.as_slice().len() == *count && has_counts(frames, counts),
        },
    }
}

/// The graph, if it is folded.
fn if_folded(alloc: Global, graph: &ShapeGraph) -> Result<Option<FoldedGraph>, Memory>
    ensures exact { IfOk result (λ found. found ≡ (if folding.is_folded graph.now
        then Some graph.now else None)) }
{
    let folded = FoldedGraph::from_graph(alloc, graph)?;
    if *folded.as_graph() == *graph {
        Ok(Some(folded))
    } else {
        Ok(None)
    }
}

/// The graph of these frames and atoms, if it fits.
#[tactic(auto, using(crate::proofs::Folded::counted))]
fn graph_if(
    alloc: Global,
    counts: &[usize],
    frames: Vec<Row>,
    atoms: Vec<Atom>,
) -> Result<Option<FoldedGraph>, Memory>
    ensures exact { IfOk result (λ found. found ≡ meant.graph_if counts.now
        (shape_of frames.items atoms.items)) }
{
    if !has_counts(&frames, counts) {
        return Ok(None);
    }
    let Some(graph) = ShapeGraph::try_from_parts(frames, atoms) else {
        return Ok(None);
    };
    if_folded(alloc, &graph)
}

/// The first graph that words tell, if it fits.
fn graph_of(
    alloc: Global,
    counts: &[usize],
    words: &[Option<i128>],
) -> Result<Option<FoldedGraph>, Memory>
    ensures exact { IfOk result (λ found. found ≡ meant.graph_if counts.now
        (meant.graph_of counts.now words.now)) }
{
    let frames = frames_of(alloc, counts, words)?;
    let atoms = atoms_of(alloc, after_frames(counts, words))?;
    graph_if(alloc, counts, frames, atoms)
}

/// So many graphs that fit, after these.
pub fn graphs_of(
    alloc: Global,
    counts: &[usize],
    many: usize,
    words: &[Option<i128>],
    graphs: Vec<FoldedGraph>,
) -> Result<Option<Vec<FoldedGraph>>, Memory>
    ensures exact { IfOk result (λ found. option_map (λ v. v.items) found ≡ option_map
        (λ more. graphs.items ++ more) (meant.graphs_of counts.now many words.now)) }
{
    if many == 0 {
        return Ok(Some(graphs));
    }
    let Some(graph) = graph_of(alloc, counts, words)? else {
        return Ok(None);
    };
    let mut graphs = graphs;
    graphs.push(graph)?;
    let rest = after_atoms(after_frames(counts, words));
    graphs_of(alloc, counts, many - 1, rest, graphs)
}

/// Whether graphs rise.
pub fn rises(graphs: &[FoldedGraph]) -> bool
    ensures exact { result ≡ sets.rises graphs.now }
{
    match graphs {
        [] => true,
        [_only] => true,
        [first, rest @ ..] => first.cmp(&rest[0]).is_lt() && rises(rest),
    }
}

//! Sets of graphs as states.
ghost use Rattle.std.specs.Prelude.{◌≡◌, IfOk, map};
ghost use Rattle.dom_listseg_meaning.specs.State.{Graphs};
ghost use Rattle.fold_laws.specs.Folding.{fold_of};
ghost use Rattle.dom_listseg_meaning.specs.Sets as sets;
ghost use Rattle.dom_listseg_meaning.specs.Operations as operations;

use crate::SegmentState;
use crate::state::{Kept, copy_of, top, within};
use base_values::Memory;
use dom_listseg_sets::{FoldedGraph, GraphSet};
use shape_graph::ShapeGraph;
use std::alloc::Global;

/// How many graphs a state keeps at most.
const MOST: usize = 64;

/// Puts a graph that a step leaves as it is: the graph itself, shared.
pub fn put_kept(graphs: &mut GraphSet, graph: &FoldedGraph) -> Result<(), Memory>
    ensures put { IfOk result (λ _. graphs.new ≡ sets.put (fold_of graph.now) graphs.old) }
{
    let _graph = graph.as_graph();
    let shared = graph.copy()?;
    graphs.put(shared)
}

/// Puts the fold of a graph in its place, unless it is there.
pub fn put_folded(alloc: Global, graphs: &mut GraphSet, graph: &ShapeGraph) -> Result<(), Memory>
    ensures put { IfOk result (λ _. graphs.new ≡ sets.put (fold_of graph.now) graphs.old) }
{
    let folded = FoldedGraph::from_graph(alloc, graph)?;
    graphs.put(folded)
}

/// Puts the folds of graphs in their places, unless they are there.
pub fn put_all(alloc: Global, graphs: &mut GraphSet, others: &[ShapeGraph]) -> Result<(), Memory>
    ensures put { IfOk result (λ _. graphs.new ≡ sets.union graphs.old (map fold_of others.now)) }
{
    for other in others {
        put_folded(alloc, graphs, other)?;
    }
    Ok(())
}

/// The state of these graphs: all, where there are more than a state keeps.
#[tactic(auto, unfolding(dom_listseg_meaning::specs::Sets::capped))]
pub fn capped(alloc: Global, graphs: GraphSet) -> Result<SegmentState, Memory>
    ensures capped { IfOk result (λ s. s ≡ sets.capped graphs) }
{
    if graphs.as_slice().len() <= MOST {
        within(alloc, graphs)
    } else {
        Ok(top())
    }
}

// The state of the graphs of both: the left one, where the right one adds none.
#[tactic(auto, unfolding(dom_listseg_meaning::specs::Sets::capped))]
fn both(
    alloc: Global,
    l: &SegmentState,
    left: &GraphSet,
    right: &GraphSet,
) -> Result<SegmentState, Memory>
    requires left { l.now ≡ Graphs left.now }
    ensures exact { IfOk result (λ t. t ≡ sets.capped (sets.union left.now right.now)) }
{
    if left.as_slice().len() <= MOST && left.has_all(right) {
        return copy_of(l);
    }
    capped(alloc, left.union(alloc, right)?)
}

/// A state that describes what either describes.
#[tactic(auto, unfolding(dom_listseg_meaning::specs::Operations::join))]
pub fn joined(alloc: Global, l: &SegmentState, r: &SegmentState) -> Result<SegmentState, Memory>
    ensures exact { IfOk result (λ t. t ≡ operations.join l.now r.now) }
{
    match (&l.kept, &r.kept) {
        (Kept::Graphs(left), Kept::Graphs(right)) => both(alloc, l, left.as_ref(), right.as_ref()),
        (Kept::Top, _) => Ok(top()),
        (_, Kept::Top) => Ok(top()),
    }
}

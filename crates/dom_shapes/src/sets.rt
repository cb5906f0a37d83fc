//! Sets with one graph a shape.
ghost use Rattle.std.specs.Prelude.{◌≡◌, ◌&&◌, true, nat_le, length, IfOk, IsTrue};
ghost use Rattle.dom_listseg_meaning.specs.Sets as lists;
ghost use Rattle.dom_listseg_meaning.specs.State.{Graphs};
ghost use Rattle.dom_shapes_meaning.specs.Sets as sets;
ghost use Rattle.dom_shapes_meaning.specs.Operations as operations;

use crate::graphs::{alike, allows, merged};
use base_values::Memory;
use dom_listseg::{ListSeg, SegmentState};
use dom_listseg_sets::{FoldedGraph, GraphSet};
use domain_laws::Domain;
use std::alloc::Global;

/// How many graphs a state keeps at most.
const MOST: usize = 64;

/// How many nodes a graph has at most.
const MOST_NODES: usize = 144;

// Whether one of the graphs has the shape of this one, and is `seg` wherever it is.
fn is_allowed(graph: &FoldedGraph, graphs: &[FoldedGraph]) -> bool
    ensures exact { result ≡ sets.allowed graph.now graphs.now }
{
    match graphs {
        [] => false,
        [first, more @ ..] => {
            (alike(graph, first) && allows(first, graph)) || is_allowed(graph, more)
        }
    }
}

// Whether none of the graphs has the shape of this one.
fn is_alone(graph: &FoldedGraph, graphs: &[FoldedGraph]) -> bool
    ensures exact { result ≡ sets.is_alone graph.now graphs.now }
{
    match graphs {
        [] => true,
        [first, more @ ..] => !alike(graph, first) && is_alone(graph, more),
    }
}

// Whether no two graphs have one shape.
fn all_alone(graphs: &[FoldedGraph]) -> bool
    ensures exact { result ≡ sets.all_alone graphs.now }
{
    match graphs {
        [] => true,
        [first, more @ ..] => is_alone(first, more) && all_alone(more),
    }
}

// Whether no graph has too many nodes.
fn are_small(graphs: &[FoldedGraph]) -> bool
    ensures exact { result ≡ sets.are_small graphs.now }
{
    match graphs {
        [] => true,
        [first, more @ ..] => { first.as_graph().node_count() <= MOST_NODES && are_small(more) }
    }
}

// The graph, as one with those of its shape.
fn grown(alloc: Global, graph: FoldedGraph, graphs: &[FoldedGraph]) -> Result<FoldedGraph, Memory>
    ensures exact { IfOk result (λ g. g ≡ sets.grown graph graphs.now) }
{
    match graphs {
        [] => Ok(graph),
        [first, more @ ..] => {
            if alike(&graph, first) {
                let graph = merged(alloc, &graph, first)?;
                grown(alloc, graph, more)
            } else {
                grown(alloc, graph, more)
            }
        }
    }
}

// The graphs of other shapes.
fn others(
    alloc: Global,
    graph: &FoldedGraph,
    graphs: &[FoldedGraph],
) -> Result<Vec<FoldedGraph>, Memory>
    ensures exact { IfOk result (λ v. v.items ≡ sets.others graph.now graphs.now) }
{
    let mut others = Vec::new(alloc);
    for other in graphs {
        if !alike(graph, other) {
            others.push(other.copy()?)?;
        }
    }
    Ok(others)
}

// The set with the graph, which becomes one with those of its shape.
#[tactic(auto, unfolding(dom_shapes_meaning::specs::Sets::absorbed), using(dom_shapes_meaning::proofs::ConvergenceLaws::grown_itself, dom_shapes_meaning::proofs::ConvergenceLaws::others_all, dom_listseg_meaning::proofs::Rising::filter_rises))]
fn absorbed(alloc: Global, graph: &FoldedGraph, mut set: GraphSet) -> Result<GraphSet, Memory>
    ensures exact { IfOk result (λ s. s ≡ sets.absorbed graph.now set) }
{
    if is_allowed(graph, set.as_slice()) {
        return Ok(set);
    }
    if is_alone(graph, set.as_slice()) {
        set.put(graph.copy()?)?;
        return Ok(set);
    }
    let whole = grown(alloc, graph.copy()?, set.as_slice())?;
    let mut rest = GraphSet::from_rising(others(alloc, graph, set.as_slice())?);
    rest.put(whole)?;
    Ok(rest)
}

// The set with each of the graphs.
fn gathered(alloc: Global, set: GraphSet, graphs: &[FoldedGraph]) -> Result<GraphSet, Memory>
    ensures exact { IfOk result (λ s. s ≡ sets.gathered set graphs.now) }
{
    match graphs {
        [] => Ok(set),
        [first, more @ ..] => {
            let set = absorbed(alloc, first, set)?;
            gathered(alloc, set, more)
        }
    }
}

// Whether a state keeps these graphs.
fn is_bounded(graphs: &[FoldedGraph]) -> bool
    ensures exact { result ≡ (nat_le (length graphs.now) lists.most && sets.are_small graphs.now) }
{
    graphs.len() <= MOST && are_small(graphs)
}

// The state of these graphs: Top where there are too many, or one has too many nodes.
#[tactic(auto, unfolding(dom_shapes_meaning::specs::Sets::bounded))]
fn bounded(alloc: Global, set: GraphSet) -> Result<SegmentState, Memory>
    ensures exact { IfOk result (λ s. s ≡ sets.bounded set) }
{
    if is_bounded(set.as_slice()) {
        SegmentState::from_graphs(alloc, Some(set))
    } else {
        SegmentState::from_graphs(alloc, None)
    }
}

/// The state with one graph a shape: itself, where it has no more.
#[tactic(auto, unfolding(dom_shapes_meaning::specs::Sets::tidied, dom_shapes_meaning::specs::Sets::bounded))]
pub fn tidied(alloc: Global, s: SegmentState) -> Result<SegmentState, Memory>
    ensures exact { IfOk result (λ t. t ≡ sets.tidied s) }
{
    match s.graphs() {
        None => Ok(s),
        Some(graphs) => {
            if all_alone(graphs) {
                if is_bounded(graphs) {
                    Ok(s)
                } else {
                    SegmentState::from_graphs(alloc, None)
                }
            } else {
                let set = gathered(alloc, GraphSet::new(alloc), graphs)?;
                bounded(alloc, set)
            }
        }
    }
}

// Whether all graphs are allowed by others.
#[tactic(auto, unfolding(dom_shapes_meaning::specs::Sets::absorbed))]
fn are_allowed(graphs: &[FoldedGraph], by: &[FoldedGraph]) -> bool
    ensures kept { IsTrue result → sets.gathered by.now graphs.now ≡ by.now }
{
    match graphs {
        [] => true,
        [first, more @ ..] => is_allowed(first, by) && are_allowed(more, by),
    }
}

/// The set of these graphs again.
pub fn copied(alloc: Global, graphs: &[FoldedGraph]) -> Result<GraphSet, Memory>
    requires rises { lists.rises graphs.now ≡ true }
    ensures exact { IfOk result (λ s. s ≡ graphs.now) }
{
    let mut copies = Vec::with_capacity(alloc, graphs.len())?;
    for graph in graphs {
        copies.push(graph.copy()?)?;
    }
    Ok(GraphSet::from_rising(copies))
}

// The state of the graphs of both: the left one, where it allows all of the right ones.
#[tactic(auto, unfolding(dom_shapes_meaning::specs::Sets::bounded))]
fn both(
    alloc: Global,
    l: &SegmentState,
    left: &[FoldedGraph],
    right: &[FoldedGraph],
) -> Result<SegmentState, Memory>
    requires left { l.now ≡ Graphs left.now }
    requires rises { lists.rises left.now ≡ true }
    ensures exact { IfOk result (λ t. t ≡ sets.bounded (sets.gathered left.now right.now)) }
{
    if is_bounded(left) && are_allowed(right, left) {
        return ListSeg.copy(alloc, l);
    }
    bounded(alloc, gathered(alloc, copied(alloc, left)?, right)?)
}

/// A state that describes what either describes.
#[tactic(auto, unfolding(dom_shapes_meaning::specs::Operations::join))]
pub fn joined(alloc: Global, l: &SegmentState, r: &SegmentState) -> Result<SegmentState, Memory>
    ensures exact { IfOk result (λ t. t ≡ operations.join l.now r.now) }
{
    match (l.graphs(), r.graphs()) {
        (Some(left), Some(right)) => both(alloc, l, left, right),
        (None, _) => SegmentState::from_graphs(alloc, None),
        (_, None) => SegmentState::from_graphs(alloc, None),
    }
}

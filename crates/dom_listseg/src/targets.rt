//! What stands in the slots of a graph's last frame.
ghost use Rattle.std.specs.Prelude.{◌≡◌, ◌<◌, ℕ, Some};
ghost use Rattle.shape_graph.specs.Shape.{nodes, target_at};
ghost use Rattle.shape_steps.specs.Steps.{IsTarget, slot_of, argument_of, last_of};
ghost use Rattle.concrete_sem.specs.Evaluation.{same_link};
ghost use Rattle.dom_listseg_meaning.specs.Operations as operations;

use shape_graph::{Row, ShapeGraph};

/// The slots of the last frame.
pub fn last_slots(graph: &ShapeGraph) -> &[Option<usize>]
    ensures slots { result.now ≡ last_of graph.now.frames }
{
    let frames = graph.frames();
    if frames.is_empty() {
        return &[];
    }
    frames[frames.len() - 1].as_slice()
}

/// The target of a slot of the last frame; nil where there is no such slot.
pub fn target(graph: &ShapeGraph, slot: usize) -> Option<usize>
    ensures target { result ≡ slot_of graph.now.frames slot }
    ensures inside { IsTarget (nodes graph.now) result }
{
    let _count = graph.node_count();
    let slots = last_slots(graph);
    if slot < slots.len() {
        slots[slot]
    } else {
        None
    }
}

/// What is after a node; nil where there is no such node.
pub fn behind(graph: &ShapeGraph, node: usize) -> Option<usize>
    ensures target { result ≡ target_at graph.now node }
    ensures inside { IsTarget (nodes graph.now) result }
{
    if node < graph.node_count() {
        graph.atom(node).target
    } else {
        None
    }
}

/// The target of the side of a comparison, or of an argument: nil for null.
pub fn side(graph: &ShapeGraph, side: Option<u32>) -> Option<usize>
    ensures target { result ≡ argument_of graph.now.frames side }
{
    match side {
        None => None,
        Some(slot) => target(graph, slot as usize),
    }
}

/// Whether two targets are the same.
pub fn same(left: Option<usize>, right: Option<usize>) -> bool
    ensures same { result ≡ same_link left right }
{
    match (left, right) {
        (None, None) => true,
        (Some(j), Some(k)) => j == k,
        (None, Some(_)) => false,
        (Some(_), None) => false,
    }
}

/// Whether the targets of the sides of a comparison are as it says.
pub fn agrees(graph: &ShapeGraph, equal: bool, left: Option<u32>, right: Option<u32>) -> bool
    ensures exact { result ≡ operations.agrees equal left right graph.now }
{
    let same = same(side(graph, left), side(graph, right));
    if equal { same } else { !same }
}

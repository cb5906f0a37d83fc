//! Frames: main's first state, entering and leaving calls, and the last frame alone.
ghost use Rattle.std.specs.Prelude.{◌≡◌, ◌-◌, [], ◌∷◌, length, IfOk, map, None, slice_index_or};
ghost use Rattle.concrete_sem.specs.Passing.{first_link, over};
ghost use Rattle.imp_slots.specs.CallViews.{argument_of, taken_of};
ghost use Rattle.fold_laws.specs.Folding.{fold_of};
ghost use Rattle.shape_steps.specs.Steps as steps;
ghost use Rattle.dom_listseg_meaning.specs.State.{Graphs};
ghost use Rattle.dom_listseg_meaning.specs.Sets as sets;
ghost use Rattle.dom_listseg_meaning.specs.Operations as operations;

use crate::SegmentState;
use crate::sets::{capped, put_folded, put_kept};
use crate::state::{Kept, empty, is_empty, listed, top, within};
use crate::targets::{side, target};
use base_values::{Memory, Text};
use dom_listseg_sets::{FoldedGraph, GraphSet};
use imp_slots::{Argument, Entering, Layout, Returning};
use shape_graph::{Row, ShapeGraph};
use shape_steps::{forget, last_frame, pop_frame, push_frame};
use std::alloc::Global;

// Nil for each name.
#[tactic(auto, using(crate::proofs::Started::nils_are))]
fn nils(alloc: Global, names: &[Text]) -> Result<Vec<Option<usize>>, Memory>
    ensures nils { IfOk result (λ v. v.items ≡ map first_link names.now) }
{
    Ok(vec![in alloc; None; names.len()]?)
}

/// The state before main's body.
#[tactic(auto, using(crate::proofs::Started::started_state))]
pub fn initial(alloc: Global, main: &Layout) -> Result<SegmentState, Memory>
    ensures exact { IfOk result (λ s. s ≡ operations.init main.now) }
{
    let mut frames = Vec::with_capacity(alloc, 1)?;
    frames.push(Row::from_slots(nils(alloc, main.links())?))?;
    let graph = ShapeGraph::from_parts(frames, Vec::new(alloc));
    let mut graphs = GraphSet::new(alloc);
    put_folded(alloc, &mut graphs, &graph)?;
    within(alloc, graphs)
}

// The links among the arguments of a call, in order.
fn link_arguments(alloc: Global, arguments: &[Argument]) -> Result<Vec<Option<u32>>, Memory>
    ensures exact { IfOk result (λ v. v.items ≡ operations.link_arguments
        (map argument_of arguments.now)) }
{
    let mut links = Vec::new(alloc);
    for argument in arguments {
        if let Argument::Link(link) = argument {
            links.push(*link)?;
        }
    }
    Ok(links)
}

// The side that a slot of a callee starts with: its argument, or null.
fn started_side(links: &[Option<u32>], slot: usize) -> Option<u32>
    ensures side { result ≡ slice_index_or links.now slot None }
{
    if slot < links.len() {
        links[slot]
    } else {
        None
    }
}

// The sides that slots of these names start with.
fn started_sides(
    alloc: Global,
    names: &[Text],
    links: &[Option<u32>],
) -> Result<Vec<Option<u32>>, Memory>
    ensures exact { IfOk result (λ v. v.items ≡ over links.now (map first_link names.now)) }
{
    let mut sides = Vec::with_capacity(alloc, names.len())?;
    for slot in 0..names.len() {
        sides.push(started_side(links, slot))?;
    }
    Ok(sides)
}

// The sides that the list slots of a callee start with.
fn entered_sides(alloc: Global, entering: &Entering) -> Result<Vec<Option<u32>>, Memory>
    ensures exact { IfOk result (λ v. v.items ≡ operations.entered entering.now) }
{
    let links = link_arguments(alloc, entering.arguments())?;
    started_sides(alloc, entering.layout().links(), &links)
}

// The targets of sides.
fn targets(
    alloc: Global,
    graph: &ShapeGraph,
    sides: &[Option<u32>],
) -> Result<Vec<Option<usize>>, Memory>
    ensures exact { IfOk result (λ v. v.items ≡ map (steps.argument_of graph.now.frames)
        sides.now) }
{
    let mut targets = Vec::with_capacity(alloc, sides.len())?;
    for link in sides {
        targets.push(side(graph, *link))?;
    }
    Ok(targets)
}

// The graph with a frame of these sides.
fn entered_graph(
    alloc: Global,
    sides: &[Option<u32>],
    graph: &ShapeGraph,
) -> Result<ShapeGraph, Memory>
    ensures exact { IfOk result (λ next. next ≡ steps.push_frame_of graph.now
        (map (steps.argument_of graph.now.frames) sides.now)) }
{
    let _count = graph.node_count();
    let targets = targets(alloc, graph, sides)?;
    push_frame(alloc, graph, &targets)
}

// The graphs with a frame of the callee.
#[tactic(auto, unfolding(dom_listseg_meaning::specs::Operations::enter))]
fn entered_graphs(
    alloc: Global,
    entering: &Entering,
    graphs: &[FoldedGraph],
) -> Result<SegmentState, Memory>
    ensures exact { IfOk result (λ t. t ≡ operations.enter entering.now (Graphs graphs.now)) }
{
    let sides = entered_sides(alloc, entering)?;
    let mut all = GraphSet::new(alloc);
    for graph in graphs {
        let next = entered_graph(alloc, &sides, graph.as_graph())?;
        put_folded(alloc, &mut all, &next)?;
    }
    capped(alloc, all)
}

/// The state before a callee's body.
#[tactic(auto, unfolding(dom_listseg_meaning::specs::Operations::enter))]
pub fn entered(alloc: Global, entering: &Entering, s: &SegmentState) -> Result<SegmentState, Memory>
    ensures exact { IfOk result (λ t. t ≡ operations.enter entering.now s.now) }
{
    match &s.kept {
        Kept::Top => Ok(top()),
        Kept::Graphs(shared) => entered_graphs(alloc, entering, listed(shared)),
    }
}

// The graph without its last frame.
fn without_last(alloc: Global, graph: &ShapeGraph) -> Result<ShapeGraph, Memory>
    ensures exact { IfOk result (λ next. next ≡ steps.pop_frame_of graph.now
        (length graph.now.frames - 1)) }
{
    pop_frame(alloc, graph, graph.frames().len().saturating_sub(1))
}

// The graph without its last frame, with the result taken.
fn returned_graph(
    alloc: Global,
    returning: Option<Returning>,
    graph: &ShapeGraph,
) -> Result<ShapeGraph, Memory>
    ensures exact { IfOk result (λ next. next ≡ operations.returned
        (taken_of returning) graph.now) }
{
    let below = without_last(alloc, graph)?;
    match returning {
        None => Ok(below),
        Some(Returning::Numeric { to: _, from: _ }) => Ok(below),
        Some(Returning::Link { to, from }) => {
            let target = target(graph, from as usize);
            forget(alloc, &below, to as usize, target)
        }
    }
}

// The graphs without their last frame, with the result taken.
fn returned_graphs(
    alloc: Global,
    returning: Option<Returning>,
    graphs: &[FoldedGraph],
) -> Result<SegmentState, Memory>
    ensures exact { IfOk result (λ t. t ≡ operations.each
        (λ g. operations.returned (taken_of returning) g ∷ []) (Graphs graphs.now)) }
{
    let mut all = GraphSet::new(alloc);
    for graph in graphs {
        let below = returned_graph(alloc, returning, graph.as_graph())?;
        put_folded(alloc, &mut all, &below)?;
    }
    capped(alloc, all)
}

/// The state after a call.
#[tactic(auto, unfolding(dom_listseg_meaning::specs::Operations::leave), using(crate::proofs::Left::leave_graphs, crate::proofs::Left::leave_top, crate::proofs::Left::leave_dead, crate::proofs::Left::leave_done))]
pub fn left(
    alloc: Global,
    returning: Option<Returning>,
    s: &SegmentState,
    done: &SegmentState,
) -> Result<SegmentState, Memory>
    ensures exact { IfOk result (λ t. t ≡ operations.leave (taken_of returning) s.now done.now) }
{
    if is_empty(s) || is_empty(done) {
        return empty(alloc);
    }
    match (&s.kept, &done.kept) {
        (Kept::Graphs(_), Kept::Graphs(shared)) => {
            returned_graphs(alloc, returning, listed(shared))
        }
        (Kept::Top, _) => Ok(top()),
        (_, Kept::Top) => Ok(top()),
    }
}

// Puts the last frame of a graph alone: the graph itself, where it has no other.
#[tactic(auto, using(crate::proofs::Stays::last_stays))]
fn put_last(alloc: Global, graphs: &mut GraphSet, graph: &FoldedGraph) -> Result<(), Memory>
    ensures put { IfOk result (λ _. graphs.new ≡ sets.put (fold_of (steps.last_frame_of graph.now))
        graphs.old) }
{
    if graph.as_graph().frames().len() == 1 {
        return put_kept(graphs, graph);
    }
    let next = last_frame(alloc, graph.as_graph())?;
    put_folded(alloc, graphs, &next)
}

// The last frames of graphs alone.
#[tactic(auto, unfolding(dom_listseg_meaning::specs::Operations::shed))]
fn last_frames(alloc: Global, graphs: &[FoldedGraph]) -> Result<SegmentState, Memory>
    ensures exact { IfOk result (λ t. t ≡ operations.shed (Graphs graphs.now)) }
{
    let mut all = GraphSet::new(alloc);
    for graph in graphs {
        put_last(alloc, &mut all, graph)?;
    }
    capped(alloc, all)
}

/// The last frame alone.
#[tactic(auto, unfolding(dom_listseg_meaning::specs::Operations::shed))]
pub fn shed(alloc: Global, s: &SegmentState) -> Result<SegmentState, Memory>
    ensures exact { IfOk result (λ t. t ≡ operations.shed s.now) }
{
    match &s.kept {
        Kept::Top => Ok(top()),
        Kept::Graphs(shared) => last_frames(alloc, listed(shared)),
    }
}

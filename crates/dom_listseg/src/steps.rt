//! What a statement makes of one graph.
ghost use Rattle.std.specs.Prelude.{◌≡◌, ◌<◌, [], ◌∷◌, false, Some, IfOk, IsTrue};
ghost use Rattle.shape_graph.specs.Shape.{nodes, atom_at};
ghost use Rattle.imp_slots.specs.ActionViews.{effect_of};
ghost use Rattle.shape_steps.specs.Steps.{slot_of, forget_of};
ghost use Rattle.dom_listseg_meaning.specs.Operations as operations;

use crate::targets::{behind, same, target};
use base_values::Memory;
use imp_slots::SlotAction;
use shape_graph::ShapeGraph;
use shape_steps::{expose, forget, new_cell, set_next};
use std::alloc::Global;

// The one graph.
fn single(alloc: Global, graph: ShapeGraph) -> Result<Vec<ShapeGraph>, Memory>
    ensures single { IfOk result (λ v. v.items ≡ graph ∷ []) }
{
    let mut graphs = Vec::with_capacity(alloc, 1)?;
    graphs.push(graph)?;
    Ok(graphs)
}

// `p = q.next`
fn read(
    alloc: Global,
    graph: &ShapeGraph,
    to: usize,
    from: usize,
) -> Result<Vec<ShapeGraph>, Memory>
    ensures exact { IfOk result (λ v. v.items ≡ operations.read_at graph.now to
        (slot_of graph.now.frames from)) }
{
    let Some(node) = target(graph, from) else {
        return Ok(Vec::new(alloc));
    };
    let exposed = expose(alloc, graph, node)?;
    let mut graphs = Vec::with_capacity(alloc, exposed.len())?;
    for one in exposed.as_slice() {
        graphs.push(forget(alloc, one, to, behind(one, node))?)?;
    }
    Ok(graphs)
}

// `p.next = q`
fn write(
    alloc: Global,
    graph: &ShapeGraph,
    to: usize,
    from: usize,
) -> Result<Vec<ShapeGraph>, Memory>
    ensures exact { IfOk result (λ v. v.items ≡ operations.write_at graph.now
        (slot_of graph.now.frames to) from) }
{
    let Some(node) = target(graph, to) else {
        return Ok(Vec::new(alloc));
    };
    let exposed = expose(alloc, graph, node)?;
    let mut graphs = Vec::with_capacity(alloc, exposed.len())?;
    for one in exposed.as_slice() {
        graphs.push(set_next(alloc, one, node, target(one, from))?)?;
    }
    Ok(graphs)
}

/// The graphs after a statement, from the one before it.
#[tactic(auto, unfolding(dom_listseg_meaning::specs::Operations::stepped))]
pub fn stepped(
    alloc: Global,
    action: &SlotAction,
    graph: &ShapeGraph,
) -> Result<Vec<ShapeGraph>, Memory>
    ensures exact { IfOk result (λ v. v.items ≡ operations.stepped
        (effect_of action.now) graph.now) }
{
    match action {
        SlotAction::SetNull(p) => single(alloc, forget(alloc, graph, *p as usize, None)?),
        SlotAction::MakeCell(p) => single(alloc, new_cell(alloc, graph, *p as usize)?),
        SlotAction::CopyLink(p, q) => {
            let target = target(graph, *q as usize);
            single(alloc, forget(alloc, graph, *p as usize, target)?)
        }
        SlotAction::ReadNext(p, q) => read(alloc, graph, *p as usize, *q as usize),
        SlotAction::WriteNext(p, q) => write(alloc, graph, *p as usize, *q as usize),
        SlotAction::Skip => single(alloc, graph.copy(alloc)?),
        SlotAction::Assert(_) => single(alloc, graph.copy(alloc)?),
        SlotAction::SetInt(_, _) => single(alloc, graph.copy(alloc)?),
        SlotAction::Input(_) => single(alloc, graph.copy(alloc)?),
        SlotAction::ReadElement(_, _, _) => single(alloc, graph.copy(alloc)?),
        SlotAction::ReadItem(_, _) => single(alloc, graph.copy(alloc)?),
        SlotAction::MakeArray(_, _) => single(alloc, graph.copy(alloc)?),
        SlotAction::CopyArray(_, _) => single(alloc, graph.copy(alloc)?),
        SlotAction::WriteElement(_, _, _) => single(alloc, graph.copy(alloc)?),
        SlotAction::WriteItem(_, _) => single(alloc, graph.copy(alloc)?),
    }
}

// Whether a node is one cell with this target after it.
#[tactic(auto, using(crate::proofs::Stays::behind_is))]
fn has_behind(graph: &ShapeGraph, node: usize, target: Option<usize>) -> bool
    requires node { node < nodes graph.now }
    ensures one { IsTrue result → atom_at graph.now.atoms node ≡
        record { many = false; target = target } }
{
    let atom = graph.atom(node);
    if atom.many {
        return false;
    }
    same(atom.target, target)
}

// Whether `p = q.next` gives p the target that it has, of a q that is one cell.
#[tactic(auto, using(crate::proofs::Stays::read_stays))]
fn read_stays(graph: &ShapeGraph, to: usize, from: usize) -> bool
    ensures same { IsTrue result → operations.read_at graph.now to (slot_of graph.now.frames from) ≡
        graph.now ∷ [] }
{
    match target(graph, from) {
        None => false,
        Some(node) => has_behind(graph, node, target(graph, to)),
    }
}

// Whether `p.next = q` puts after p's node, one cell, what is there.
#[tactic(auto, using(crate::proofs::Stays::write_stays))]
fn write_stays(graph: &ShapeGraph, to: usize, from: usize) -> bool
    ensures same { IsTrue result → operations.write_at graph.now
        (slot_of graph.now.frames to) from ≡ graph.now ∷ [] }
{
    match target(graph, to) {
        None => false,
        Some(node) => has_behind(graph, node, target(graph, from)),
    }
}

// Whether `p = q`, or `p = null`, gives p the target that it has.
#[tactic(auto, using(crate::proofs::Stays::slot_stays))]
fn slot_stays(graph: &ShapeGraph, to: usize, given: Option<usize>) -> bool
    ensures same { IsTrue result → forget_of graph.now to given ≡ graph.now }
{
    same(target(graph, to), given)
}

/// Whether a statement leaves a graph as it is, as far as is seen: it gives a slot, or a cell's next, the target that is
/// there.
#[tactic(auto, unfolding(dom_listseg_meaning::specs::Operations::stepped))]
pub fn stays(action: &SlotAction, graph: &ShapeGraph) -> bool
    ensures same { IsTrue result → operations.stepped (effect_of action.now) graph.now ≡ graph.now
        ∷ [] }
{
    match action {
        SlotAction::SetNull(p) => slot_stays(graph, *p as usize, None),
        SlotAction::CopyLink(p, q) => slot_stays(graph, *p as usize, target(graph, *q as usize)),
        SlotAction::ReadNext(p, q) => read_stays(graph, *p as usize, *q as usize),
        SlotAction::WriteNext(p, q) => write_stays(graph, *p as usize, *q as usize),
        _ => false,
    }
}

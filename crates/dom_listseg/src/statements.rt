//! Simple statements and their checks.
ghost use Rattle.std.specs.Prelude.{◌≡◌, IfOk, map};
ghost use Rattle.imp_slots.specs.ActionViews.{effect_of, act_of};
ghost use Rattle.domain_laws.specs.Checks as checks;
ghost use Rattle.domain_laws.specs.Guards.{past_check};
ghost use Rattle.fold_laws.specs.Folding.{fold_of};
ghost use Rattle.dom_listseg_meaning.specs.State.{Graphs};
ghost use Rattle.dom_listseg_meaning.specs.Sets as sets;
ghost use Rattle.dom_listseg_meaning.specs.Operations as operations;

use crate::SegmentState;
use crate::assumptions::{assumed, compared};
use crate::sets::{capped, put_all, put_kept};
use crate::state::{Kept, copy_of, empty, listed, top};
use crate::steps::{stays, stepped};
use base_values::Memory;
use dom_listseg_sets::{FoldedGraph, GraphSet};
use imp_slots::{SlotAction, SlotStmt};
use std::alloc::Global;

// Puts what a statement makes of a graph: the graph itself, where the statement leaves it as it is.
fn put_moved(
    alloc: Global,
    graphs: &mut GraphSet,
    action: &SlotAction,
    graph: &FoldedGraph,
) -> Result<(), Memory>
    ensures put { IfOk result (λ _. graphs.new ≡ sets.union graphs.old
        (map fold_of (operations.stepped (effect_of action.now) graph.now))) }
{
    if stays(action, graph.as_graph()) {
        return put_kept(graphs, graph);
    }
    let next = stepped(alloc, action, graph.as_graph())?;
    put_all(alloc, graphs, &next)
}

// What a statement that changes a link makes of graphs.
fn moved_graphs(
    alloc: Global,
    action: &SlotAction,
    graphs: &[FoldedGraph],
) -> Result<SegmentState, Memory>
    ensures exact { IfOk result (λ t. t ≡ operations.each
        (operations.stepped (effect_of action.now)) (Graphs graphs.now)) }
{
    let mut all = GraphSet::new(alloc);
    for graph in graphs {
        put_moved(alloc, &mut all, action, graph)?;
    }
    capped(alloc, all)
}

// What a statement that changes a link makes of a state.
fn moved(alloc: Global, action: &SlotAction, s: &SegmentState) -> Result<SegmentState, Memory>
    ensures exact { IfOk result (λ t. t ≡ operations.each
        (operations.stepped (effect_of action.now)) s.now) }
{
    match &s.kept {
        Kept::Top => Ok(top()),
        Kept::Graphs(shared) => moved_graphs(alloc, action, listed(shared)),
    }
}

// The state where the check of a statement holds.
#[tactic(auto, using(crate::proofs::Assumed::index_passed))]
fn checked(alloc: Global, action: &SlotAction, s: &SegmentState) -> Result<SegmentState, Memory>
    ensures exact { IfOk result (λ t. t ≡ past_check operations.assume
        (checks.check_of (effect_of action.now)) s.now) }
{
    match action {
        SlotAction::Assert(c) => assumed(alloc, c, true, s),
        SlotAction::ReadItem(_, q) => is_cell(alloc, *q, true, s),
        SlotAction::ReadNext(_, q) => is_cell(alloc, *q, true, s),
        SlotAction::WriteNext(p, _) => is_cell(alloc, *p, true, s),
        SlotAction::WriteItem(p, _) => is_cell(alloc, *p, true, s),
        SlotAction::ReadElement(_, _, _) => copy_of(s),
        SlotAction::WriteElement(_, _, _) => copy_of(s),
        SlotAction::Skip => copy_of(s),
        SlotAction::SetInt(_, _) => copy_of(s),
        SlotAction::Input(_) => copy_of(s),
        SlotAction::MakeArray(_, _) => copy_of(s),
        SlotAction::CopyArray(_, _) => copy_of(s),
        SlotAction::SetNull(_) => copy_of(s),
        SlotAction::MakeCell(_) => copy_of(s),
        SlotAction::CopyLink(_, _) => copy_of(s),
    }
}

/// The state where a link is a cell, or where it is none.
#[tactic(auto, unfolding(dom_listseg_meaning::specs::Operations::assume))]
pub fn is_cell(alloc: Global, p: u32, sense: bool, s: &SegmentState) -> Result<SegmentState, Memory>
    ensures exact { IfOk result (λ t. t ≡ operations.assume (checks.checked_guard (checks.IsCell p))
        sense s.now) }
{
    if sense {
        compared(alloc, false, Some(p), None, s)
    } else {
        compared(alloc, true, Some(p), None, s)
    }
}

// What a statement does after its check.
#[tactic(auto, unfolding(dom_listseg_meaning::specs::Operations::does))]
fn done(alloc: Global, action: &SlotAction, s: SegmentState) -> Result<SegmentState, Memory>
    ensures exact { IfOk result (λ t. t ≡ operations.does (effect_of action.now) s) }
{
    match action {
        SlotAction::SetNull(_) => moved(alloc, action, &s),
        SlotAction::MakeCell(_) => moved(alloc, action, &s),
        SlotAction::CopyLink(_, _) => moved(alloc, action, &s),
        SlotAction::ReadNext(_, _) => moved(alloc, action, &s),
        SlotAction::WriteNext(_, _) => moved(alloc, action, &s),
        SlotAction::Skip => Ok(s),
        SlotAction::Assert(_) => Ok(s),
        SlotAction::SetInt(_, _) => Ok(s),
        SlotAction::Input(_) => Ok(s),
        SlotAction::ReadElement(_, _, _) => Ok(s),
        SlotAction::ReadItem(_, _) => Ok(s),
        SlotAction::MakeArray(_, _) => Ok(s),
        SlotAction::CopyArray(_, _) => Ok(s),
        SlotAction::WriteElement(_, _, _) => Ok(s),
        SlotAction::WriteItem(_, _) => Ok(s),
    }
}

// The state after a simple statement. One without a check is done on the graphs as they stand.
#[tactic(auto, unfolding(dom_listseg_meaning::specs::Operations::does))]
fn acted(alloc: Global, action: &SlotAction, s: &SegmentState) -> Result<SegmentState, Memory>
    ensures exact { IfOk result (λ t. t ≡ operations.does (effect_of action.now)
        (past_check operations.assume (checks.check_of (effect_of action.now)) s.now)) }
{
    match action {
        SlotAction::SetNull(_) => moved(alloc, action, s),
        SlotAction::MakeCell(_) => moved(alloc, action, s),
        SlotAction::CopyLink(_, _) => moved(alloc, action, s),
        _ => checked_first(alloc, action, s),
    }
}

// The state after a simple statement, by its check.
fn checked_first(
    alloc: Global,
    action: &SlotAction,
    s: &SegmentState,
) -> Result<SegmentState, Memory>
    ensures exact { IfOk result (λ t. t ≡ operations.does (effect_of action.now)
        (past_check operations.assume (checks.check_of (effect_of action.now)) s.now)) }
{
    let passed = checked(alloc, action, s)?;
    done(alloc, action, passed)
}

/// The state after a simple statement or a break.
#[tactic(auto, unfolding(dom_listseg_meaning::specs::Operations::post))]
pub fn behind(alloc: Global, stmt: &SlotStmt, s: &SegmentState) -> Result<SegmentState, Memory>
    ensures exact { IfOk result (λ t. t ≡ operations.post (act_of stmt.now) s.now) }
{
    match stmt {
        SlotStmt::Break => empty(alloc),
        SlotStmt::Simple(action) => acted(alloc, action, s),
    }
}

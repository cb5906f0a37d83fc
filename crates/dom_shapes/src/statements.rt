//! Simple statements.
ghost use Rattle.std.specs.Prelude.{◌≡◌, ◌≤◌, true, length, IfOk, take, drop};
ghost use Rattle.imp_slots.specs.ActionViews.{act_of};
ghost use Rattle.dom_listseg_meaning.specs.State.{Graphs};
ghost use Rattle.dom_listseg_meaning.specs.Sets.{rises};
ghost use Rattle.dom_listseg_meaning.specs.Operations as lists;
ghost use Rattle.dom_shapes_meaning.specs.Sets.{tidied};
ghost use Rattle.dom_shapes_meaning.specs.Operations as operations;

use crate::sets::{copied, joined, tidied};
use base_values::Memory;
use dom_listseg::{SegmentState, behind as behind_lists};
use dom_listseg_sets::FoldedGraph;
use imp_slots::{SlotAction, SlotStmt};
use std::alloc::Global;

/// On how many graphs a statement is done at a time.
const AT_ONCE: usize = 32;

// Whether a statement changes a link.
fn moves(stmt: &SlotStmt) -> bool
    ensures exact { result ≡ operations.moves (act_of stmt.now) }
{
    match stmt {
        SlotStmt::Break => false,
        SlotStmt::Simple(action) => matches!(
            action,
            SlotAction::SetNull(_)
                | SlotAction::MakeCell(_)
                | SlotAction::CopyLink(_, _)
                | SlotAction::ReadNext(_, _)
                | SlotAction::WriteNext(_, _)
        ),
    }
}

// What a statement makes of some of the graphs, as list segments.
fn behind_some(
    alloc: Global,
    stmt: &SlotStmt,
    graphs: &[FoldedGraph],
) -> Result<SegmentState, Memory>
    requires rises { rises graphs.now ≡ true }
    ensures exact { IfOk result (λ t. t ≡ lists.post (act_of stmt.now) (Graphs graphs.now)) }
{
    let set = copied(alloc, graphs)?;
    let s = SegmentState::from_graphs(alloc, Some(set))?;
    behind_lists(alloc, stmt, &s)
}

// What a statement makes of more graphs than are done at a time.
fn behind_parts(
    alloc: Global,
    stmt: &SlotStmt,
    graphs: &[FoldedGraph],
) -> Result<SegmentState, Memory>
    requires rises { rises graphs.now ≡ true }
    requires many { 32 ≤ length graphs.now }
    ensures exact { IfOk result (λ t. t ≡ operations.join
        (tidied (lists.post (act_of stmt.now) (Graphs (take 32 graphs.now))))
        (lists.post (act_of stmt.now) (Graphs (drop 32 graphs.now)))) }
{
    let (some, more) = graphs.split_at(AT_ONCE);
    let first = tidied(alloc, behind_some(alloc, stmt, some)?)?;
    let rest = behind_some(alloc, stmt, more)?;
    joined(alloc, &first, &rest)
}

// What a statement that changes a link makes of a state.
#[tactic(auto, unfolding(dom_shapes_meaning::specs::Operations::in_parts))]
fn moved(alloc: Global, stmt: &SlotStmt, s: &SegmentState) -> Result<SegmentState, Memory>
    ensures exact { IfOk result (λ t. t ≡ operations.in_parts (lists.post (act_of stmt.now)) s.now) }
{
    match s.graphs() {
        None => behind_lists(alloc, stmt, s),
        Some(graphs) => {
            if graphs.len() <= AT_ONCE {
                tidied(alloc, behind_lists(alloc, stmt, s)?)
            } else {
                behind_parts(alloc, stmt, graphs)
            }
        }
    }
}

/// The state after a simple statement or a break.
#[tactic(auto, unfolding(dom_shapes_meaning::specs::Operations::post))]
pub fn behind(alloc: Global, stmt: &SlotStmt, s: &SegmentState) -> Result<SegmentState, Memory>
    ensures exact { IfOk result (λ t. t ≡ operations.post (act_of stmt.now) s.now) }
{
    if moves(stmt) {
        moved(alloc, stmt, s)
    } else {
        behind_lists(alloc, stmt, s)
    }
}

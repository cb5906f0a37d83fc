//! What is assumed of conditions.
ghost use Rattle.std.specs.Prelude.{◌≡◌, IfOk, IsTrue};
ghost use Rattle.std.specs.List.{filter};
ghost use Rattle.dom_listseg_meaning.specs.State.{Graphs};
ghost use Rattle.dom_listseg_meaning.specs.Operations as operations;

use crate::SegmentState;
use crate::sets::joined;
use crate::state::{Kept, copy_of, top, within};
use crate::targets::agrees;
use base_values::Memory;
use dom_listseg_sets::{FoldedGraph, GraphSet};
use imp_slots::{SlotCond, SlotCondNode};
use std::alloc::Global;

// Whether the sides of a comparison are as it says in each graph, as far as is seen.
fn all_agree(equal: bool, left: Option<u32>, right: Option<u32>, graphs: &[FoldedGraph]) -> bool
    ensures kept { IsTrue result → filter (operations.agrees equal left right) graphs.now ≡
        graphs.now }
{
    for graph in graphs {
        if !agrees(graph.as_graph(), equal, left, right) {
            return false;
        }
    }
    true
}

// The graphs in which the sides of a comparison are as it says.
fn agreeing(
    alloc: Global,
    equal: bool,
    left: Option<u32>,
    right: Option<u32>,
    graphs: &[FoldedGraph],
) -> Result<Vec<FoldedGraph>, Memory>
    ensures exact { IfOk result (λ v. v.items ≡ filter (operations.agrees equal left right)
        graphs.now) }
{
    let mut kept = Vec::new(alloc);
    for graph in graphs {
        if agrees(graph.as_graph(), equal, left, right) {
            kept.push(graph.copy()?)?;
        }
    }
    Ok(kept)
}

// The state of the graphs in which the sides are as the comparison says: the state itself, where all are.
#[tactic(auto, using(dom_listseg_meaning::proofs::Rising::filter_rises))]
fn kept_where(
    alloc: Global,
    equal: bool,
    left: Option<u32>,
    right: Option<u32>,
    s: &SegmentState,
    graphs: &GraphSet,
) -> Result<SegmentState, Memory>
    requires graphs { s.now ≡ Graphs graphs.now }
    ensures exact { IfOk result (λ t. t ≡ Graphs (filter (operations.agrees equal left right)
        graphs.now)) }
{
    if all_agree(equal, left, right, graphs.as_slice()) {
        return copy_of(s);
    }
    let kept = agreeing(alloc, equal, left, right, graphs.as_slice())?;
    within(alloc, GraphSet::from_rising(kept))
}

/// The state where the sides of a comparison are as it says.
pub fn compared(
    alloc: Global,
    equal: bool,
    left: Option<u32>,
    right: Option<u32>,
    s: &SegmentState,
) -> Result<SegmentState, Memory>
    ensures exact { IfOk result (λ t. t ≡ operations.compare_links equal left right s.now) }
{
    match &s.kept {
        Kept::Top => Ok(top()),
        Kept::Graphs(shared) => kept_where(alloc, equal, left, right, s, shared.as_ref()),
    }
}

/// The state where the condition has this truth value.
#[tactic(auto, unfolding(dom_listseg_meaning::specs::Operations::assume), using(crate::proofs::Assumed::compare_true, crate::proofs::Assumed::compare_false))]
pub fn assumed(
    alloc: Global,
    c: &SlotCond,
    sense: bool,
    s: &SegmentState,
) -> Result<SegmentState, Memory>
    ensures exact { IfOk result (λ t. t ≡ operations.assume c.now sense s.now) }
{
    match c.node() {
        SlotCondNode::Compare(_, _, _) => copy_of(s),
        SlotCondNode::CompareLinks(equal, left, right) => {
            if sense {
                compared(alloc, *equal, *left, *right, s)
            } else {
                compared(alloc, !*equal, *left, *right, s)
            }
        }
        SlotCondNode::Not(c) => {
            if sense {
                assumed(alloc, c, false, s)
            } else {
                assumed(alloc, c, true, s)
            }
        }
        SlotCondNode::And(c, d) => {
            let left = assumed(alloc, c, sense, s)?;
            if sense {
                return assumed(alloc, d, true, &left);
            }
            let right = assumed(alloc, d, false, s)?;
            joined(alloc, &left, &right)
        }
        SlotCondNode::Or(c, d) => {
            let left = assumed(alloc, c, sense, s)?;
            if !sense {
                return assumed(alloc, d, false, &left);
            }
            let right = assumed(alloc, d, true, s)?;
            joined(alloc, &left, &right)
        }
    }
}

//! What is assumed of guards.
ghost use Rattle.std.specs.Prelude.{◌≡◌, IfOk};
ghost use Rattle.dom_octagon_meaning.specs.Operations as operations;

use crate::compare::{compared, opposite_of};
use base_values::Memory;
use dom_octagon_states::{OctagonState, closed, joined};
use imp_slots::{SlotCond, SlotCondNode};
use std::alloc::Global;

/// The state where the condition has this truth value.
#[tactic(auto, unfolding(dom_octagon_meaning::specs::Operations::assume))]
pub fn assumed(
    alloc: Global,
    c: &SlotCond,
    sense: bool,
    s: &OctagonState,
) -> Result<OctagonState, Memory>
    ensures exact { IfOk result (λ t. t ≡ operations.assume c.now sense s.now) }
{
    match c.node() {
        SlotCondNode::Compare(relation, a, b) => {
            if sense {
                compared(alloc, *relation, a, b, s)
            } else {
                compared(alloc, opposite_of(*relation), a, b, s)
            }
        }
        SlotCondNode::CompareLinks(_, _, _) => { if sense { closed(s) } else { closed(s) } }
        SlotCondNode::Not(c) => {
            if sense {
                assumed(alloc, c, false, s)
            } else {
                assumed(alloc, c, true, s)
            }
        }
        SlotCondNode::And(c, d) => {
            if sense {
                let first = assumed(alloc, c, true, s)?;
                return assumed(alloc, d, true, &first);
            }
            let left = assumed(alloc, c, false, s)?;
            let right = assumed(alloc, d, false, s)?;
            joined(alloc, &left, &right)
        }
        SlotCondNode::Or(c, d) => {
            if !sense {
                let first = assumed(alloc, c, false, s)?;
                return assumed(alloc, d, false, &first);
            }
            let left = assumed(alloc, c, true, s)?;
            let right = assumed(alloc, d, true, s)?;
            joined(alloc, &left, &right)
        }
    }
}

//! Statements by their numbers.
ghost use Rattle.std.specs.Prelude.{◌≡◌, if◌then◌else◌, true, ◌||◌, ◌==◌};
ghost use Rattle.imp_slots.specs.Plain.{Stop, code_numbers};
ghost use Rattle.imp_slots.specs.BlockViews.{before_code};
ghost use Rattle.imp_chains.specs.Chains.{has};

use imp_slots::{SlotBlock, SlotNode};

/// Whether a block has a statement of this number, also inside its statements. It takes time linear
/// in the block.
#[cycle(held)]
#[tactic(auto, using(imp_slots::specs::BlockFalls::node_falls, crate::proofs::Numbered::has_step, crate::proofs::Numbered::has_found, crate::proofs::Numbered::has_end))]
pub fn holds(block: &SlotBlock, number: u32) -> bool
    ensures is { result ≡ has number (code_numbers block.now) }
{
    for node in block.statements() {
        if is_held(node, number) {
            return true;
        }
    }
    false
}

#[cycle(held)]
#[tactic(auto, using(crate::proofs::Numbered::has_both))]
fn is_held(node: &SlotNode, number: u32) -> bool
    ensures is { result ≡ has number (code_numbers (before_code node.now Stop)) }
{
    if node.number() == number {
        return true;
    }
    match node {
        SlotNode::If(_, _, then, els) => holds(then, number) || holds(els, number),
        SlotNode::While(_, _, body) => holds(body, number),
        _ => false,
    }
}

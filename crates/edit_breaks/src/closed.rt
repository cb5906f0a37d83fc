//! Blocks in which no call stands, and whose breaks have loops.
ghost use Rattle.std.specs.Prelude.{◌≡◌};
ghost use Rattle.edit_entries.specs.Gaps.{are_closed, closed_at, is_closed};

use imp_syntax::{Block, Stmt, StmtId, StmtNode};

/// Whether no call stands in a block and each break stands in a loop: one of the block, or one around it, if `inside`
/// tells that one is.
#[cycle(closed)]
#[tactic(auto, using(imp_syntax::specs::Blocks::member_smaller, imp_syntax::specs::Blocks::block_rest))]
pub(crate) fn are_closed(inside: bool, block: &Block) -> bool
    ensures is { result ≡ are_closed inside block.now }
{
    for stmt in block.as_slice() {
        if !is_closed(inside, stmt) {
            return false;
        }
    }
    true
}

#[cycle(closed)]
fn is_closed(inside: bool, stmt: &Stmt) -> bool
    ensures is { result ≡ is_closed inside stmt.now }
{
    match stmt.node() {
        StmtNode::Simple(_) => true,
        StmtNode::Break => inside,
        StmtNode::Call(_) => false,
        StmtNode::If(_, then, els) => are_closed(inside, then) && are_closed(inside, els),
        StmtNode::While(_, body) => are_closed(true, body),
    }
}

/// The same at a place, around which this loop is, if one is.
pub fn closed_at(head: Option<StmtId>, block: &Block) -> bool
    ensures is { result ≡ closed_at head block.now }
{
    match head {
        Some(_) => are_closed(true, block),
        None => are_closed(false, block),
    }
}

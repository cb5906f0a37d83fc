//! The ends of blocks that come.
ghost use Rattle.std.specs.Prelude.{◌≡◌};
ghost use Rattle.imp_check.specs.Parts.{first_or, last_or};

use imp_syntax::{Block, StmtId};

/// The first statement of a block, or else what stands after it.
pub(crate) fn first_or(block: &Block, next: Option<StmtId>) -> Option<StmtId>
    ensures is { result ≡ first_or block.now next }
{
    match block.get(0) {
        Some(stmt) => Some(stmt.id()),
        None => next,
    }
}

/// The last statement of a block, or else what stands before it.
pub(crate) fn last_or(block: &Block, front: Option<StmtId>) -> Option<StmtId>
    ensures is { result ≡ last_or block.now front }
{
    match block.get(block.len().saturating_sub(1)) {
        Some(stmt) => Some(stmt.id()),
        None => front,
    }
}

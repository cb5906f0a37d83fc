//! Places in blocks where statements come, or from which a statement goes.
use base_values::Items;
use imp_check::Context;
use imp_syntax::StmtId;

/// A place in a block where statements come: between two of it, where a statement may go.
#[derive(Drop)]
pub struct Gap {
    /// The block.
    pub context: Context,
    /// The statement before.
    pub front: Option<StmtId>,
    /// The statement after.
    pub next: Option<StmtId>,
    /// The statement that goes, between the two, and those inside it; none is a call.
    pub gone: Items<StmtId>,
}

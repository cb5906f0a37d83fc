//! What is known of a statement by its number, and of a procedure by its place.
use base_values::Items;
use imp_slots::{Layout, SlotCall, SlotCond, SlotStmt};
use imp_syntax::{Proc, ProcId, Stmt, StmtId};

/// A statement of a checked program, and where it stands. It holds none of the statements inside it, so a change of a
/// block leaves the entries of the statements around it, but where the ends of the block or the breaks of a loop change.
#[derive(Drop)]
pub struct Entry {
    /// Its number.
    pub number: StmtId,
    /// The statement, with its blocks empty.
    pub part: Stmt,
    /// What it does, over slots.
    pub form: SlotForm,
    /// The block that it stands in.
    pub context: Context,
    /// The statement before it in its block.
    pub front: Option<StmtId>,
    /// The statement after it in its block.
    pub next: Option<StmtId>,
    /// The ends of the first block of an if, or of the body of a while.
    pub inner: BlockEnds,
    /// The ends of the second block of an if.
    pub other: BlockEnds,
    /// Of a while, the breaks that leave it, in the order of the text.
    pub breaks: Items<StmtId>,
}

/// What a statement does, over slots.
#[derive(Drop)]
pub enum SlotForm {
    /// A simple statement but a call.
    Stmt(SlotStmt),
    /// The condition of an if or while.
    Cond(SlotCond),
    /// A call, and its callee.
    Call(SlotCall, ProcId),
}

/// A block inside a statement.
#[derive(Clone, Copy, Debug, PartialEq, Eq)]
pub struct Around {
    /// The if or while.
    pub stmt: StmtId,
    /// Which of its blocks.
    pub which: Which,
}

/// Which block of a statement.
#[derive(Clone, Copy, Debug, PartialEq, Eq)]
pub enum Which {
    /// The first block of an if.
    Then,
    /// The second block of an if.
    Else,
    /// The body of a while.
    Body,
}

/// Where the statements of a block stand.
#[derive(Clone, Copy, Debug, PartialEq, Eq)]
pub struct Context {
    /// Their procedure.
    pub proc: ProcId,
    /// The block that they make, or `None` for the procedure's own.
    pub around: Option<Around>,
    /// The innermost loop of the procedure around them.
    pub head: Option<StmtId>,
    /// How many blocks of the procedure are around them, but its own.
    pub depth: u32,
}

/// The first and the last statement of a block, where it has any.
#[derive(Clone, Copy, Debug, PartialEq, Eq)]
pub struct BlockEnds {
    pub first: Option<StmtId>,
    pub last: Option<StmtId>,
}

/// A procedure of a checked program, without its statements.
#[derive(Drop)]
pub struct ProcHeader {
    /// The procedure with an empty body.
    pub bare: Proc,
    /// Its variables as slots.
    pub layout: Layout,
    /// The ends of its body.
    pub body: BlockEnds,
}

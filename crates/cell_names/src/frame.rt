//! Frames and points.
use imp_syntax::StmtId;
use std::alloc::Global;
use std::default::MadeWith;

/// A part of a path.
#[derive(Clone, Copy, Debug, PartialEq, Eq, Hash)]
pub enum NameFrame {
    /// Into the procedure that a call statement calls.
    InCall(StmtId),
    /// Into the body of a loop, from its iterate of this index, counted from 0.
    InLoop(StmtId, u32),
}

/// What stands at the places of a short list that are free.
impl MadeWith<Global> for NameFrame {
    #[inline]
    fn made_with(_alloc: Global) -> NameFrame {
        NameFrame::InCall(StmtId::new(0))
    }
}

/// A point of a block, where a cell has a value.
#[derive(Clone, Copy, Debug, PartialEq, Eq, Hash)]
pub enum Point {
    /// The start of a procedure's body.
    Entry,
    /// The start of an if's then block.
    Then(StmtId),
    /// The start of an if's else block.
    Else(StmtId),
    /// The start of a loop's body.
    Body,
    /// After a statement.
    Post(StmtId),
    /// An iterate of a loop, counted from 1. Iterate 0 is the point before the loop.
    Iterate(StmtId, u32),
    /// Where the iterates of a loop stop.
    Fix(StmtId),
    /// After a loop with breaks of its own, from its condition alone.
    Exit(StmtId),
    /// The same joined with what leaves the loop by its breaks up to this one, which is not its last: the
    /// loop, and the break.
    Leap(StmtId, StmtId),
}

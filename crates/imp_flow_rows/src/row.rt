//! The row of a cell's name: the operation, and the names of its inputs.
ghost use Rattle.std.specs.Prelude.{◌≡◌, List, option_map};
ghost use Rattle.imp_flow_rows.specs.Near.{PathFrame};
ghost use Rattle.imp_flow_rows.specs.Near.{input_name, row_in};
ghost use Rattle.imp_flow_rows.specs.NodeRows.{iterate_at};
ghost use Rattle.imp_flow_rows.specs.Inputs.{first_of, second_of, iterate_of, break_of};

use crate::input::Input;
use cell_names::{NameFrame, Point};
use imp_slots::{Layout, SlotCall, SlotCond, SlotStmt};
use imp_syntax::StmtId;

/// An operation on one value.
#[derive(Clone, Copy, Drop)]
pub enum Unary<'a> {
    /// What a simple statement does.
    Post(&'a SlotStmt),
    /// The condition has this truth value.
    Assume(&'a SlotCond, bool),
    /// Into the procedure that is called.
    Enter(&'a SlotCall),
    /// The condition does not hold, after a loop with breaks of its own. The loop's index stays.
    Exit(&'a SlotCond),
}

/// An operation on two values.
#[derive(Clone, Copy, Drop)]
pub enum Binary<'a> {
    Join,
    /// Back from a call: of the value before it, and the one after the callee's body.
    Leave(&'a SlotCall),
    /// Widening at these thresholds: of an iterate, and what the body makes of it.
    Widen(&'a [i64]),
}

/// How the value of a name is computed, and from which names.
#[derive(Clone, Copy, Drop)]
pub enum Row<'a> {
    /// The start of main, with its variables.
    Init(&'a Layout),
    One(Unary<'a>, Input),
    Two(Binary<'a>, Input, Input),
    /// Where the iterates of the loop stop, and the point before the loop, the first of them.
    Fixed(StmtId, Point),
    /// After a loop with breaks: whether the loop's index stays, the point of the left input, the loop, and the
    /// point before a break in the loop's last round, the right input.
    Joins(bool, Point, StmtId, Point),
}

impl<'a> Row<'a> {
    /// The first input: of a fixed point the iterate 0, of a join after a loop with breaks the left one; none of `Init`.
    #[inline]
    pub fn first(&self) -> Option<Input>
        ensures is { (w : List PathFrame) → option_map (input_name w) result ≡
            first_of (row_in w self.now) }
    {
        match self {
            Row::Init(_) => None,
            Row::One(_, a) => Some(*a),
            Row::Two(_, a, _) => Some(*a),
            Row::Fixed(_, front) => Some(Input::here(*front)),
            Row::Joins(_, left, _, _) => Some(Input::here(*left)),
        }
    }

    /// The second input of an operation on two values.
    #[inline]
    pub fn second(&self) -> Option<Input>
        ensures is { (w : List PathFrame) → option_map (input_name w) result ≡
            second_of (row_in w self.now) }
    {
        match self {
            Row::Two(_, _, b) => Some(*b),
            _ => None,
        }
    }

    /// The iterate of an index, of a fixed point.
    #[inline]
    pub fn iterate(&self, index: u32) -> Option<Input>
        ensures is { (w : List PathFrame) → option_map (input_name w) result ≡
            iterate_of index (row_in w self.now) }
    {
        match self {
            Row::Fixed(head, front) => Some(Input::here(iterate_at(*head, *front, index))),
            _ => None,
        }
    }

    /// The right input of a join after a loop with breaks, where the loop's index is this.
    #[inline]
    pub fn before_break(&self, index: u32) -> Option<Input>
        ensures is { (w : List PathFrame) → option_map (input_name w) result ≡
            break_of index (row_in w self.now) }
    {
        match self {
            Row::Joins(_, _, head, front) => {
                Some(Input::inside(NameFrame::InLoop(*head, index), *front))
            }
            _ => None,
        }
    }
}

/// The iterate of an index, of a loop after a point.
#[inline]
pub(crate) fn iterate_at(head: StmtId, front: Point, index: u32) -> Point
    ensures is { result ≡ iterate_at head front index }
{
    if index == 0 {
        front
    } else {
        Point::Iterate(head, index)
    }
}

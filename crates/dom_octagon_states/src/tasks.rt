//! What is closed, and how a width does it.
ghost use Rattle.std.specs.Prelude.{IfOk};
ghost use Rattle.dbm_narrow.specs.Closed.{ClosingLeavesIf};
ghost use Rattle.dom_octagon_states.specs.Tasks.{CanDo, DoesIf};

use base_values::Memory;
use dbm_incremental::Bound;
use dbm_narrow::{Closing, Narrow, Width};
use std::alloc::Global;

/// What is closed.
#[derive(Clone, Copy)]
pub(crate) enum Task<'a> {
    /// The matrix.
    Any,
    /// The matrix, which obeys the triangle law.
    Whole,
    /// The matrix, closed and whole, with these bounds lowered.
    Lowered(&'a [Bound]),
    /// The matrix, closed and whole, in which a slot is made a node of another slot plus a number.
    Equated(usize, usize, i128),
    /// The matrix, closed and whole, in which a slot stands for a node plus a number.
    Stood(usize, usize, i128),
}

/// Closes it by entries of a width.
pub(crate) fn close_by<W: Width>(
    alloc: Global,
    m: &Narrow<W>,
    task: Task<'_>,
) -> Result<Closing<W>, Memory>
    requires can { CanDo m.now task }
    ensures does { IfOk result (DoesIf m.now task.entry) }
    ensures total { IfOk result (ClosingLeavesIf W.checked) }
{
    let _kinds = m.kinds();
    match task {
        Task::Any => dbm_narrow::close(alloc, m),
        Task::Whole => dbm_narrow::close_whole(alloc, m),
        Task::Lowered(bounds) => dbm_narrow::close_after_bounds(alloc, m, bounds),
        Task::Equated(q, y, c) => dbm_narrow::close_equation(alloc, m, q, y, c),
        Task::Stood(q, y, c) => dbm_narrow::close_carried(alloc, m, q, y, c),
    }
}

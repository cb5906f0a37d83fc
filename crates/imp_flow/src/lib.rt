//! The flow of a checked program: from what each cell is computed, looked up by the number of one statement.
//!
//! A cell has a name, a path and a point of the block that the path leads to (`cell_names`). Its *row* is its
//! operation and its inputs, left to right ([`imp_flow_rows::Row`]). [`Flow::row`] reads the row of a name off the program's
//! table of statements (`imp_table`), by the last frame of its path and its point, and follows no path: it looks up the
//! statement of the point, and the statement's node ([`imp_flow_rows::Node`]) tells the row. `flat_row` of crate `cell_rows` is
//! what it answers, exactly. [`inputs_are_asked`] ties the inputs of rows to the machine of demands.
//!
//! [`targets`] gives what a query demands at a location under a call string: for each chain the loops and calls on
//! the way, and a last point.
//!
//! [`points_changed`] compares a program with that which a change makes of it: it gives the statements with a point that
//! the new program lacks, or has another row for. It looks at what the change touches and not at the whole program. A
//! procedure more or less is no change to the others ([`procedures_shift_no_rows`]).
//!
//! A [`Flow`] is a program as it is read and its setting, both lent: it is made in constant time. A row takes constant time
//! and no memory.
#![tactic(auto)]

mod changed;
mod flow;
mod laws;
mod nodes;
mod search;
mod shifts;
mod steps;
mod ways;

pub use flow::Flow;
pub use laws::inputs_are_asked;
pub use search::points_changed;
pub use shifts::procedures_shift_no_rows;
pub use steps::{Target, TargetStep};
pub use ways::{target, targets};

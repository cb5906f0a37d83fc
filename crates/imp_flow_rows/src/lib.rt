//! What row each cell of a program has: the operation and the inputs from which it is computed.
//!
//! A cell has a name, a path and a point of the block that the path leads to (`cell_names`). The row of a name is told by
//! its last frame, its point, and what the points' rows need of one statement, its *node* ([`Node`]): each part of that is
//! read off the program's table (`imp_check`) when it is asked for, of the statement, of the breaks that leave it, and of the
//! last statement of its callee, in constant time and without memory. `specs/NodeRows.antt` says what the rows of a node
//! are, and `specs/Entered.antt` what the node is.
//!
//! A row's inputs are relative to the path of its name ([`Input`]), and [`Input::name`] gives them their numbers. Inputs that
//! are known only by values found before are asked of the row one by one: [`Row::iterate`] for a fixed point,
//! [`Row::before_break`] for a join after a loop with breaks, in the loop's last round.
#![tactic(auto)]

mod input;
mod node;
mod row;
mod rows;

pub use input::{Input, Way};
pub use node::{Leave, Leaves, Node, Shape, behind_or};
pub use row::{Binary, Row, Unary};
pub use rows::{
    before_iterate, before_post, branch_row, enter_row, exit_row, fix_row, leap_row, next_row,
    post_row, turn_row,
};

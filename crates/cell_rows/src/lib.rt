//! What the cells of a program are computed from, and that they hold what batch interpretation gives.
//!
//! A *name* is a path and a point (`cell_names`). Its *row* is its operation and its inputs, left to right
//! (`specs/Rows.antt`). Two readings of a program give rows: one follows the name's path through calls and
//! rounds of loops and gives each point also a rank and a value (`specs/Names.antt`, one traversal over an
//! algebra, so that names, rows and values cannot disagree); the other looks a row up by the number of one
//! statement alone (`specs/Flat.antt`), which is what code does. A loop's fixed point asks for its iterates
//! one at a time; a join after a loop with breaks asks for the value before a break in the loop's last
//! round (`specs/Cells.antt`).
//!
//! The functions do nothing when they run; each carries its theorem as its clauses, for the crates that
//! demand, keep and remove cells.
#![tactic(auto)]

mod laws;

pub use laws::{answers_are_read, rows_are_by_number, rows_give_values};

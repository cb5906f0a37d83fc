//! What an edit takes away of the cells: exactly those that it empties.
//!
//! An edit exchanges a program, and the cells of a graph may no longer be right. [`plan`] finds those that are not: of
//! the cells that belong to changed statements it takes those whose own row is changed ([`same_rows`]), and then, along
//! the graph's dependents, all that are computed from them. It takes all memory, and changes nothing. `commit` of crate
//! `cell_removal` takes the planned cells away, each after those that use it; it takes no memory and cannot fail.
//!
//! What is left are exactly the kept cells of the edit (`IsKept` of crate `cell_kept_set`), and they are cells of the new
//! program ([`plans_leave_kept`]). Of a cell that is taken away only because of its inputs the row is kept, so its value
//! is right again wherever they get their old values ([`untouched_keep_rows`]).
//!
//! All takes time in proportion to the cells that are taken away, their inputs, and the cells of the changed statements.
#![tactic(auto)]

mod compare;
mod laws;
mod planning;
mod touching;

pub use compare::same_rows;
pub use laws::{plans_leave_kept, untouched_keep_rows};
pub use planning::{Emptying, plan};

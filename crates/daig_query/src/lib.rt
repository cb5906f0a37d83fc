//! The engine of demands: it fills exactly the missing cells of a query, and answers from cells.
//!
//! An [`Engine`] keeps a graph of cells, their names, and a table of states; a cell holds a state's number, or an Over.
//! It has no program: each call is lent the program's `Flow`. A demand for some targets fills the cells that these need
//! and that are not kept, depth first, each after its inputs from left to right, on an explicit stack. [`Walk`] is how
//! far a demand has come; it stays good while cells are only added, so a demand may be advanced a few cells at a time.
#![tactic(auto)]

mod advance;
mod answer;
mod compute;
mod engine;
mod held;
mod inputs;
mod laws;
mod names_sweep;
mod opening;
mod operation_table;
mod operations;
mod revalidation;
mod stale;
mod store;
mod sweep;
mod turning;
mod walk;

pub use advance::Progress;
pub use engine::Engine;
pub use held::Held;
pub use laws::{cells_stay_right, demands_add_up, walks_stay_good};
pub use names_sweep::NewNames;
pub use walk::Walk;

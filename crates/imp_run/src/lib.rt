//! The interpreter: runs of a checked program, step by step.
//!
//! [`run`] makes the steps of `concrete_sem` one after another, at most as many as it is allowed, and
//! says how the run ends and how many of its configurations stood at a location. Its clause says that
//! this is `run_from` of `concrete_sem`, exactly.
//!
//! A configuration is kept as the heap's cells, and frames with their variables and their work. Work
//! is a stack of items that borrow the statements, so a step takes the time of what it evaluates, and
//! nothing of the size of the program. The elements of arrays are shared by assignment and passing,
//! and copied where they are written while they are shared.
#![tactic(auto)]

mod actions;
mod elements;
mod evaluation;
mod halt;
mod machine;
mod passing;
mod running;
mod slots;
mod store;
mod work;

pub use imp_words::RunEnd;
pub use running::{RunResult, run};

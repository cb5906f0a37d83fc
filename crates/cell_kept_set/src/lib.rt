//! What an edit leaves of the cells: exactly those that are not touched and lead to nothing touched.
//!
//! A name is *touched* where the new program lacks it, or has another operation or other inputs there
//! (`specs/Touched.antt`). The kept set is the cells that are not touched and from which no path of old inputs
//! leads to a touched name. Where statements keep their places from one program to the other
//! (`specs/Places.antt`), each cell is told by its own row by number alone.
//!
//! The same as a function is a test of each name, by the two programs and the names that were kept
//! (`specs/KeptTest.antt`). It goes down the inputs of a name: a name stays where it had a cell, where the new program has it
//! with the same operation and the same inputs, and where each of its inputs stays. So the machine that has names alone can
//! be a function.
//!
//! The functions do nothing when they run; each carries its theorem as its clauses.
#![tactic(auto)]

mod deciding;
mod laws;

pub use deciding::kept_is_decided;
pub use laws::{kept_is_right, plans_are_exact, rows_tell_kept};

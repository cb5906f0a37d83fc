//! The machine that a session with a program is, over plain data.
//!
//! A [`Machine`] holds the present program, the programs before it and after it, numbers, open tickets, and the names of
//! the cells that are kept: no state of a domain (`specs/Machine.antt`). Each answer comes from interpreting the present
//! program from scratch, and what each request makes of the machine is a function (`specs/Turns.antt`).
//!
//! The functions do nothing when they run; each carries its theorem as its clauses: the kept names are always cells of the
//! present program, closed under its inputs, each once, and what an edit leaves of them is the kept set of the edit.
//!
//! [`Machine`]: specs/Machine.antt
#![tactic(auto)]

mod laws;
mod question;

pub use laws::{edits_are_undone, moves_keep_cells, questions_keep_cells};
pub use question::Question;

//! What is kept helps: more kept cells never make a question longer.
//!
//! What is missing for a demand over more kept names is what was missing before, without the names that are kept now, in
//! the same order. So whatever questions, reports, steps and runs stand in between, a question or a report fills no more
//! cells after them than it would have filled before, and a step of a ticket that they leave pending was pending without
//! them (`specs/Shorter.antt`). So it is at each moment of each script: at each the kept names are cells of the present
//! program, closed under its inputs.
//!
//! The functions do nothing when they run; each carries its theorem as its clauses.
#![tactic(auto)]

mod laws;

pub use laws::{kept_names_help, questions_get_no_longer};

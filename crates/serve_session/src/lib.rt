//! The lines of a session: each is read, turned to a call of the session, and replied.
//!
//! [`answer_line`] writes what the machine of `serve_answers` replies (`line_turn`), and the session then stands for the
//! machine after it. On a line that fills no cells the reply is made first, and the session is changed only then by what
//! cannot fail: so after memory ran out it is as it was. On a question, a report or a step some of what is missing may be
//! filled.
#![tactic(auto)]

mod answer;
mod edits;
mod questions;
mod tickets;
mod told;
mod written;

pub use answer::answer_line;

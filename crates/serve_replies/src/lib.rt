//! The parts of replies that need no session: why lines, texts and programs are refused, runs, programs as texts, and
//! states as texts.
//!
//! A session and a server that interprets a program from scratch reply alike: what a refusal is named, how a run is told
//! and how a state is written down are said here, once. A part is a function of plain data, by the definition of its name
//! in `specs/`: `Names` and `Refusals` of faults, `Runs`, `States` and `Texts`. `Readings` says what the reading of a text
//! is, of which there is one.
//!
//! Each part takes time linear in what it tells, and fails only when memory runs out.
#![tactic(auto)]

mod refusals;
mod runs;
mod states;
mod texts;

pub use refusals::{fault_refusal, line_refusal, text_refusal};
pub use runs::asked_run;
pub use states::{numbers_of, over_reply, state_reply};
pub use texts::{listing, long_line, program_reply};

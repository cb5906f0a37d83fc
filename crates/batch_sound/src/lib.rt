//! That batch interpretation covers every run, for every domain, from its laws.
//!
//! [`answers_are_sound`] says so of answers, [`reports_are_sound`] of reports. The functions do nothing
//! when they run; each carries its theorem as its clause, for the crates that answer.
//!
//! The proof follows runs step by step. Each frame of a configuration stands at a place of its
//! procedure, and what is left of its work fits the value before it: the value of each statement
//! is that of `spots`, each loop's head is above the value before the loop and above what its body
//! gives, and breaks go to the value after their loop. Each lower frame remembers a configuration at
//! its call that the value there described.
#![tactic(auto)]

mod sound;

pub use sound::{answers_are_sound, reports_are_sound};

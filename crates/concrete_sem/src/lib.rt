//! The meaning of programs: values, configurations, steps and runs.
//!
//! A *configuration* is a heap with the inputs left, and frames. A *frame* is a procedure, its
//! variables and its work. The item on top of the last frame's work decides the one *step*: a next
//! configuration, a fault at a statement, an input wanted there where none is left, or none where main
//! is done. A *run* is a sequence of steps from main's first configuration under some inputs. A run
//! *reaches* a location under a call string where it comes to a configuration that stands there, with
//! call sites of which the string is a suffix.
//!
//! Terms and guards are evaluated from left to right, and `&&` and `||` stop early: `value_of` and
//! `truth_of` of `specs/Evaluation.antt`. What simple statements do is `effect_of` of
//! `specs/Effects.antt`, what calls pass and take back is in `specs/Passing.antt`, configurations and
//! `step` are in `specs/Steps.antt`, `run_from` in `specs/Runs.antt`, `Reach` in `specs/Reach.antt`.
//! Definitions are total: a slot that is not there holds 0, no elements or null.
//!
//! `specs/WellFormed.antt` says what a well-formed configuration is. Of those there are laws
//! ([`steps_are_determined`]): each that is not ended has exactly one step, and a step keeps
//! well-formedness. The functions here do nothing when they run; each carries laws as its clauses.
#![tactic(auto)]

mod laws;

pub use imp_words::FaultKind;
pub use laws::{steps_are_determined, steps_keep_data, work_is_items};

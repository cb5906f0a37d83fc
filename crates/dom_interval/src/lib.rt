//! Intervals: for each int the range of its value, and for each array the range of its length.
//!
//! A state is `Empty`, which describes nothing, or a range for each numeric slot of the last frame.
//! What the operations are, and that they have the laws of a domain, stands in `dom_interval_meaning`;
//! the code here computes exactly these operations.
//!
//! An operation takes time linear in the slots and in the statement or condition, and one copy of
//! the state; widening an end that is passed goes through the thresholds once. A condition with `&&` or
//! `||` takes a further copy for each join.
#![tactic(auto)]

mod calls;
mod compare;
mod domain;
mod evaluate;
mod guards;
mod portable;
mod state;
mod statements;
mod text;
mod verdicts;
mod widening;

pub use dom_interval_meaning::SlotRange;
pub use domain::Interval;
pub use state::IntervalState;

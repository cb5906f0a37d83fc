//! The report of faults of a program, from batch answers.
//!
//! [`fault_report`] gives a verdict for each statement and each kind of fault that its evaluation has points
//! of (`fault_points`): in preorder, of one statement in the order in which the kinds come. `fault_verdicts` says what
//! each is, and what they say of runs.
//!
//! Each statement that has points is answered from scratch, so the time is that of as many batch answers.
#![tactic(auto)]

mod collect;
mod report;

pub use report::fault_report;

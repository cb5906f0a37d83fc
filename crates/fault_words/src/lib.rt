//! The words for what is found of faults.
//!
//! A [`FaultFinding`] is of one statement and one kind of fault. [`with_verdict`] picks those of one verdict.
#![tactic(auto)]

mod finding;
mod picking;

pub use finding::{FaultFinding, FaultFindings, FaultVerdict};
pub use picking::with_verdict;

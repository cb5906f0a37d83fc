//! The words in which programs are spoken of: what is found of checks, how runs end, why a question
//! has no answer.
//!
//! Whoever interprets or runs a program answers in these words, and whoever writes an answer down
//! takes them as they are. They are plain data: two values are equal where they look equal.
#![tactic(auto)]

mod fault;
mod findings;
mod refusal;
mod run_end;
mod verdict;

pub use fault::FaultKind;
pub use findings::{Check, Finding, Findings};
pub use refusal::QueryRefusal;
pub use run_end::RunEnd;
pub use verdict::Verdict;

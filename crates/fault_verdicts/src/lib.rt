//! What is found of the faults of a statement.
//!
//! [`add_findings`] gives a verdict for each kind of fault that the evaluation of a statement has points of
//! (`fault_points`), in the order in which the kinds come. A point is judged by the state where the statement
//! evaluates, a loop's condition at its head: the domain is asked what it says of an assertion of the point's claim, and
//! of an assertion of its opposite. So every domain answers, by what it knows of comparisons.
//!
//! `safe`: no run ends with that fault at that statement. `dead`: no run comes there. `fails`: no run that comes
//! there goes on. Every fault with which a run ends is told as `may` or `fails`; so where no verdict is one of these,
//! no run of the program ends with a fault (`specs/Theorem.antt`).
#![tactic(auto)]

mod findings;
mod known;
mod sound;
mod statement;
mod verdicts;

pub use findings::add_findings;
pub use known::Known;
pub use sound::faults_are_sound;
pub use statement::Evaluated;

//! Batch interpretation: answers and reports of a checked program, from nothing.
//!
//! [`answer`] gives what a domain knows at a location under a call string, [`batch_report`] a verdict
//! on each statement that has a check. Both are exactly the definitions of `batch_meaning`, and both
//! describe every run: a state that is answered covers each configuration that stands there, and a
//! finding of safe or dead holds of all runs. [`loop_heads`] gives what is known at the heads of all loops
//! under all chains, with all frames. A [`CallFrame`] and the steps of simple statements, of breaks and of joins serve
//! whatever else goes through blocks as batch interpretation does.
//!
//! An answer follows each selected chain from `main`: the statements before a call are
//! interpreted, the callee is entered, and so on to the statement that is asked for. Nothing is kept
//! from one answer to the next.
//!
//! Reports and heads come from one walk over the calls. The procedures are taken from main down, and each
//! body is walked once under each chain to it, in the order of the chains. A walk hands down what is known
//! before the bodies that its calls enter; that is held until their procedures have been walked, so at
//! most one state for each chain of the program is held at a time. On the way through a body the procedures
//! that it calls are interpreted too. What a procedure gives from a state before its body does not depend on
//! the chain, as long as it is a state: an Over names its chain. So it is remembered, for at most 1,024
//! procedures and states, and where the same procedure is entered with the same state again, under whatever
//! chain, its body is not interpreted anew.
#![tactic(auto)]

mod answering;
mod befores;
mod blocks;
mod calls;
mod claim;
mod error;
mod findings;
mod frames;
mod gather;
mod heads;
mod pieces;
mod remembered;
mod reporting;
mod single;
mod spots;
mod sums;
mod totals;
mod value;
mod values;
mod walks;

pub use answering::answer;
pub use error::QueryError;
pub use frames::CallFrame;
pub use heads::{LoopHead, LoopsUnder, loop_heads};
pub use reporting::batch_report;
pub use single::{behind_action, behind_break, joined_states};
pub use value::Answer;

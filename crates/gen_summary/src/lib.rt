//! The summary of a script that was answered: how many replies there are of each kind, and what its states cost.
//!
//! Each reply is added to a [`ReplyTally`] by the line that was written for it; the members of a reply are in the order of
//! their keys, so how the line begins tells which reply it is (`specs/Summary.antt`).
#![tactic(auto)]

mod kind;
mod tally;

pub use kind::ReplyKind;
pub use tally::ReplyTally;

//! A reply is one line, and each line has one reply.
//!
//! The text of a reply is JSON without spaces, in which LF is escaped, and LF after it (`specs/OneLine.antt`). So the
//! replies to some lines are as many lines, each with its end, whatever the lines are (`specs/Replied.antt`): who sends a
//! line reads one.
//!
//! A reply that refuses says that the machine stays, or that a ticket whose question is gone was closed (`specs/Refused.antt`).
//!
//! The functions do nothing when they run; each carries its theorem as its clause.
#![tactic(auto)]

mod laws;

pub use laws::{each_line_has_one_reply, refusals_keep, replies_are_lines};

//! Writing certificates: the state at the head of each loop of a program under each chain, as lines.
//!
//! [`certificate`] gives exactly the lines of `certificate` of `cert_lines`: the procedures in the order of the text,
//! the chains to a procedure in their order, its loops in preorder, each with the state of all frames that batch
//! interpretation has at its head; or, where a loop used up its budget, the first such line alone. What it writes holds
//! where joins and widenings are above both sides by the domain's order (`cert_complete`).
//!
//! The heads of all loops come from one walk over the calls (`loop_heads` of `batch_interp`). Their states are held until
//! their lines are written: as many as the certificate has lines.
#![tactic(auto)]

mod lines;
mod writing;

pub use writing::certificate;

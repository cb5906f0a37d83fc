//! List segments: which lists the link variables name, and what they share (after Distefano, O'Hearn and Yang, "A Local
//! Shape Analysis Based on Separation Logic", TACAS 2006).
//!
//! A state is `Top`, of which nothing is known, or at most 64 folded graphs of which one covers, each once and in their
//! order; no graph at all describes nothing. What the operations are, and that they have the laws of a domain, stands in
//! `dom_listseg_meaning`; the code here computes exactly these operations.
//!
//! An operation that changes links makes one graph or two of each graph, folds them in time linear in their slots and
//! nodes except what `fold` says, and puts each in its place among the graphs so far, by going through these; a graph
//! that it leaves as it is is shared, and not folded. A comparison of links goes through the graphs once, and again to
//! share those that it keeps. A join goes through both sets once, and again where the right one adds graphs. Copies of
//! a state share its set; where a statement changes no link, a comparison holds in all graphs, or a join adds none to
//! the left ones, the state that comes is such a copy.
#![tactic(auto)]

mod assumptions;
mod calls;
mod domain;
mod portable;
mod sets;
mod state;
mod statements;
mod steps;
mod targets;
mod text;
mod verdicts;

pub use domain::ListSeg;
pub use state::SegmentState;
pub use statements::behind;

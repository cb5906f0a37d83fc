//! List segments as words, and their order: `specs/Words.antt`.
//!
//! A state's text is `0` where it is Empty, `2` where it is Top, else `1`, the number of graphs, and for
//! each graph the target of each slot, 0 for nil, the number of nodes, and for each node 0 for One or 1 for
//! Seg, and its target. The text of a state is taken back, and refused exactly where no state that fits has
//! it: words are read leniently, and what is told of the state is compared with them. The order looks for
//! each graph among the right ones. States are given here by their graphs, none for Top. Putting takes time
//! linear in the graphs, taking that and the time of folding them, and comparing that of comparing each
//! pair of graphs.
#![tactic(auto)]

mod graphs;
mod laws;
mod order;
mod parts;
mod read;
mod write;

pub use laws::{segments_are_portable, segments_have_upper_bounds};
pub use order::leq;
pub use read::take;
pub use write::put;

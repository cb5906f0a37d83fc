//! Folded graphs that lists share, and sets of them.
//!
//! A [`FoldedGraph`] is folded by its type, and its copies share one graph. A [`GraphSet`] has its graphs in their order,
//! each once, by its type. What it is to put a graph into a list, and what the union of two lists is, stands in
//! `specs/Sets.antt` of `dom_listseg_meaning`, for all lists; of sets the union is their merge.
//!
//! A graph that goes into a set is shared with those that have it. Where one is put is searched by halves; a union, and
//! the test whether it would add any, go through both sets once.
#![tactic(auto)]

mod folded;
mod merging;
mod set;

pub use folded::FoldedGraph;
pub use set::GraphSet;

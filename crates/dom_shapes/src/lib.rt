//! Shapes: list segments with one graph a shape.
//!
//! A state is one of list segments (`dom_listseg`) in which no two graphs have the same shape: the same targets of slots,
//! and the same successors of nodes. Two graphs of one shape become one, in which a node is `seg` where it is in either.
//! So states stay small where lists grow, and there are hardly ever more graphs than a state keeps. What the operations
//! are, and that they have the laws of a domain, stands in `dom_shapes_meaning`; the code here computes exactly these
//! operations.
//!
//! An operation costs what that of list segments costs, and then compares the graphs with each other by their shapes. A
//! graph that stays is shared. Where no two graphs have one shape, the state of list segments is the state. A join whose
//! right side allows nothing new is a copy of its left side, which shares its graphs.
#![tactic(auto)]

mod domain;
mod graphs;
mod sets;
mod statements;

pub use domain::Shapes;

//! That every generated source is a program without faults.
//!
//! [`sources_are_accepted`] does nothing when it runs; its clauses say so of each seed and size, for the
//! crates that generate: the text has a tree by the grammar, within its budgets, and the checker finds no
//! fault in it. `specs/Trees.antt` has the tree.
#![tactic(auto)]

mod laws;

pub use laws::sources_are_accepted;

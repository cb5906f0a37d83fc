//! What an engine that demands cells rests on: the order in which a query asks for cells, what its answer is,
//! what a report costs, and which cells carry a loop's index.
//!
//! A query's *targets* ask for cells one at a time. A *walk* is what code keeps between two of them: the path
//! so far and what is left of the targets (`specs/Walks.antt`). What is found at the targets is shed and joined
//! from left to right, up to the first Over. A report makes the demands of its checked statements in turn
//! (`specs/Reports.antt`).
//!
//! A cell holds a value with an index: a fixed point its loop's, which what leaves the loop by a break needs to
//! find its last round. Only fixed points, exits and leaps carry one; so the iterates of a loop are compared by
//! the numbers of their cells' contents (`specs/Indices.antt`). They are asked for, and the fixed point found, by
//! the last two alone (`specs/Stops.antt`).
//!
//! The functions do nothing when they run; each carries its theorem as its clauses.
#![tactic(auto)]

mod laws;

pub use laws::{
    answers_are_joined, demands_are_walked, indices_stay, iterates_stop, reports_fill_union,
    rows_are_a_machine,
};

//! Octagons: bounds on the values of ints and the lengths of arrays, on their sums and differences.
//!
//! A state is nothing, or a matrix of bounds on at most 16 slots. Its operations are exactly the
//! definitions of `dom_octagon_meaning`, whose laws are those of a domain. The domain is that of A. Miné,
//! "The Octagon Abstract Domain", 2006.
//!
//! The states are those of `dom_octagon_states`, which closes each once. What an operation makes of a
//! closed matrix is closed in quadratic time. Closed whole are what it makes of one from which closing has
//! cut a bound that a walk still needs, and what making an array by its own old length leaves.
#![tactic(auto)]

mod added;
mod assign;
mod calls;
mod compare;
mod domain;
mod evaluate;
mod guards;
mod indices;
mod matrices;
mod portable;
mod returns;
mod statements;
mod text;
mod verdicts;

pub use domain::Octagon;

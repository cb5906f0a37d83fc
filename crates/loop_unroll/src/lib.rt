//! How far a loop is unrolled.
//!
//! The iterates of a loop are cells of a graph, asked for one after another from iterate 0 on. They stop at the first
//! index at which the iterate is an Over, or is the same state as the one before it, or at which the budget is used up,
//! tried in this order (`specs/Iterates.antt`). Each function is lent the cells of the iterates so far, of which none
//! but the last may be where they stop, and looks at the last two alone: it takes constant time, and no memory, and
//! builds no name.
#![tactic(auto)]

mod stage;
mod unroll;

pub use unroll::{converged, next_wanted, over};

//! States of the octagons: closed once, joined, widened, and compared.
//!
//! A state is nothing, or a matrix of bounds on at most 16 slots. By the definitions of `dom_octagon_meaning` each operation
//! closes the states that it is given, and its result, which takes time cubic in the slots. Here a state is closed once:
//! [`closure`] gives the closed matrix of a state, and [`close_kept`], [`close_after_bounds`], [`close_equation`] and
//! [`close_stood`] close in quadratic time what an operation makes of a closed matrix. Bounds that hold anyway change nothing.
//! Only what widening gives is closed whole, and what an operation makes of a matrix from which closing has cut a bound that a walk
//! still needs ([`is_whole`]). Widening keeps its left matrix as it is: else loops need not come to an end.
//!
//! A matrix takes four bytes an entry where its bounds fit these, else sixteen (`dbm_narrow`), and copies share their entries.
#![tactic(auto)]

mod bounds;
mod close;
mod closing;
mod joins;
mod kept;
mod operations;
mod state;
mod tasks;
mod transitive;

pub use bounds::{Bounds, bounds_of, matrix_of_bounds};
pub use close::{bounded, closed, closed_copy, closure, copy_of, empty, is_empty, widened_to};
pub use closing::{close_after_bounds, close_equation, close_kept, close_stood, closed_matrix};
pub use joins::{joined, widened};
pub use operations::{forget, is_whole, slot_range};
pub use state::{OctagonState, matrix_of_state};

//! Octagons as words, and their order: `specs/Words.antt`.
//!
//! A state's text is `0` where it is Empty, else `1` and all entries of its matrix, row by row, `n` where
//! there is no bound. The text of a state is taken back, and refused exactly where no state that fits has
//! it. The order closes the left state and compares entry by entry. States are given here by their
//! matrices, none for Empty. Putting and comparing take time quadratic in the slots, and taking that and
//! time linear in the text.
#![tactic(auto)]

mod laws;
mod order;
mod read;
mod write;

pub use laws::{octagons_are_portable, octagons_have_upper_bounds};
pub use order::leq;
pub use read::take;
pub use write::put;

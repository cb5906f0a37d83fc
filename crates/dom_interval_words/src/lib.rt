//! Intervals as words, and their order: `specs/Words.antt`.
//!
//! A state's text is `0` where it is Empty, else `1` and the ends of each slot. The text of a state is
//! taken back, and refused exactly where no state that fits has it. The order compares slot by slot. States
//! are given here by their slots, none for Empty. Each call takes time linear in the slots and the text.
#![tactic(auto)]

mod laws;
mod order;
mod read;
mod write;

pub use laws::{intervals_are_portable, intervals_have_upper_bounds};
pub use order::leq;
pub use read::take;
pub use write::put;

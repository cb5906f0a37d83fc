//! What is kept of a state.
use crate::bounds::Bounds;

/// What is kept of a state. No operation closes what is closed.
#[derive(Drop)]
pub enum Kept {
    /// The state that describes nothing.
    Nothing,
    /// A closed matrix.
    Bounded(Bounds),
    /// What widening gives: a matrix that is not closed, and what closing it answers, if not Empty.
    Widened(Bounds, Option<Bounds>),
}

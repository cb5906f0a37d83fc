//! What the check of a statement says of a state.

/// What a state says of the check of a statement that stands before it.
#[derive(Clone, Copy, Debug, PartialEq, Eq, Hash)]
pub enum Verdict {
    /// No run comes to the statement.
    Dead,
    /// No run fails at the check.
    Safe,
    /// A run may fail at the check.
    May,
}

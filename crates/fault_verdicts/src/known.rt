//! What is known where a statement evaluates.

/// What is known where a statement evaluates, over all chains to its procedure.
#[derive(Drop)]
pub enum Known<S> {
    /// No chain comes to its procedure.
    Absent,
    /// Nothing, where a loop used up its budget on the way.
    Nothing,
    /// The state there.
    State(S),
}

//! What is known at a location.

use imp_syntax::{Chain, StmtId};

/// What is known at a location.
#[derive(Debug, Drop)]
pub enum Answer<S> {
    /// The state there.
    State(S),
    /// A loop that is met on the way took as many rounds as the budget allows, and its iterates did
    /// not come to an end.
    Over {
        /// The loop.
        head: StmtId,
        /// The calls from main to the loop's procedure, outermost first.
        chain: Chain,
    },
}

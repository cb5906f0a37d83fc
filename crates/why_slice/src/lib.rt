//! The statements that an answer depends on.
#![tactic(auto)]

mod laws;
mod listing;
mod statements;

pub use laws::{answers_stay, upstream_is_told};
pub use listing::upstream;
pub use statements::StatementSet;

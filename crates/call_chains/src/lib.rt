//! The chains that a call string selects.
//!
//! [`chains`] gives those to a procedure, [`targets`] those of a location, in the order in which their states are
//! joined: of all the chains there, as `call_contexts` finds them, those that end in the string.
#![tactic(auto)]

mod filtered;

pub use filtered::{chains, targets};

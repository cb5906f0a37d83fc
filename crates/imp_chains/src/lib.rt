//! Chains to procedures, call strings, and the thresholds of loops.
//!
//! A *chain* to a procedure is the list of call statements from main to it: main has the empty one, any
//! other procedure for each call of it, in the order of the text, each chain of the procedure that holds
//! the call, with the call after. A *call string* selects the chains of which it is a suffix. The
//! definitions keep chains with the last call site first (`specs/Chains.antt`).
//!
//! The *thresholds* of a procedure are the numbers at which widening stops: -1, 0, 1, and L and -L for each
//! number L of its statements and conditions, rising, each once; where [`Widening`] has no thresholds
//! there are none (`specs/Thresholds.antt`).
#![tactic(auto)]

mod laws;
mod widening;

pub use laws::{chains_go_through_callers, places_are_found, thresholds_rise};
pub use widening::Widening;

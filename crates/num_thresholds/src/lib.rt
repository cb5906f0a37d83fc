//! The thresholds at which widening stops, looked up by bisection.
//!
//! [`Thresholds`] are made once for a widening, by one pass over the numbers, which sees whether they rise. Where they do,
//! as those of a program do, a look-up takes time logarithmic in them; else each takes a pass of its own.
#![tactic(auto)]

mod nearest;
mod thresholds;

pub use thresholds::Thresholds;

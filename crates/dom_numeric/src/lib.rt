//! What the domains of numbers say alike of numeric slots.
//!
//! `specs/Measures.antt` says what a slot is measured by: the int that it holds, or the length of its array.
//! `specs/Ranges.antt` gives the range of an expression where each slot has a range, and [`ranges_hold`] says that the
//! expression's value lies in it. `specs/Texts.antt` gives the text of a slot with its range. [`operate`] computes the
//! range of an operation, and [`put_range`] writes such a text.
#![tactic(auto)]

ghost use Rattle.dom_numeric.specs.Claims.{RangesHold, RangesAreWords};

mod operation;
mod text;

pub use operation::operate;
pub use text::{put_name, put_range, put_space};

/// The greatest length of an array.
pub const LONGEST: i64 = 1_000_000;

/// The range of an expression holds its value where each slot's range holds the slot's measure, and is one of integers
/// of 64 bits where the slots' ranges are.
pub fn ranges_hold()
    ensures hold { RangesHold }
    ensures words { RangesAreWords }
{}

//! The faults that can end a run, and when each comes.
//!
//! A *fault point* is a place of the evaluation that can end a run: an operator, a sign, a divisor, a length,
//! an index, a link, a claim. It has the kind of its fault, and a condition that is false exactly where the
//! evaluation ends there: its *claim*. The claim of `a + b` says that the sum lies in 64 bits, by comparisons
//! whose own operators stay in 64 bits; so every domain can be asked about it as about an assertion. The right
//! side of `&&` is looked at where the left holds, that of `||` where it fails.
//!
//! `specs/Points.antt` lists the points of statements, conditions and arguments in the order of evaluation.
//! They are exact ([`points_are_exact`]): where an evaluation goes on, every claim holds; where it ends with
//! a fault, the claim of a point of this kind fails (`specs/Exact.antt`).
//!
//! A list is made in time linear in its length; claims share their parts.
#![tactic(auto)]

mod arithmetic;
mod exact;
mod point;
mod points;

pub use exact::points_are_exact;
pub use point::{FaultPoint, FaultPoints};
pub use points::{points_of_action, points_of_arguments, points_of_condition};

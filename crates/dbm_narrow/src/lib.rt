//! Octagon matrices whose entries have one of two widths.
//!
//! The same matrices as those of `dbm_core`, over a type of entries, a `Width`: `i32`, which takes four
//! bytes, or `i128`, which takes sixteen. Each width has a unit, 2^24 or 2^103, in which its limits are
//! counted: a finite bound lies from -2 units to 2 units, so from -2^25 to 2^25 or from -2^104 to 2^104,
//! and 32 units stand for no bound. Closing and the other operations answer what their definitions of
//! `dbm_core` and `dbm_close` say, or, at `i32`, that the answer does not fit. At `i128` it always does: a
//! round makes entries at most four times as large, so 16 rounds make 2^102 of 2^70.
//!
//! The limits leave room for the sums of a round: a finite one stays below 16 units, and 32 units with a
//! finite one stay at 16 or above. What is at least 16 units is no bound. A half of a bound is at most
//! one unit, and the sum of two entries without a bound, 64 units, still fits the type. Loops go over
//! whole rows, which LLVM makes into vector code at `i32`.
//!
//! A matrix of one width is made one of the other by `refitted`, where it fits. Two matrices of the same
//! bounds feed a hasher the same, whatever their widths.
#![tactic(auto)]

mod adding;
mod between;
mod carried;
mod closed;
mod closing;
mod convert;
mod dropping;
mod entries;
mod entry;
mod feeding;
mod joins;
mod kinds;
mod lower;
mod met;
mod middle;
mod narrow;
mod ranges;
mod rows;
mod standing;
mod stands;
mod steps;
mod walks;
mod widening;
mod width;

pub use carried::close_carried;
pub use closed::{Closing, close, close_after_bounds, close_equation, close_whole};
pub use convert::{is_near, narrowed, refitted, widened};
pub use dropping::forget;
pub use joins::join;
pub use met::meets;
pub use narrow::Narrow;
pub use ranges::slot_range;
pub use stands::stood;
pub use widening::widen;
pub use width::Width;

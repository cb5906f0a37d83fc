//! Exact ranges of 64-bit integers.
//!
//! A [`Range`] is a least and a greatest `i64`, both in it; it is never empty. An operation on
//! ranges answers the range of the operation's results: it is computed over the integers, and
//! then cut to 64 bits, since a result outside them is an overflow and no value. `None` says that
//! nothing is left, so that there is no result at all.
//!
//! Each operation is a handful of machine instructions, over `i128` where a result may need more
//! than 64 bits, and takes no memory.
#![tactic(auto)]

mod range;
mod wide;

pub use range::Range;

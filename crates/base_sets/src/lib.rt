//! Sets of numbers, a bit for each number.
//!
//! A [`NumberSet`] is seen as the list of its numbers, rising. It takes a word of memory for each 64 numbers up to the
//! greatest of them. Testing a number takes constant time, adding one too when spread over many.
#![tactic(auto)]

mod set;

pub use set::NumberSet;

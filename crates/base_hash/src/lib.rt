//! A fast hasher for tables whose keys are made of numbers.
//!
//! A [`NumberHasher`] takes each number of eight bytes by one multiplication, and other writes byte by byte. Its seed is
//! fixed, so whoever picks the keys can make them collide: the tables that use it stay right then, and get slower.
#![tactic(auto)]

mod hasher;

pub use hasher::{NumberHasher, NumberHashing};

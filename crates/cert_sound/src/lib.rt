//! That certificates cover every run, for every domain with a sound order, from its laws.
//!
//! [`certificates_are_sound`] does nothing when it runs, and carries the theorem as its clause, for the
//! crate that checks certificates.
//!
//! The proof says of each block that runs from its first state are safe for any number of steps, given that
//! what is left to do after it is, from the state that following the block gives, and from those before
//! of its breaks after the loop around it. A configuration is safe for so many steps where it, and each one
//! that it comes to by that many steps, is described by the state that is written for it if it stands at
//! the test of a loop. A loop's test is safe for one step more than what a round leads to.
#![tactic(auto)]

mod sound;

pub use sound::certificates_are_sound;

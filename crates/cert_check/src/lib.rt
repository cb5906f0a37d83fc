//! Checking certificates: whether the states that are written of a program's loops hold.
//!
//! [`verify`] reads the lines of a certificate (`cert_reading`), refuses the first bad one, and then follows main's body
//! once, with the written states in place of what the iterates of loops come to. It iterates nothing and widens nothing.
//! The answer is the line of `verify` of `cert_lines`, and where it is yes, the states describe every run, whoever
//! wrote them. Each block of each chain is followed once.
#![tactic(auto)]

mod behind;
mod followed;
mod following;
mod verified;
mod verifying;

pub use verifying::verify;

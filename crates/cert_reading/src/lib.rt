//! Reading certificates: the states that the lines of a text write of a program's loops, or the first bad line.
//!
//! [`read_certificate`] reads each line once, in their order. A line is bad that is no entry (`entry_of` of `cert_lines`), or
//! has the loop and the call sites of an earlier one. `IsRead` of `specs/Reading.antt` says that what it comes to is what
//! `entries` of `cert_lines` lists.
//!
//! The states stand in a map under their loops and call sites ([`Written`]), and the chains to each procedure in a set, so
//! reading takes time linear in the certificate, beside what the domain takes for its texts.
#![tactic(auto)]

mod chain_sets;
mod entry;
mod reading;
mod written;

pub use reading::{Lines, read_certificate};
pub use written::{Written, loop_key};

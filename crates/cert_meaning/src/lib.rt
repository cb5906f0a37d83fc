//! What certificates say: the definitions.
//!
//! A certificate is a list of lines, each with the state at the head of a loop under a chain. Who reads it
//! follows main's body once, with the written state in place of what the iterates of the loop come to
//! (`specs/Followed.antt`), and finds the first loop of which no state is written, or the written one is
//! not above the state before the loop, or not above what a round makes of it. States are written and
//! compared by `put`, `take` and `leq` of `specs/Portable.antt`, which have laws beside those of a domain.
//!
//! The definitions run nothing: whoever writes or checks certificates is held to them.
//!
//! [`Portable`] adds three calls to those of a domain: its states can be written as a text, read back and
//! compared. They are functions of plain data (`port`), and their laws say that what is put is taken back, that
//! a text that no state that fits has is refused, and that the order is sound: what lies below describes no more.
#![tactic(auto)]

mod portable;

pub use imp_words::QueryRefusal;
pub use portable::Portable;

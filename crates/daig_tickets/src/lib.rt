//! The open tickets of a session: questions that are answered in steps.
//!
//! At most sixteen are open, each under a number of its own, counted from 1 and used once. A ticket is seen as the ticket
//! of the machine (`daig_machine`); beside it there stands how far it has come, of a type that the session gives, which
//! is dropped when the program is another one.
#![tactic(auto)]

mod tickets;

pub use tickets::{NoTicket, OpenTicket, Tickets};

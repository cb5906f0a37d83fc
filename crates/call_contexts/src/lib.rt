//! What an answer needs of a program beside the values: places, chains, thresholds, and the join of chains.
//!
//! [`place_of`] finds the procedure of a location, or says why there is none. [`chains_to`] gives the
//! chains to a procedure, in the order in which their states are joined. [`joined`] sheds one chain's state and joins it
//! after those before.
//! A [`Setting`] has the thresholds of each procedure, at which widening stops, with how often and how the iterates of a loop
//! are made. It counts in how many statements each number stands, makes the thresholds of the numbers that it counts, and
//! knows the loops of each procedure. So after a change of the program [`Setting::after`] looks at the change alone, and
//! makes the thresholds anew only of those procedures that have other numbers then.
//!
//! A program has at most 4,096 chains, each of at most 8 calls. Nothing walks the program: a place is
//! read off what is known of the statement, and the chains to a procedure are found along call
//! sites, from those to its callers alone: in time linear in the calls of the procedures through which they lead, and in the
//! chains to these.
#![tactic(auto)]

mod callers;
mod counts;
mod differences;
mod following;
mod joining;
mod literals;
mod loops;
mod numbers;
mod part;
mod places;
mod setting;
mod table;
mod tallying;
mod threshold_sets;
mod touched;

pub use joining::joined;
pub use numbers::holds;
pub use places::{few_routines, place_of};
pub use setting::Setting;
pub use table::{chains_to, main_place, procedure_count};

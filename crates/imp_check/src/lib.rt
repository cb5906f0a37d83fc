//! Checking programs: the first fault of a program, or the program over slots and what a table of it has.
//!
//! [`check_procs`] takes a program whose statement numbers are 1 or more and stand once each ([`is_numbered`]
//! tells). It succeeds exactly where `check_fault` of `specs/Programs.antt` is none, and else gives that
//! fault: the first in a fixed order, with its procedure and place.
//!
//! - Over the whole program: at most 64 procedures, 10,000 statements, blocks at nesting 32.
//! - Then of each procedure in turn: its name, its variables one by one (`variable_fault`), its
//!   statements in the order of the text (`block_fault` of `specs/Statements.antt`). In a statement the names
//!   come first, then the number of arguments, then kinds (`specs/Kinds.antt`).
//! - Then over the whole program: `main` comes last and takes nothing; no chain of calls is longer than
//!   8; there are at most 4,096 chains. A chain to a procedure is a list of calls from `main` to it, and
//!   `chains_to` of `specs/Chains.antt` lists them all; they are counted by tallies, procedure by procedure.
//!
//! [`routines_of`] makes the program over slots (`routines_of` of `specs/Slots.antt`), which fits where the program has
//! no fault. `entries_of` of `specs/Entries.antt` lists all statements, each without those inside it, with its slot
//! form, the block that it stands in, its neighbours there, the ends of its own blocks and the breaks that leave it;
//! `entry_of` finds one by its number, `sites_in` the calls of a procedure. [`table_parts`] puts them into places by
//! their numbers (`AreOf` of `specs/Tables.antt`); `specs/Rebuilt.antt` makes the tree of them again. The crate
//! `imp_table` keeps and changes such tables.
//!
//! [`own_fault`] and [`own_form`] look at one statement of a procedure, without those inside it: its fault, and what it does
//! over the slots (`specs/Single.antt`).
//!
//! Checking takes time linear in the program, times the variables of a procedure for each name, and
//! times the procedures for the calls.
#![tactic(auto)]

mod building;
mod chains;
mod counts;
mod entries;
mod entry;
mod fault;
mod heads;
mod kinds;
mod names;
mod numbered;
mod parts;
mod place;
mod programs;
mod putting;
mod resolve;
mod routines;
mod single;
mod slots;
mod statements;
mod terms;
mod variables;

pub use building::{TableParts, table_parts};
pub use counts::{block_count, nesting, statement_count};
pub use entry::{Around, BlockEnds, Context, Entry, ProcHeader, SlotForm, Which};
pub use fault::{CheckError, Fault, LocatedFault};
pub use heads::{is_headed, place_headed};
pub use numbered::is_numbered;
pub use parts::{add_leaving, breaks_of, first_ends, part_of, second_ends};
pub use place::TableSlot;
pub use programs::check_procs;
pub use routines::routines_of;
pub use single::{own_fault, own_form};

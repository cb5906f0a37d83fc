//! Programs as tables of their statements, as they are read and as they change.
//!
//! [`check`] takes a program whose statement numbers are 1 or more and stand once each
//! ([`imp_check::is_numbered`] tells). It answers a [`Checked`] exactly where the program has no fault (`imp_check` tells
//! which there are), and else the first one; [`check_table`] answers the table alone.
//!
//! A [`Checked`] has a program as a tree, over slots and as a table, and is seen as its procedures. What it answers is
//! defined over them in `imp_check`: `routines_of` is the program over slots, and it fits ([`Checked::routines`]);
//! `entries_of` lists all statements, `entry_of` finds one by its number, `sites_in` the calls of a procedure.
//!
//! A [`Table`] has these entries by their numbers. It gives the program back as a tree and over slots, and takes a
//! [`Change`] in place, by which one program is made of another (`Makes` of `specs/Changes.antt`) and which becomes the
//! change back. A [`View`] is a program as it is read: that of a table, or the one that a change makes of it.
//!
//! A table keeps its entries in pages of 64 numbers. A page where nothing stands takes no memory, unless a change that was
//! taken back or may be taken back needs it ([`NeededPages`]): numbers are never used again, so old pages become empty.
//! Reading a [`Checked`] or an entry takes constant time and no memory.
#![tactic(auto)]

mod change;
mod checked;
mod needed;
mod page;
mod pages;
mod places;
mod rebuilt;
mod table;
mod view;
mod walk;

pub use change::{Change, Put};
pub use checked::{Checked, check, check_table};
pub use needed::NeededPages;
pub use table::Table;
pub use view::View;

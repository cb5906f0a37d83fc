//! The programs before and after the present one, for undo and redo.
//!
//! A [`History`] is the table of the present program with the changes that lead back and forth: at most 64 on both sides
//! together, so at most 64 programs can be gone back to. It is seen as the programs: the present one, those before it and
//! those after it, the nearest first. No program is copied: to go back or forth exchanges a change
//! with the table, and what it leaves is the change for the other way.
//!
//! Only [`History::new`] and [`History::make_room`] take memory.
#![tactic(auto)]

mod history;

pub use history::History;

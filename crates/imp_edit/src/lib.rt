//! Edits of programs without faults: what each of the seven makes of a program, and why one is refused.
//!
//! [`apply`] takes the table of a program ([`imp_table::Table`]), an edit and the next new number. It answers the
//! change of the table ([`imp_table::Change`]) and the number after those that the edit uses exactly where no
//! refusal holds, and else the first refusal, or out of memory. It changes nothing itself, so a refused edit leaves the
//! program, and uses no number. `edited` of `specs/Edited.antt` is the program after an edit, by the definitions of
//! `specs/Changes.antt`; `edit_refusal` of `specs/Refusals.antt` is the first refusal.
//!
//! - An edit at a statement changes the one statement of a number: `in_program n made`, where `made` says what becomes of
//!   it. The numbers of the others stay.
//! - An edit at a procedure changes the first one of a name: `at_named x made`.
//!
//! The change is found from the tree of the program, or, for another condition and for statements that come and go, from
//! what is known of the statements beside them and in them, in time that the size of the program does not enter: where no
//! call stands in them, and each break that comes has a loop. Where one comes to a loop that keeps others, its place among
//! them is found by a walk through the statements of that loop before it (`edit_breaks`).
//!
//! An edit's own statements carry the numbers from `next` on, so a number is never used again, and numbers of the new
//! program stand once.
#![tactic(auto)]

mod applying;
mod blocks;
mod call_free_parts;
mod error;
mod gap;
mod neighbour_entries;
mod new_entries;
mod numbers;
mod part_changes;
mod procedures;
mod refusals;
mod single_statements;
mod splicing;
mod trees;

pub use applying::{Edited, apply};
pub use error::EditError;

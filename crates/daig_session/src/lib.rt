//! Sessions: a program that is edited, and questions about it that are answered from cells.
//!
//! A [`Session`] has an engine of demands (`daig_query`) and a program with those before it and after it
//! (`edit_history`). It stands for a machine (`daig_machine`), which has no state of a domain: of what was computed it
//! has the names alone, and it answers by interpreting the present program from scratch. Each call is a turn of that
//! machine, exactly (`specs/Turns.antt`): what it answers, and which machine the session then stands for (`Holds`).
//!
//! Its cells are right for the present program, and all else of it is in order: this, `IsReady`, is the invariant of its type,
//! which each call finds and leaves.
//!
//! - [`Session::query`] fills what is missing for one question, and answers it; [`Session::report`] asks before each
//!   statement that has a check, one after another, [`Session::faults`] where each statement evaluates that can end a run.
//! - [`Session::begin`] opens a ticket for one of these, [`Session::step`] fills a few cells for it at a time,
//!   [`Session::cancel`] closes it. A ticket keeps how far it has come until the program is another one.
//! - [`Session::prepare`] works an edit out beside what stands. [`Prepared::commit`] makes it, and cannot fail.
//!   [`Session::undo`] and [`Session::redo`] go back and forth.
//!
//! When memory runs out a query, a report or a step leaves some of the missing cells filled, the first of them, and all else
//! as it was. Any other call leaves the session as it was.
//!
//! States and operations that no cell holds any more are given back: at the start of each question and step, and at the end
//! of each move, where they are many. So after each call the tables hold at most five states and five operations for each
//! kept cell, four for each cell that the last move emptied, four for each result that may be remembered, and 4,097
//! (`IsBounded` of `daig_query`, with `spare` of [`Session::start`]). What a move empties stays aside until the next one, and
//! is kept again without being computed where its inputs get the values that they had. Names that have no cell are given
//! back by each move, where they are many: the new table of names is made with the plan.
#![tactic(auto)]

mod asking;
mod book;
mod checks;
mod course;
mod edits;
mod error;
mod faults;
mod known;
mod moving;
mod parts;
mod pointed;
mod queries;
mod reports;
mod session;
mod stepping;
mod tickets;
mod touring;
mod undo_redo;

pub use edits::{Planned, Prepared};
pub use error::{AskError, QueryError, StepError, UndoError};
pub use session::Session;
pub use stepping::StepResult;

//! What lines are replied, and what each makes of the machine that a session with a program is.
//!
//! The machine holds the present program and what has been done with it; each answer comes from interpreting the program
//! from scratch. `line_turn` of `specs/Lines.antt` reads a line as a request and turns to the request's own definition in
//! `specs/Turns.antt`: questions, reports, runs, edits, tickets, undo and redo. A request that is refused leaves the
//! machine, but one for a step whose location is gone closes its ticket ([`refusals_change_nothing`]).
//!
//! `specs/Edits.antt` makes the edit of a request, whose text is read by the grammar: [`replace_of`], [`insert_of`],
//! [`guard_of`] and [`add_of`]. Statements are numbered from the next number on, so the edit is one that a session
//! takes. `specs/Refusals.antt` says what an edit that is refused is replied: [`refusal_of`]. Texts are read in one way,
//! and no other ([`texts_are_read`]).
//!
//! What was asked and edited before does not matter to an answer, and undo restores it ([`histories_do_not_matter`]).
#![tactic(auto)]

mod edits;
mod laws;
mod readings;
mod refusals;

pub use edits::{TextError, add_of, guard_of, insert_of, replace_of};
pub use laws::{
    histories_do_not_matter, machines_stay_fine, overs_are_answers, refusals_change_nothing,
    replies_are_sound,
};
pub use readings::texts_are_read;
pub use refusals::refusal_of;

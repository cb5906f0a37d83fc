//! What an accepted edit leaves of a program's places and cells, and what taking it back leaves.
//!
//! Each accepted edit keeps the places of statements. This is what the plan of an edit's removal asks of the two programs
//! (`KeepPlaces` of crate `cell_kept_set`). Where they do, a plan of removal leaves exactly the kept cells (crate
//! `edit_invalidate`). So a session that plans, exchanges the program and commits has the kept cells of the edit, which are
//! cells of the new program, whether the edit is made, taken back or made again.
//!
//! The functions do nothing when they run; each carries its theorem as its clause.
#![tactic(auto)]

ghost use Rattle.edit_keeps.specs.Claims.{EditsKeepPlaces};

mod laws;

pub use laws::edits_leave_kept;

/// A statement that the programs before and after an edit both have stands in the same procedure and in the same
/// loops of it, and a call is of the same procedure.
pub fn edits_keep_places()
    ensures keep { EditsKeepPlaces }
{}

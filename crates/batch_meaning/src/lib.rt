//! What batch interpretation answers: the definitions.
//!
//! The value after a block comes from the value before it by recursion on the syntax: `batch` of
//! `specs/Batch.antt` gives it with the values before the breaks that leave the loop around it. A
//! *value* is a state, or the loop that used up its budget. A loop's head is what its *iterates* come
//! to: joined below the delay, then widened with the procedure's thresholds, until two are equal; with it
//! comes the index of that iterate. `spots` of `specs/Places.antt` gives the values at all statements of
//! a procedure in one pass, `value_at` the value at a location under a chain. The *answer* at a location
//! under a call string joins those of the selected chains, each shed (`specs/Answers.antt`), and the
//! *report* gives a verdict on each statement that has a check (`specs/Report.antt`).
//!
//! The definitions speak of the records of domains alone and run nothing: whoever answers is held to
//! them.
#![tactic(auto)]

pub use imp_words::QueryRefusal;

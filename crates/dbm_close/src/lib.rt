//! Closing octagon matrices.
//!
//! Closing makes implied bounds explicit, and finds out that no values satisfy a matrix. Its
//! definition is that of six steps:
//!
//! 1. each entry becomes the least weight over all walks from i to j, a walk that takes no step
//!    weighing 0; Empty where a walk from a node back to itself weighs less than 0;
//! 2. each bound on twice a slot's value, `m(i, i')`, is made even downwards;
//! 3. Empty where some `m(i, i') + m(i', i)` is below 0;
//! 4. `m(i, j)` becomes the smaller of itself and half of `m(i, i') + m(j', j)`;
//! 5. Empty where an entry is below -2^64, and an entry of 2^64 or more becomes none;
//! 6. Empty where a slot's range is empty: it goes from `-m(2k, 2k+1) / 2` to `m(2k+1, 2k) / 2`,
//!    within the extremes of the slot's kind.
//!
//! Contracts speak of walks and entries, never of the loops: `close` answers what `IsCloseOf`
//! says, and nothing else meets that. The domain and strong closure are those of A. Miné, "The
//! Octagon Abstract Domain", 2006; that one pass of tightening and strengthening after the least
//! walks is enough for integers is R. Bagnara, P. M. Hill and E. Zaffanella, "An Improved Tight
//! Closure Algorithm for Integer Octagonal Constraints", 2008.
//!
//! Closing n slots takes n rounds over the 2n(n + 1) kept entries and two passes more, all in
//! place: no memory is taken but that of the copy, which becomes the answer. A round makes
//! entries at most four times as large, so that all sums stay below 2^104, negative walks or not.
#![tactic(auto)]

ghost use Rattle.dbm_close.specs.CloseOf.{CloseOfIsClose, CloseOfIsOnly, CloseOfKeeps};
ghost use Rattle.dbm_close.specs.Laws.{HalvesAreExact};

mod bounds;
mod closed;
mod middle;
mod ranges;
mod slot;
mod steps;
mod walks;

pub use bounds::{is_negative, plus};
pub use closed::{Closed, close};
pub use middle::column;
pub use ranges::slot_range;
pub use slot::finish_slot;
pub use steps::finish;

/// A law, with nothing to run: step 4 halves even numbers only, so its halves are exact.
pub fn halves_law()
    ensures halves_are_exact { HalvesAreExact }
{}

/// A law, with nothing to run: each matrix whose diagonal is 0 or less has exactly one close, which
/// the function `close_of` of plain data gives; it keeps the meaning, the kinds and the limits.
pub fn close_of_law()
    ensures close { CloseOfIsClose }
    ensures only { CloseOfIsOnly }
    ensures keeps { CloseOfKeeps }
{}

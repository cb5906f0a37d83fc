//! The breaks of the loop around a place where statements come and go.
//!
//! A loop has the breaks that leave it, in the order of the text. Where statements come at a place of a block ([`Gap`]) and
//! others go, the loop around the place loses those that go, and gets those that leave what comes, after those that
//! stand before the place: [`loop_puts`] gives the change of its entry, and `edit_breaks` of `specs/Breaks.antt`
//! says what its breaks then are. How many stand before is counted from one statement to the next, and only where breaks
//! come and others stay.
//!
//! [`put_at`] puts an entry into a change, whose numbers fall, and [`closed_at`] tells whether what comes has no call, and
//! for each break a loop.
#![tactic(auto)]

mod breaks;
mod closed;
mod copies;
mod gap;
mod leaving;
mod puts;

pub use breaks::{loop_puts, rebroken};
pub use closed::closed_at;
pub use copies::{entry_again, form_again};
pub use gap::Gap;
pub use leaving::next_in;
pub use puts::put_at;

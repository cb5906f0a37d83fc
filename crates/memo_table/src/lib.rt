//! What operations have given: a memory of bounded size, the most recent entries first.
//!
//! An [`Operation`] is what a cell's row does to its inputs, owned: a statement, a condition, an argument list or a
//! layout is shared with the program by reference count. Operations are kept once in a table of `state_table`, as
//! states are, so a [`Key`] is three numbers: of the operation, and of the states that it is applied to. A [`Memo`]
//! keeps the number of the state that came of it. [`RecentResults`] stand before it: they keep less, and are looked up
//! with no hash table.
//!
//! Looking up and keeping hash three numbers and take constant time on average. An operation is hashed and compared
//! once, when it gets its number; that takes time linear in its statement.
#![tactic(auto)]

mod equality;
mod memo;
mod operation;
mod recent;

pub use equality::{equality_decides, results_stay};
pub use memo::{Key, Memo};
pub use operation::Operation;
pub use recent::RecentResults;

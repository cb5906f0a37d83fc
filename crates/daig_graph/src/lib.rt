//! The graph of cells: each holds a value, its inputs and its dependents.
//!
//! A [`Graph`] is a finite map from numbers to cells, each with the statement that it belongs to, its [`Value`] and
//! its inputs from left to right; contracts see it as that map, and as how many numbers have a place. A cell is filled
//! when all its inputs are there, and taken away when no other has it as an input, so inputs are always cells.
//!
//! What there is of a cell stands at the place of its number. What uses a cell, and what belongs to a statement, are lists
//! that are threaded through these places (`specs/Linked.antt`), so that an item goes in and out in constant time, however
//! long its list is. Filling and removing take as many steps as the cell has inputs, and filling as many more as there are
//! new places; reading takes constant time, and a list of dependents or of the cells of a statement is walked, not copied.
//! Removing and reading take no memory. A list of inputs comes as [`Inputs`].
//!
//! The memory is in proportion to the places: those up to the greatest number that was filled. So numbers are to be given
//! from 0 on. [`Graph::renumber`] gives the cells other numbers, in the same order, so that those of cells that are gone
//! need not be kept, and leaves the places up to the last cell. Statements keep their numbers: their lists are a bounded
//! number, and statements whose numbers are far apart may share a list (`specs/Buckets.antt`).
//!
//! The crate knows neither names nor programs nor domains.
#![tactic(auto)]

mod dependents;
mod filling;
mod graph;
mod inputs;
mod links;
mod owned;
mod reading;
mod renumbering;
mod room;
mod uses;
mod value;

pub use dependents::Dependents;
pub use graph::{Graph, Use};
pub use inputs::Inputs;
pub use owned::OwnedCells;
pub use value::{SharedChain, Value};

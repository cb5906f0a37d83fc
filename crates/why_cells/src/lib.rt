//! The statements that an answer depends on, read from the cells that it was computed from.
//!
//! After a query all names that its answer needs have cells: the cells of the names that its targets ask for, and all
//! that these lead to by inputs. Each cell tells the statement that its name hangs on, and a cell after a simple statement
//! does so only where the value before it is a state that is not a dead one (`why_slice`).
#![tactic(auto)]

mod gathering;
mod hanging;
mod seeds;
mod slicing;

pub use slicing::upstream;

//! Taking cells away from a graph, with all that are computed from them.
//!
//! [`removal`] plans it: from some cells it follows the graph's dependents, depth first on an explicit stack, so that each
//! cell comes once, and after those that use it. What is planned or stands on the stack is marked, by a bit for each number
//! (`specs/Marks.antt`). It takes all memory, and changes nothing. [`commit`] takes the planned cells away; it takes no
//! memory and cannot fail. Both take time in proportion to the cells of the plan and their inputs, and the plan a step more
//! for each 64 numbers up to the greatest of them.
//!
//! The crate knows neither names nor programs.
#![tactic(auto)]

mod bit_set;
mod committing;
mod laws;
mod planning;

pub use committing::commit;
pub use laws::rest_stays;
pub use planning::{RemovalOrder, removal};

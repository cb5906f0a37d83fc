//! What an engine keeps.
use crate::held::Held;
use crate::operation_table::OperationTable;
use crate::stale::StaleCells;
use cell_names::Names;
use daig_graph::Graph;
use memo_table::{Memo, RecentResults};
use state_table::StateTable;
use std::hash::Hash;

/// Cells by the numbers of their names, the states that they hold by numbers, and what operations gave.
#[derive(Drop)]
pub(crate) struct Store<S: Eq + Hash> {
    pub(crate) graph: Graph<Held>,
    pub(crate) names: Names,
    pub(crate) states: StateTable<S>,
    pub(crate) operations: OperationTable,
    pub(crate) memo: Memo<S>,
    // what the memo gave or kept last
    pub(crate) recent: RecentResults,
    // what the last edit emptied
    pub(crate) stale: StaleCells,
}

//! The engine.
ghost use Rattle.std.specs.Prelude.{◌≡◌, ◌+◌, ◌*◌, ◌≤◌, ◌<◌, IfOk, false};
ghost use Rattle.std.specs.FinMap as map;
ghost use Rattle.imp_slots.specs.Fits.{IsChecked};
ghost use Rattle.cell_names.specs.Paths.{CellName};
ghost use Rattle.cell_removal.specs.Removal.{IsOrder, without};
ghost use Rattle.imp_flow.specs.Plans.{Plan};
ghost use Rattle.daig_query.specs.Claims.{Lessens};
ghost use Rattle.daig_query.specs.Kept.{kept};
ghost use Rattle.daig_query.specs.Right.{IsRight};
ghost use Rattle.daig_query.specs.Stale.{AreStaleOf};
ghost use Rattle.daig_query.specs.Swept.{IsBounded};

use crate::held::Held;
use crate::operation_table::OperationTable;
use crate::stale::StaleCells;
use crate::store::Store;
use base_values::Memory;
use cell_names::Names;
use cell_removal::commit;
use daig_graph::Graph;
use domain_laws::Domain;
use memo_table::{Memo, RecentResults};
use state_table::StateTable;
use std::alloc::Global;

// how many states are kept beside four for each cell and each remembered result, before a sweep
const SLACK: usize = 4096;

/// A domain, and the cells that are filled.
#[derive(Drop)]
pub struct Engine<D: Domain> {
    pub(crate) domain: D,
    pub(crate) store: Store<D::State>,
    // how many states are kept beside four for each cell, before a sweep
    pub(crate) spare: usize,
}

impl<D: Domain + Drop> Engine<D> {
    /// An engine that keeps nothing, and remembers at most so many results of operations, beside as many found last. It is
    /// right for every checked program.
    pub fn new(alloc: Global, domain: D, memo: usize) -> Result<Engine<D>, Memory>
        requires some { 0 < memo }
        ensures spare { IfOk result (λ e. e.spare ≤ 4 * memo + 4096) }
        ensures bounded { IfOk result (λ e. IsBounded e.spare e.store) }
        ensures recent { IfOk result (λ e. e.store.recent.places ≤ memo) }
        ensures domain { IfOk result (λ e. e.domain ≡ domain) }
        ensures empty { IfOk result (λ e. (x : CellName) → kept e.store x ≡ false) }
        ensures right { IfOk result (λ e. (plan : Plan) → IsChecked plan.program →
            IsRight (D.operations e.domain) plan e.store) }
    {
        let spare = memo.saturating_mul(4).saturating_add(SLACK);
        let recent = RecentResults::new(alloc, memo)?;
        let memo = Memo::new(alloc, memo)?;
        let operations = OperationTable::new(alloc)?;
        let store = Store {
            graph: Graph::new(alloc),
            names: Names::new(alloc),
            states: StateTable::new(alloc),
            operations,
            memo,
            recent,
            stale: StaleCells::new(alloc),
        };
        Ok(Engine {
            domain,
            store,
            spare,
        })
    }
}

impl<D: Domain> Engine<D> {
    /// The domain.
    pub fn domain(&self) -> &D
        ensures is { result.now ≡ self.now.domain }
    {
        &self.domain
    }

    /// The cells, by the numbers of their names.
    pub fn graph(&self) -> &Graph<Held>
        ensures is { result.now ≡ self.now.store.graph }
    {
        &self.store.graph
    }

    /// The names, by their numbers.
    pub fn names(&self) -> &Names
        ensures is { result.now ≡ self.now.store.names }
    {
        &self.store.names
    }

    /// Takes planned cells away, as when an edit empties them. Those that are not touched, whose own row is not changed, are
    /// stale from then on, and no others. It takes as many steps as the cells have inputs, and no memory. Where the cells that
    /// are left, and the stale ones, are those of another program, all is right for that one (`cells_stay_right`).
    pub fn empty(&mut self, plan: cell_removal::RemovalOrder, touched: &[usize])
        requires order { IsOrder self.old.store.graph.cells plan }
        ensures stale { AreStaleOf self.old.store.graph.cells plan touched.now
            self.new.store.stale }
        ensures few { self.new.store.stale.count ≤ map.len self.old.store.graph.cells }
        ensures removes { self.new.store.graph.cells ≡ without self.old.store.graph.cells plan }
        ensures places { self.new.store.graph.places ≡ self.old.store.graph.places }
        ensures lessens { Lessens self.old.store self.new.store }
        ensures domain { self.new.domain ≡ self.old.domain }
        ensures spare { self.new.spare ≡ self.old.spare }
    {
        self.store
            .stale
            .mark(&self.store.graph, plan.cells(), touched);
        commit(&mut self.store.graph, plan);
    }

    /// How many cells are kept.
    pub fn kept_count(&self) -> usize
        ensures count { result ≡ map.len self.now.store.graph.cells }
    {
        self.store.graph.kept_count()
    }
}

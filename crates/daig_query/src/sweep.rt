//! Giving back the states and operations that are not in use any more.
ghost use Rattle.std.specs.Prelude.{◌≡◌, ◌+◌, ◌*◌, ◌≤◌, [], length};
ghost use Rattle.std.specs.FinMap.{len};
ghost use Rattle.domain_laws.specs.Operations.{Operations};
ghost use Rattle.state_table.specs.Marks.{mark_count, rank, states_in, AreNumbered};
ghost use Rattle.daig_query.specs.Stale.{IsFresh};
ghost use Rattle.daig_query.specs.Swept.{most_held, AreKnown, AreMarked, AreRenumbered, IsInTables, IsWithin, StaysRight, Swept};

use crate::engine::Engine;
use crate::held::Held;
use crate::store::Store;
use crate::walk::held_in;
use daig_graph::Graph;
use domain_laws::Domain;
use state_table::Sweep;
use std::hash::Hash;

impl<D: Domain> Engine<D> {
    /// Gives back the states that no cell holds, and all operations, where more are kept than four for each cell and each
    /// result that may be remembered, and 4,096. Each cell holds the state that it held; what was remembered is forgotten.
    ///
    /// It takes no memory, and cannot fail. It takes as many steps as there are names and states; since it happens where
    /// three quarters of the states are in use no more, that is constant time for each state that was made.
    pub fn sweep(&mut self)
        requires held { IsInTables self.old.store }
        ensures domain { self.new.domain ≡ self.old.domain }
        ensures spare { self.new.spare ≡ self.old.spare }
        ensures swept { Swept self.old.store self.new.store }
        ensures right { StaysRight (D.operations self.old.domain) self.old.store self.new.store }
        ensures bounded { IsWithin (most_held self.old.spare self.new.store) self.new.store }
    {
        let most = most_held(&self.store, self.spare);
        let store = &mut self.store;
        if store.states.len() > most || store.operations.len() > most {
            sweep_all(store);
        }
    }
}

/// So many states and operations are kept at most.
fn most_held<S: Eq + Hash>(store: &Store<S>, spare: usize) -> usize
    ensures most { result ≤ most_held spare store.now }
{
    let stale = store.stale.count().saturating_mul(4);
    most_kept(&store.graph, spare).saturating_add(stale)
}

/// So many names are kept at most.
pub(crate) fn most_kept(graph: &Graph<Held>, spare: usize) -> usize
    ensures most { result ≤ 4 * len graph.now.cells + spare }
{
    graph.kept_count().saturating_mul(4).saturating_add(spare)
}

/// Gives back all states that no cell holds, and all operations.
pub(crate) fn sweep_all<S: Eq + Hash + Drop>(store: &mut Store<S>)
    requires held { IsInTables store.old }
    ensures swept { Swept store.old store.new }
    ensures right { (dom : Operations S) → StaysRight dom store.old store.new }
    ensures few { length store.new.states ≤ len store.new.graph.cells }
    ensures operations { store.new.operations ≡ [] }
    ensures fresh { IsFresh store.new.stale }
{
    store.stale.clear();
    store.memo.clear();
    store.recent.clear();
    store.operations.clear();
    let count = store.names.len();
    let mut states = store.states.begin_sweep();
    mark_held(&store.graph, count, &mut states);
    states.number();
    renumber_held(&mut store.graph, count, &states);
    store.states = states.finish();
}

/// Marks the states that the cells of the first so many numbers hold.
fn mark_held<S: Eq + Hash + Drop>(graph: &Graph<Held>, count: usize, states: &mut Sweep<S>)
    requires known { AreKnown graph.now.cells (length states.old) }
    ensures states { states_in states.new ≡ states_in states.old }
    ensures marked { AreMarked graph.now.cells count states.new }
    ensures few { mark_count states.new ≤ mark_count states.old + len graph.now.cells }
{
    for cell in 0..count {
        if let Some(held) = held_in(graph, cell) {
            states.mark(held.state);
        }
    }
}

/// Gives the states that the cells of the first so many numbers hold their new numbers.
fn renumber_held<S: Eq + Hash + Drop>(graph: &mut Graph<Held>, count: usize, states: &Sweep<S>)
    requires marked { AreMarked graph.old.cells count states.now }
    requires numbered { AreNumbered states.now }
    ensures renumbered { AreRenumbered (rank states.now) count graph.old.cells graph.new.cells }
{
    for cell in 0..count {
        if let Some(held) = held_in(graph, cell) {
            let state = states.renumbered(held.state);
            let index = held.index;
            graph.replace_held(cell, Held { state, index });
        }
    }
}

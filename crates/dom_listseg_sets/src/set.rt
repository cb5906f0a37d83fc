//! Sets of folded graphs.
ghost use Rattle.std.specs.Prelude.{◌≡◌, ◌↔◌, ◌≤◌, ◌∷◌, ◌++◌, [], true, length, IfNone, IfOk, IfSome, IsTrue, OnErr, OnOk, drop, take};
ghost use Rattle.fold_laws.specs.Folding.{fold_of};
ghost use Rattle.dom_listseg_meaning.specs.Sets as sets;

use crate::folded::FoldedGraph;
use crate::merging::{has_all, merge};
use base_values::Memory;
use shape_graph::ShapeGraph;
use std::alloc::Global;
use std::cmp::Ordering;
use std::marker::Model;

/// Folded graphs in their order, each once.
#[derive(Drop)]
pub struct GraphSet {
    graphs: Vec<FoldedGraph>,
}

impl Model for GraphSet {
    ghost use Rattle.std.specs.Prelude.{◌≡◌, List, true};
    ghost use Rattle.shape_graph.specs.Shape.{Shape};
    ghost use Rattle.dom_listseg_meaning.specs.Sets.{rises};

    ghost Value = { List Shape };

    ghost view = { λ a. a.graphs.items };

    ghost invariant = { λ a. rises a.graphs.items ≡ true };
}

// The place that a graph goes to among graphs that rise, searched by halves; none where it is there.
fn place_of(graphs: &[FoldedGraph], graph: &FoldedGraph) -> Option<usize>
    requires rises { sets.rises graphs.now ≡ true }
    ensures there { IfNone result (sets.put graph.now graphs.now ≡ graphs.now) }
    ensures inside { IfSome result (λ place. place ≤ length graphs.now) }
    ensures place { IfSome result (λ place. sets.put graph.now graphs.now ≡ take place graphs.now
        ++ graph.now ∷ drop place graphs.now) }
{
    let mut low = 0;
    let mut high = graphs.len();
    while low < high {
        let middle = low + (high - low) / 2;
        match graph.cmp(&graphs[middle]) {
            Ordering::Less => high = middle,
            Ordering::Equal => return None,
            Ordering::Greater => low = middle + 1,
        }
    }
    Some(low)
}

impl GraphSet {
    /// No graphs. It takes no memory yet.
    pub fn new(alloc: Global) -> GraphSet
        ensures empty { result ≡ [] }
    {
        GraphSet {
            graphs: Vec::new(alloc),
        }
    }

    /// The set of graphs that rise.
    pub fn from_rising(graphs: Vec<FoldedGraph>) -> GraphSet
        requires rises { sets.rises graphs.items ≡ true }
        ensures same { result ≡ graphs.items }
    {
        GraphSet { graphs }
    }

    /// The graphs, in their order.
    pub fn as_slice(&self) -> &[FoldedGraph]
        ensures same { result.now ≡ self.now }
        ensures rises { sets.rises self.now ≡ true }
    {
        self.graphs.as_slice()
    }

    /// Puts a graph in its place, unless it is there. It fails only when memory runs out, and then the set stays.
    #[tactic(auto, using(dom_listseg_meaning::proofs::Rising::put_rises))]
    pub fn put(&mut self, graph: FoldedGraph) -> Result<(), Memory>
        ensures put { OnOk result (self.new ≡ sets.put graph self.old) }
        ensures unchanged { OnErr result (self.new ≡ self.old) }
    {
        match place_of(self.graphs.as_slice(), &graph) {
            None => Ok(()),
            Some(place) => {
                self.graphs.insert(place, graph)?;
                Ok(())
            }
        }
    }

    /// Whether all graphs of another set are there.
    pub fn has_all(&self, other: &GraphSet) -> bool
        ensures same { IsTrue result ↔ sets.union self.now other.now ≡ self.now }
    {
        has_all(self.as_slice(), other.as_slice())
    }

    /// The graphs of both sets. It fails only when memory runs out.
    #[tactic(auto, using(dom_listseg_meaning::proofs::Rising::union_rises))]
    pub fn union(&self, alloc: Global, other: &GraphSet) -> Result<GraphSet, Memory>
        ensures union { IfOk result (λ set. set ≡ sets.union self.now other.now) }
    {
        let mut graphs = Vec::new(alloc);
        merge(&mut graphs, self.as_slice(), other.as_slice())?;
        Ok(GraphSet { graphs })
    }
}

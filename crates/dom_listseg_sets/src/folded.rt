//! Folded graphs.
ghost use Rattle.std.specs.Prelude.{◌≡◌, IfOk};
ghost use Rattle.std.specs.Ordering.{as_partial_cmp, eq_by_cmp};
ghost use Rattle.std.proofs.Common.{refl};
ghost use Rattle.shape_graph.specs.Order.{shape_cmp, shape_total, shape_equiv, shape_per, shape_po, shape_hash, shape_hash-same};
ghost use Rattle.fold_laws.specs.Folding.{fold_of};

use base_values::Memory;
use shape_graph::{ShapeGraph, fold};
use std::alloc::Global;
use std::cmp::Ordering;
use std::hash::{Hash, Hasher};
use std::marker::Model;
use std::rc::Rc;

/// A folded graph. Copies share it.
#[derive(Drop)]
pub struct FoldedGraph {
    graph: Rc<ShapeGraph>,
}

impl Model for FoldedGraph {
    ghost use Rattle.std.specs.Prelude.{◌≡◌};
    ghost use Rattle.shape_graph.specs.Shape.{Shape};
    ghost use Rattle.fold_laws.specs.Folding.{fold_of};

    ghost Value = { Shape };

    ghost view = { λ a. a.graph.value };

    ghost invariant = { λ a. fold_of a.graph.value ≡ a.graph.value };
}

impl PartialEq for FoldedGraph {
    ghost eq = { eq_by_cmp shape_cmp };

    ghost laws = { shape_per };

    fn eq(&self, other: &FoldedGraph) -> bool {
        *self.as_graph() == *other.as_graph()
    }
}

impl Eq for FoldedGraph {
    ghost laws = { shape_equiv };
}

impl PartialOrd for FoldedGraph {
    ghost partial_cmp = { as_partial_cmp shape_cmp };

    ghost laws = { shape_po };

    fn partial_cmp(&self, other: &FoldedGraph) -> Option<Ordering> {
        Some(self.cmp(other))
    }
}

impl Ord for FoldedGraph {
    ghost cmp = { shape_cmp };

    ghost total = { shape_total };

    ghost matches_partial_cmp = { λ x y. refl };

    ghost matches_eq = { λ x y. refl };

    fn cmp(&self, other: &FoldedGraph) -> Ordering {
        self.as_graph().cmp(other.as_graph())
    }
}

impl Hash for FoldedGraph {
    ghost hash_input = { shape_hash };

    ghost respects_eq = { shape_hash-same };

    fn hash<H: Hasher>(&self, state: &mut H) {
        self.as_graph().hash(state);
    }
}

impl FoldedGraph {
    /// The graph folded. It fails only when memory runs out.
    #[tactic(auto, using(crate::proofs::Folds::fold_again))]
    pub fn from_graph(alloc: Global, graph: &ShapeGraph) -> Result<FoldedGraph, Memory>
        ensures folded { IfOk result (λ folded. folded ≡ fold_of graph.now) }
    {
        let _count = graph.node_count();
        let folded = fold(alloc, graph)?;
        Ok(FoldedGraph {
            graph: Rc::new(alloc, folded)?,
        })
    }

    /// The graph.
    pub fn as_graph(&self) -> &ShapeGraph
        ensures same { result.now ≡ self.now }
        ensures folded { fold_of self.now ≡ self.now }
    {
        self.graph.as_ref()
    }

    /// The graph once more, shared. It fails where it has too many owners to count.
    pub fn copy(&self) -> Result<FoldedGraph, Memory>
        ensures same { IfOk result (λ graph. graph ≡ self.now) }
    {
        Ok(FoldedGraph {
            graph: self.graph.clone()?,
        })
    }
}

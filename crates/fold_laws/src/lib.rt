//! The fold by which list segments keep their graphs small is the fold of its definition.
//!
//! What it is that a graph folds to is a relation (`Folds` of `shape_graph`). The operations of list segments, and what fits
//! a layout, are stated by a function and by a test (`specs/Folding.antt`); they are that relation's, and what it says of
//! graphs (`specs/Fold.antt`).
//!
//! The function does nothing when it runs; it carries the theorem as its clauses.
#![tactic(auto)]

ghost use Rattle.fold_laws.specs.Fold.{FoldIsFolding, TestIsFolded};

/// The function gives the one graph to which a graph folds; the test holds of folded graphs, and of them alone.
pub fn segments_fold()
    ensures fold { FoldIsFolding }
    ensures test { TestIsFolded }
{}

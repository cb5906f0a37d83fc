//! Graphs beside graphs of their shape.
ghost use Rattle.std.specs.Prelude.{◌≡◌, ◌++◌, IfOk, OnOk};
ghost use Rattle.concrete_sem.specs.Evaluation.{same_link};
ghost use Rattle.dom_shapes_meaning.specs.Sets as sets;

use base_values::Memory;
use dom_listseg_sets::FoldedGraph;
use shape_graph::{Atom, ShapeGraph};
use std::alloc::Global;

// Whether two successors are the same.
fn same(left: Option<usize>, right: Option<usize>) -> bool
    ensures exact { result ≡ same_link left right }
{
    match (left, right) {
        (None, None) => true,
        (Some(j), Some(k)) => j == k,
        (None, Some(_)) => false,
        (Some(_), None) => false,
    }
}

// Whether nodes have the same successors.
fn same_targets(left: &[Atom], right: &[Atom]) -> bool
    ensures exact { result ≡ sets.same_targets left.now right.now }
{
    match left {
        [] => right.is_empty(),
        [first, more @ ..] => match right {
            [] => false,
            [other, others @ ..] => {
                same(first.target, other.target) && same_targets(more, others)
            }
        },
    }
}

/// Whether two graphs have the same shape.
#[tactic(auto, unfolding(dom_shapes_meaning::specs::Sets::alike))]
pub fn alike(left: &FoldedGraph, right: &FoldedGraph) -> bool
    ensures exact { result ≡ sets.alike left.now right.now }
{
    let graph = left.as_graph();
    let other = right.as_graph();
    graph.frames() == other.frames() && same_targets(graph.atoms(), other.atoms())
}

// Whether nodes are `seg` wherever others are.
fn allow(left: &[Atom], right: &[Atom]) -> bool
    ensures exact { result ≡ sets.allow left.now right.now }
{
    match left {
        [] => true,
        [first, more @ ..] => match right {
            [] => true,
            [other, others @ ..] => (first.many || !other.many) && allow(more, others),
        },
    }
}

/// Whether a graph is `seg` wherever another of its shape is.
pub fn allows(left: &FoldedGraph, right: &FoldedGraph) -> bool
    ensures exact { result ≡ sets.allow left.now.atoms right.now.atoms }
{
    allow(left.as_graph().atoms(), right.as_graph().atoms())
}

// Puts nodes that are `seg` where either are.
fn put_either(atoms: &mut Vec<Atom>, left: &[Atom], right: &[Atom]) -> Result<(), Memory>
    ensures put { OnOk result (atoms.new.items ≡ atoms.old.items ++ sets.either left.now right.now) }
{
    match left {
        [] => Ok(()),
        [first, more @ ..] => match right {
            [] => {
                atoms.extend_from_slice(left)?;
                Ok(())
            }
            [other, others @ ..] => {
                atoms.push(Atom {
                    many: first.many || other.many,
                    target: first.target,
                })?;
                put_either(atoms, more, others)
            }
        },
    }
}

/// Two graphs of one shape as one, which is `seg` where either is. It fails only when memory runs out.
#[tactic(auto, using(crate::proofs::Merged::merged_graph, crate::proofs::Merged::merged_folds))]
pub fn merged(alloc: Global, left: &FoldedGraph, right: &FoldedGraph) -> Result<FoldedGraph, Memory>
    ensures exact { IfOk result (λ g. g ≡ sets.merged left.now right.now) }
{
    let graph = left.as_graph();
    let frames = graph.copied_frames(alloc)?;
    let mut atoms = Vec::with_capacity(alloc, graph.node_count())?;
    put_either(&mut atoms, graph.atoms(), right.as_graph().atoms())?;
    FoldedGraph::from_graph(alloc, &ShapeGraph::from_parts(frames, atoms))
}

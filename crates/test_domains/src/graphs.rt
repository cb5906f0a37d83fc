//! Graphs folded by hand.
use base_values::Memory;
use shape_graph::*;
use std::alloc::Global;
use std::test::Fail;

/// A graph as it is drawn: the slots of each frame, and the atoms.
type Drawing = (&'static [&'static [Option<usize>]], &'static [Atom]);

// As `Atom::one` and `Atom::seg`, where a constant is made.
macro_rules! one {
    ($target:expr) => {
        Atom {
            many: false,
            target: $target,
        }
    };
}

macro_rules! seg {
    ($target:expr) => {
        Atom {
            many: true,
            target: $target,
        }
    };
}

/// What is drawn, and what it folds to.
const FOLDED: [(Drawing, Drawing); 9] = [
    // a single cell stays One
    (
        (&[&[Some(0)]], &[one!(None)]),
        (&[&[Some(0)]], &[one!(None)]),
    ),
    // two cells become a Seg
    (
        (&[&[Some(1)]], &[one!(None), one!(Some(0))]),
        (&[&[Some(0)]], &[seg!(None)]),
    ),
    // a Seg stays one
    (
        (&[&[Some(0)]], &[seg!(None)]),
        (&[&[Some(0)]], &[seg!(None)]),
    ),
    // two slots reach one list at different cells
    (
        (
            &[&[Some(0), Some(2)]],
            &[one!(Some(1)), one!(Some(2)), one!(None)],
        ),
        (&[&[Some(0), Some(1)]], &[seg!(Some(1)), one!(None)]),
    ),
    // two lists share a tail
    (
        (
            &[&[Some(3), Some(1)]],
            &[seg!(None), one!(Some(2)), one!(Some(0)), one!(Some(0))],
        ),
        (
            &[&[Some(0), Some(2)]],
            &[one!(Some(1)), seg!(None), seg!(Some(1))],
        ),
    ),
    // a cycle begins at its slot
    (
        (&[&[Some(0)]], &[one!(Some(1)), one!(Some(0))]),
        (&[&[Some(0)]], &[seg!(Some(0))]),
    ),
    // a cycle is entered from outside
    (
        (
            &[&[None, Some(2)]],
            &[one!(Some(1)), one!(Some(0)), one!(Some(1))],
        ),
        (&[&[None, Some(0)]], &[one!(Some(1)), seg!(Some(1))]),
    ),
    // node 0 is not reached and points to node 1, which is then no anchor
    (
        (
            &[&[Some(2)], &[None]],
            &[one!(Some(1)), one!(None), one!(Some(1))],
        ),
        (&[&[Some(0)], &[None]], &[seg!(None)]),
    ),
    // the first frame's slots number first
    (
        (&[&[Some(1)], &[Some(0), None]], &[one!(None), seg!(None)]),
        (&[&[Some(0)], &[Some(1), None]], &[seg!(None), one!(None)]),
    ),
];

// The graph, if each target is one of its nodes.
fn made(alloc: Global, drawing: &Drawing) -> Result<Option<ShapeGraph>, Memory> {
    let (slots_of_frames, atoms) = *drawing;
    let mut frames = Vec::new(alloc);
    for slots in slots_of_frames {
        frames.push(Row::from_slots(Vec::from_slice(alloc, slots)?))?;
    }
    Ok(ShapeGraph::try_from_parts(frames, Vec::from_slice(alloc, atoms)?))
}

// The graph, whose targets are nodes.
fn graph_of(alloc: Global, drawing: &Drawing) -> Result<ShapeGraph, Fail> {
    match made(alloc, drawing)? {
        Some(graph) => Ok(graph),
        None => Err("a target past the nodes".into()),
    }
}

// Whether the first graph folds to the second.
fn folds_to(alloc: Global, drawn: &Drawing, want: &Drawing) -> Result<bool, Fail> {
    let folded = fold(alloc, &graph_of(alloc, drawn)?)?;
    Ok(folded == graph_of(alloc, want)?)
}

#[test]
fn folds(rt: HostRuntime) -> Result<(), Fail> {
    for (drawn, want) in &FOLDED {
        assert!(rt; folds_to(rt.alloc(), drawn, want)?, "{drawn:?}");
    }
    Ok(())
}

/// A target past the nodes, in a slot and in an atom.
const PAST_THE_NODES: [Drawing; 2] = [
    (&[&[Some(1)]], &[one!(None)]),
    (&[&[Some(0)]], &[one!(Some(7))]),
];

#[test]
fn refuses_a_target_past_the_nodes(rt: HostRuntime) -> Result<(), Fail> {
    for drawing in &PAST_THE_NODES {
        assert!(rt; made(rt.alloc(), drawing)?.is_none(), "{drawing:?}");
    }
    Ok(())
}

/// Slots before atoms, nil before a node, One before Seg.
const ORDERED: [(Drawing, Drawing); 2] = [
    (
        (&[&[None]], &[seg!(None)]),
        (&[&[Some(0)]], &[one!(Some(0))]),
    ),
    (
        (&[&[Some(0)]], &[one!(Some(0))]),
        (&[&[Some(0)]], &[seg!(None)]),
    ),
];

// Whether the first graph is less than the second.
fn is_less(alloc: Global, drawn: &Drawing, other: &Drawing) -> Result<bool, Fail> {
    Ok(graph_of(alloc, drawn)? < graph_of(alloc, other)?)
}

#[test]
fn orders(rt: HostRuntime) -> Result<(), Fail> {
    for (drawn, other) in &ORDERED {
        assert!(rt; is_less(rt.alloc(), drawn, other)?, "{drawn:?}");
    }
    Ok(())
}

const SEG: Drawing = (&[&[Some(0)]], &[seg!(None)]);

#[test]
fn copies(rt: HostRuntime) -> Result<(), Fail> {
    let graph = graph_of(rt.alloc(), &SEG)?;
    assert!(rt; graph.copy(rt.alloc())? == graph);
    Ok(())
}

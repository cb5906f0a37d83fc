//! What no clause says: that the steps succeed, on graphs drawn by hand.

ghost use Rattle.std.specs.Prelude.{◌≡◌, [], ◌∷◌, IfOk};
ghost use Rattle.shape_graph.specs.Shape.{shape_of};

use shape_graph::{Atom, Row, ShapeGraph};
use shape_steps::*;
use std::alloc::Global;
use std::process::Abort;
use std::test::Fail;

// A single cell.
const CELL: [Atom; 1] = [Atom {
    many: false,
    target: None,
}];

// A list of one or more cells.
const LIST: [Atom; 1] = [Atom {
    many: true,
    target: None,
}];

// A cell before a list.
const CELL_AND_LIST: [Atom; 2] = [
    Atom {
        many: false,
        target: Some(1),
    },
    Atom {
        many: true,
        target: None,
    },
];

// The graph with one frame of two slots.
fn pair(
    alloc: Global,
    first: Option<usize>,
    second: Option<usize>,
    atoms: &[Atom],
) -> Result<ShapeGraph, Fail>
    ensures pair { IfOk result (λ graph. graph ≡ shape_of ((first ∷ second ∷ []) ∷ []) atoms.now) }
{
    let slots = Vec::from_slice(alloc, &[first, second])?;
    let frames = vec![in alloc; Row::from_slots(slots)]?;
    match ShapeGraph::try_from_parts(frames, Vec::from_slice(alloc, atoms)?) {
        Some(graph) => Ok(graph),
        None => Err("a target past the nodes".into()),
    }
}

// Asserts that a graph is that with one frame of two slots.
fn expect_pair(
    rt: &impl Abort,
    alloc: Global,
    graph: &ShapeGraph,
    slots: (Option<usize>, Option<usize>),
    atoms: &[Atom],
) -> Result<(), Fail> {
    let wanted = pair(alloc, slots.0, slots.1, atoms)?;
    assert!(rt; *graph == wanted, "{slots:?} {atoms:?}");
    Ok(())
}

#[test]
fn exposes_lists(rt: HostRuntime) -> Result<(), Fail> {
    let a = rt.alloc();
    let graphs = expose(a, &pair(a, Some(0), None, &LIST)?, 0)?;
    assert!(rt; graphs.len() == 2);
    expect_pair(&rt, a, &graphs[0], (Some(0), None), &CELL)?;
    expect_pair(&rt, a, &graphs[1], (Some(0), None), &CELL_AND_LIST)
}

#[test]
fn exposes_cells(rt: HostRuntime) -> Result<(), Fail> {
    let a = rt.alloc();
    let graphs = expose(a, &pair(a, Some(0), None, &CELL)?, 0)?;
    assert!(rt; graphs.len() == 1);
    expect_pair(&rt, a, &graphs[0], (Some(0), None), &CELL)
}

// p = q, p = q.next
#[test]
fn sets_slots(rt: HostRuntime) -> Result<(), Fail> {
    let a = rt.alloc();
    let chain = pair(a, Some(0), None, &CELL_AND_LIST)?;
    for target in 0..2 {
        let set = forget(a, &chain, 1, Some(target))?;
        expect_pair(&rt, a, &set, (Some(0), Some(target)), &CELL_AND_LIST)?;
    }
    Ok(())
}

// p.next = p
#[test]
fn sets_nodes(rt: HostRuntime) -> Result<(), Fail> {
    let a = rt.alloc();
    let written = set_next(a, &pair(a, Some(0), None, &CELL_AND_LIST)?, 0, Some(0))?;
    let atoms = [Atom::one(Some(0)), Atom::seg(None)];
    expect_pair(&rt, a, &written, (Some(0), None), &atoms)
}

// q = new
#[test]
fn adds_cells(rt: HostRuntime) -> Result<(), Fail> {
    let a = rt.alloc();
    let added = new_cell(a, &pair(a, Some(0), None, &CELL_AND_LIST)?, 1)?;
    let atoms = [Atom::one(Some(1)), Atom::seg(None), Atom::one(None)];
    expect_pair(&rt, a, &added, (Some(0), Some(2)), &atoms)
}

#[test]
fn adds_frames(rt: HostRuntime) -> Result<(), Fail> {
    let a = rt.alloc();
    let called = push_frame(a, &pair(a, Some(0), None, &LIST)?, &[None])?;
    assert!(rt; called.frames().len() == 2);
    assert!(rt; called.frames()[1].as_slice() == [None].as_slice());
    Ok(())
}

#[test]
fn removes_frames(rt: HostRuntime) -> Result<(), Fail> {
    let a = rt.alloc();
    let called = push_frame(a, &pair(a, Some(0), None, &LIST)?, &[None])?;
    expect_pair(&rt, a, &pop_frame(a, &called, 1)?, (Some(0), None), &LIST)
}

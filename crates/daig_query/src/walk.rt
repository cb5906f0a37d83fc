//! How far a demand has come.
ghost use Rattle.std.specs.Prelude.{◌≡◌, ◌+◌, ◌<◌, ◌≤◌, ◌^◌, List, length, map, Some, slice_get, IfOk, OnOk, OnErr};
ghost use Rattle.imp_flow.specs.Reached.{target_of};
ghost use Rattle.loop_unroll.specs.Iterates.{state_in, value_at};
ghost use Rattle.daig_query.specs.Kept.{Names as OnlyNames};
ghost use Rattle.daig_query.specs.Right.{IsRight};
ghost use Rattle.daig_query.specs.Walked.{IsNew, Enters, Leaves, Stays, Drops, IsPlaced, IsAsked, Steps, AreTargets};

use crate::held::Held;
use crate::opening::{Open, has_cell, opened};
use crate::store::Store;
use base_values::Memory;
use cell_names::{Name, NameFrame, Names, PathId, Point};
use daig_graph::{Graph, Value};
use domain_laws::Domain;
use imp_flow::{Flow, Target, TargetStep};
use imp_syntax::StmtId;
use std::alloc::Global;

/// How far a demand for some targets has come. It stays good while cells are only added.
#[derive(Drop)]
pub struct Walk {
    // the target that is walked, the steps of it that are taken, and the path that they lead to
    pub(crate) target: usize,
    pub(crate) step: usize,
    pub(crate) path: PathId,
    // the cells of the last names of the targets before it
    pub(crate) found: Vec<usize>,
    // the names that are to be filled, each for the one before it
    pub(crate) stack: Vec<Open>,
}

impl Walk {
    /// A demand that is to begin.
    pub fn new(alloc: Global) -> Walk
        ensures is { IsNew result }
    {
        Walk {
            target: 0,
            step: 0,
            path: PathId::root(),
            found: Vec::new(alloc),
            stack: Vec::new(alloc),
        }
    }

    /// The cells of the last names of the targets that are left after, in order.
    pub fn found(&self) -> &[usize]
        ensures same { result.now ≡ self.now.found.items }
    {
        self.found.as_slice()
    }

    /// Takes the names off the stack that were filled in the meantime.
    pub(crate) fn drop_filled(&mut self, graph: &Graph<Held>)
        ensures is { Drops graph.now.cells self.old self.new }
    {
        'stack: while let Some(top) = self.stack.last() {
            let there = has_cell(graph, top.cell);
            if !there {
                return;
            }
            let _ = self.stack.pop();
        }
    }

    /// A step on, into a frame.
    fn enter(&mut self, names: &mut Names, frame: NameFrame) -> Result<(), Memory>
        requires there { self.old.path < length names.old.paths }
        requires room { self.old.step + 1 < 2 ^ 64 }
        ensures enters { OnOk result (Enters frame names.old names.new self.old self.new) }
        ensures walk { OnErr result (Stays self.old self.new) }
        ensures names { OnErr result (names.new ≡ names.old) }
    {
        self.path = names.add_path(self.path, frame)?;
        self.step += 1;
        Ok(())
    }

    /// On to the next target, after one whose last name has this cell.
    fn next_target(&mut self, cell: usize) -> Result<(), Memory>
        requires room { self.old.target + 1 < 2 ^ 64 }
        ensures leaves { OnOk result (Leaves cell self.old self.new) }
        ensures err { OnErr result (Stays self.old self.new) }
    {
        self.found.push(cell)?;
        self.target += 1;
        self.step = 0;
        self.path = PathId::root();
        Ok(())
    }
}

/// What a cell holds, where that is a state.
pub(crate) fn held_in(graph: &Graph<Held>, cell: usize) -> Option<Held>
    ensures is { result ≡ state_in (value_at graph.now.cells cell) }
{
    match graph.value(cell) {
        Some(Value::State(held)) => Some(*held),
        _ => None,
    }
}

/// How many targets there are.
fn count(targets: &[Target]) -> usize
    ensures is { result ≡ length targets.now }
{
    targets.len()
}

/// At a loop: its fixed point is asked for; where that has a cell the walk goes on, into the loop's last round, or to the
/// next target where the loop is an Over.
fn take<D: Domain>(
    alloc: Global,
    dom: &D,
    flow: &Flow<'_>,
    store: &mut Store<D::State>,
    targets: &[Target],
    walk: &mut Walk,
    target: &Target,
    head: StmtId,
) -> Result<Option<Open>, Memory>
    requires right { IsRight (D.operations dom.now) flow.now store.old }
    requires targets { AreTargets flow.now (map target_of targets.now) }
    requires placed { IsPlaced (D.operations dom.now) flow.now (map target_of targets.now) store.old
        walk.old }
    requires here { slice_get targets.now walk.old.target ≡ Some target.now }
    requires takes { slice_get target.now.steps walk.old.step ≡ Some (TargetStep.Take head) }
    ensures names { OnlyNames store.old store.new }
    ensures right { IsRight (D.operations dom.now) flow.now store.new }
    ensures placed { IsPlaced (D.operations dom.now) flow.now (map target_of targets.now) store.new
        walk.new }
    ensures stack { walk.new.stack.items ≡ walk.old.stack.items }
    ensures steps { IfOk result (Steps (D.operations dom.now) flow.now
        (map target_of targets.now) store.new walk.old walk.new) }
{
    let _count = count(targets);
    let _steps = target.steps.len();
    let name = Name {
        path: walk.path,
        point: Point::Fix(head),
    };
    let cell = store.names.add(name)?;
    let there = has_cell(&store.graph, cell);
    if !there {
        return Ok(Some(opened(alloc, cell, &name)));
    }
    if let Some(held) = held_in(&store.graph, cell) {
        walk.enter(&mut store.names, NameFrame::InLoop(head, held.index))?;
        return Ok(None);
    }
    walk.next_target(cell)?;
    Ok(None)
}

/// After all steps of a target: its last point is asked for; where that has a cell the walk goes on to the next target.
fn last<D: Domain>(
    alloc: Global,
    dom: &D,
    flow: &Flow<'_>,
    store: &mut Store<D::State>,
    targets: &[Target],
    walk: &mut Walk,
    target: &Target,
) -> Result<Option<Open>, Memory>
    requires right { IsRight (D.operations dom.now) flow.now store.old }
    requires targets { AreTargets flow.now (map target_of targets.now) }
    requires placed { IsPlaced (D.operations dom.now) flow.now (map target_of targets.now) store.old
        walk.old }
    requires here { slice_get targets.now walk.old.target ≡ Some target.now }
    requires behind { length target.now.steps ≤ walk.old.step }
    ensures names { OnlyNames store.old store.new }
    ensures right { IsRight (D.operations dom.now) flow.now store.new }
    ensures placed { IsPlaced (D.operations dom.now) flow.now (map target_of targets.now) store.new
        walk.new }
    ensures stack { walk.new.stack.items ≡ walk.old.stack.items }
    ensures steps { IfOk result (Steps (D.operations dom.now) flow.now
        (map target_of targets.now) store.new walk.old walk.new) }
{
    let _count = count(targets);
    let name = Name {
        path: walk.path,
        point: target.last,
    };
    let cell = store.names.add(name)?;
    let there = has_cell(&store.graph, cell);
    if !there {
        return Ok(Some(opened(alloc, cell, &name)));
    }
    walk.next_target(cell)?;
    Ok(None)
}

/// At the next step of a target, or after its last.
fn step<D: Domain>(
    alloc: Global,
    dom: &D,
    flow: &Flow<'_>,
    store: &mut Store<D::State>,
    targets: &[Target],
    walk: &mut Walk,
    target: &Target,
) -> Result<Option<Open>, Memory>
    requires right { IsRight (D.operations dom.now) flow.now store.old }
    requires targets { AreTargets flow.now (map target_of targets.now) }
    requires placed { IsPlaced (D.operations dom.now) flow.now (map target_of targets.now) store.old
        walk.old }
    requires here { slice_get targets.now walk.old.target ≡ Some target.now }
    ensures names { OnlyNames store.old store.new }
    ensures right { IsRight (D.operations dom.now) flow.now store.new }
    ensures placed { IsPlaced (D.operations dom.now) flow.now (map target_of targets.now) store.new
        walk.new }
    ensures stack { walk.new.stack.items ≡ walk.old.stack.items }
    ensures steps { IfOk result (Steps (D.operations dom.now) flow.now
        (map target_of targets.now) store.new walk.old walk.new) }
{
    let _steps = target.steps.len();
    match target.steps.get(walk.step) {
        Some(TargetStep::Go(site)) => {
            walk.enter(&mut store.names, NameFrame::InCall(*site))?;
            Ok(None)
        }
        Some(TargetStep::Take(head)) => take(alloc, dom, flow, store, targets, walk, target, *head),
        None => last(alloc, dom, flow, store, targets, walk, target),
    }
}

/// The first name that targets ask for and that has no cell, or `None` where all have.
pub(crate) fn next_demanded<D: Domain>(
    alloc: Global,
    dom: &D,
    flow: &Flow<'_>,
    store: &mut Store<D::State>,
    targets: &[Target],
    walk: &mut Walk,
) -> Result<Option<Open>, Memory>
    requires right { IsRight (D.operations dom.now) flow.now store.old }
    requires targets { AreTargets flow.now (map target_of targets.now) }
    requires placed { IsPlaced (D.operations dom.now) flow.now (map target_of targets.now) store.old
        walk.old }
    ensures names { OnlyNames store.old store.new }
    ensures right { IsRight (D.operations dom.now) flow.now store.new }
    ensures placed { IsPlaced (D.operations dom.now) flow.now (map target_of targets.now) store.new
        walk.new }
    ensures stack { walk.new.stack.items ≡ walk.old.stack.items }
    ensures asked { IfOk result (IsAsked (D.operations dom.now) flow.now
        (map target_of targets.now) store.new walk.new) }
{
    'targets: while let Some(target) = targets.get(walk.target) {
        if let Some(entry) = step(alloc, dom, flow, store, targets, walk, target)? {
            return Ok(Some(entry));
        }
    }
    Ok(None)
}

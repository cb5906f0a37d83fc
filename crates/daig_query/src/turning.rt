//! The turns of the machine that fills the missing cells of a demand.
//!
//! The names that are being filled stand on the stack of a walk, each above the one that waits for it. A turn pushes the
//! first input that the name on top misses, or fills that name.
ghost use Rattle.std.specs.Prelude.{◌≡◌, ◌<◌, [], ◌∷◌, ◌++◌, map, vec_len, IfOk, OnErr};
ghost use Rattle.imp_flow.specs.Reached.{target_of};
ghost use Rattle.daig_query.specs.Kept.{Grows, Names as OnlyNames};
ghost use Rattle.daig_query.specs.Revalidated.{FindsOnTop, IsTopValid};
ghost use Rattle.daig_query.specs.Right.{IsRight};
ghost use Rattle.daig_query.specs.Looked.{HasFurtherTop, HasOpenTop, IsTopAt, IsTopOpen, LooksAtFirst, LooksAtTop};
ghost use Rattle.daig_query.specs.Walked.{AreTargets, IsGood, IsPlaced};
ghost use Rattle.daig_query.specs.Turned.{stacked_names, HandsDown, IsTopAbsent, IsTurn, Turns};

use crate::held::Held;
use crate::opening::{Absent, Open, fill, first_absent, next_absent, opened, row_of};
use crate::revalidation::{Revalidation, keep_again, revalidate};
use crate::store::Store;
use crate::walk::{Walk, next_demanded};
use base_values::Memory;
use domain_laws::{Domain, Steps};
use imp_flow::{Flow, Target};
use imp_flow_rows::Row;
use std::alloc::Global;
use std::sync::ledger::Ledger;

/// What a turn of the machine did.
#[derive(Clone, Copy)]
pub(crate) enum TurnOutcome {
    /// It pushed the first input, or demanded name, that is missing.
    Pushed,
    /// It filled the name on top.
    Filled,
    /// The name on top may not be filled any more.
    Spent,
    /// Nothing is missing.
    Done,
}

/// With no name on the stack: the next demanded name is pushed.
fn turn_walk<D: Domain>(
    alloc: Global,
    dom: &D,
    flow: &Flow<'_>,
    store: &mut Store<D::State>,
    targets: &[Target],
    walk: &mut Walk,
) -> Result<TurnOutcome, Memory>
    requires right { IsRight (D.operations dom.now) flow.now store.old }
    requires targets { AreTargets flow.now (map target_of targets.now) }
    requires placed { IsPlaced (D.operations dom.now) flow.now (map target_of targets.now) store.old
        walk.old }
    requires empty { walk.old.stack.items ≡ [] }
    ensures right { IsRight (D.operations dom.now) flow.now store.new }
    ensures grows { Grows store.old store.new }
    ensures walk { IsGood (D.operations dom.now) flow.now (map target_of targets.now) store.new
        walk.new }
    ensures turns { IfOk result (Turns (D.operations dom.now) flow.now
        (map target_of targets.now) store.old store.new [] walk.new) }
    ensures only { OnlyNames store.old store.new }
{
    match next_demanded(alloc, dom, flow, store, targets, walk)? {
        None => Ok(TurnOutcome::Done),
        Some(entry) => {
            walk.stack.push(entry)?;
            Ok(TurnOutcome::Pushed)
        }
    }
}

/// The name on top gets the cell of the name that was filled for it: its next input. When memory runs out it does not, and
/// finds it again by its name.
#[inline]
fn hand_down(stack: &mut Vec<Open>, cell: usize)
    ensures hands { HandsDown cell stack.old.items stack.new.items }
{
    if let Some(below) = stack.last_mut() {
        let _ = below.inputs.push(cell);
    }
}

/// Finds the inputs of the name on top from left to right, up to the first that has no cell, which is given. The row is
/// that name's.
#[inline]
fn look_at_top<D: Domain>(
    dom: &D,
    flow: &Flow<'_>,
    store: &mut Store<D::State>,
    row: &Row<'_>,
    stack: &mut Vec<Open>,
) -> Result<Option<Absent>, Memory>
    requires some { 0 < vec_len stack.old }
    requires top { IsTopAt (D.operations dom.now) flow.now store.old row.now stack.old.items }
    ensures names { OnlyNames store.old store.new }
    ensures right { IsRight (D.operations dom.now) flow.now store.new }
    ensures looks { IfOk result (LooksAtTop (D.operations dom.now) flow.now store.new row.now
        stack.old.items stack.new.items) }
    ensures err { OnErr result (HasFurtherTop (D.operations dom.now) flow.now store.new row.now
        stack.old.items stack.new.items) }
{
    match stack.last_mut() {
        Some(top) => next_absent(dom, flow, store, row, top),
        None => unreachable!(),
    }
}

/// The first input of the name on top, where none is found yet, it is found without the row, and it has no cell.
#[inline]
fn first_of_top<D: Domain>(
    dom: &D,
    flow: &Flow<'_>,
    store: &mut Store<D::State>,
    stack: &mut Vec<Open>,
) -> Result<Option<Absent>, Memory>
    requires some { 0 < vec_len stack.old }
    requires right { IsRight (D.operations dom.now) flow.now store.old }
    requires top { IsTopOpen (D.operations dom.now) flow.now store.old stack.old.items }
    ensures names { OnlyNames store.old store.new }
    ensures right { IsRight (D.operations dom.now) flow.now store.new }
    ensures looks { IfOk result (LooksAtFirst (D.operations dom.now) flow.now store.new
        stack.old.items stack.new.items) }
    ensures err { OnErr result (HasOpenTop (D.operations dom.now) flow.now store.new
        stack.old.items stack.new.items) }
{
    match stack.last_mut() {
        Some(top) => first_absent(dom, flow, store, top),
        None => unreachable!(),
    }
}

/// Whether the name on top can be filled with what its stale cell held.
#[inline(always)]
fn revalidate_top<D: Domain>(
    dom: &D,
    flow: &Flow<'_>,
    store: &Store<D::State>,
    stack: &mut Vec<Open>,
) -> Result<Revalidation, Memory>
    requires some { 0 < vec_len stack.old }
    requires right { IsRight (D.operations dom.now) flow.now store.now }
    requires top { IsTopOpen (D.operations dom.now) flow.now store.now stack.old.items }
    ensures finds { IfOk result (FindsOnTop (D.operations dom.now) flow.now store.now
        stack.old.items stack.new.items) }
    ensures err { OnErr result (HasOpenTop (D.operations dom.now) flow.now store.now
        stack.old.items stack.new.items) }
{
    match stack.last_mut() {
        Some(top) => revalidate(dom, flow, store, top),
        None => unreachable!(),
    }
}

/// The name on top, which is taken off.
#[inline]
fn take_top(stack: &mut Vec<Open>) -> Open
    requires some { 0 < vec_len stack.old }
    ensures top { stack.old.items ≡ stack.new.items ++ result ∷ [] }
{
    match stack.pop() {
        Some(top) => top,
        None => unreachable!(),
    }
}

/// With a name on top of the stack, by its row: its first missing input is pushed on it, or it is filled, taken off and
/// handed down.
#[inline]
fn turn_by_row<D: Domain, L: Ledger>(
    alloc: Global,
    dom: &D,
    flow: &Flow<'_>,
    store: &mut Store<D::State>,
    targets: &[Target],
    walk: &mut Walk,
    spent: bool,
    steps: &mut Steps<L>,
) -> Result<TurnOutcome, Memory>
    requires right { IsRight (D.operations dom.now) flow.now store.old }
    requires walk { IsGood (D.operations dom.now) flow.now (map target_of targets.now) store.old
        walk.old }
    requires some { 0 < vec_len walk.old.stack }
    requires absent { IsTopAbsent store.old walk.old.stack.items }
    ensures turn { IsTurn (D.operations dom.now) flow.now (map target_of targets.now) store.old
        store.new (stacked_names store.old walk.old.stack.items) walk.new spent
        (D.counted dom.now) steps.old steps.new result }
{
    let top = &walk.stack[walk.stack.len() - 1];
    let found = row_of(flow, &store.names, &top.name);
    let Some(row) = &found else { unreachable!() };
    if let Some(absent) = look_at_top(dom, flow, store, row, &mut walk.stack)? {
        walk.stack.push(opened(alloc, absent.cell, &absent.name))?;
        return Ok(TurnOutcome::Pushed);
    }
    if spent {
        return Ok(TurnOutcome::Spent);
    }
    let entry = take_top(&mut walk.stack);
    let cell = entry.cell;
    fill(alloc, dom, flow, store, row, entry, steps)?;
    hand_down(&mut walk.stack, cell);
    Ok(TurnOutcome::Filled)
}

/// With a name on top of the stack: its first missing input is pushed on it, or it is filled, taken off and handed down. The
/// row is made only where the first input is not found without it, or has a cell.
#[inline]
fn turn_top<D: Domain, L: Ledger>(
    alloc: Global,
    dom: &D,
    flow: &Flow<'_>,
    store: &mut Store<D::State>,
    targets: &[Target],
    walk: &mut Walk,
    spent: bool,
    steps: &mut Steps<L>,
) -> Result<TurnOutcome, Memory>
    requires right { IsRight (D.operations dom.now) flow.now store.old }
    requires walk { IsGood (D.operations dom.now) flow.now (map target_of targets.now) store.old
        walk.old }
    requires some { 0 < vec_len walk.old.stack }
    requires absent { IsTopAbsent store.old walk.old.stack.items }
    ensures turn { IsTurn (D.operations dom.now) flow.now (map target_of targets.now) store.old
        store.new (stacked_names store.old walk.old.stack.items) walk.new spent
        (D.counted dom.now) steps.old steps.new result }
{
    if let Some(absent) = first_of_top(dom, flow, store, &mut walk.stack)? {
        walk.stack.push(opened(alloc, absent.cell, &absent.name))?;
        return Ok(TurnOutcome::Pushed);
    }
    turn_by_row(alloc, dom, flow, store, targets, walk, spent, steps)
}

/// With a name on top of the stack that is valid again: it is filled with what its stale cell held, taken off and handed down.
#[inline(always)]
fn turn_valid<D: Domain, L: Ledger>(
    dom: &D,
    flow: &Flow<'_>,
    store: &mut Store<D::State>,
    targets: &[Target],
    walk: &mut Walk,
    spent: bool,
    held: Held,
    steps: &mut Steps<L>,
) -> Result<TurnOutcome, Memory>
    requires right { IsRight (D.operations dom.now) flow.now store.old }
    requires walk { IsGood (D.operations dom.now) flow.now (map target_of targets.now) store.old
        walk.old }
    requires some { 0 < vec_len walk.old.stack }
    requires absent { IsTopAbsent store.old walk.old.stack.items }
    requires valid { IsTopValid (D.operations dom.now) flow.now store.old held
        walk.old.stack.items }
    ensures turn { IsTurn (D.operations dom.now) flow.now (map target_of targets.now) store.old
        store.new (stacked_names store.old walk.old.stack.items) walk.new spent
        (D.counted dom.now) steps.old steps.new result }
{
    if spent {
        return Ok(TurnOutcome::Spent);
    }
    let entry = take_top(&mut walk.stack);
    let cell = entry.cell;
    keep_again(dom, flow, store, entry, held)?;
    hand_down(&mut walk.stack, cell);
    Ok(TurnOutcome::Filled)
}

/// A turn of the machine: the next demanded name is pushed on the empty stack; the first missing input of the name on top is
/// pushed on that; or that is filled, taken off and handed down. Where `spent`, nothing is filled. A name whose stale cell is
/// valid again is filled with what that held.
#[inline]
pub(crate) fn take_turn<D: Domain, L: Ledger>(
    alloc: Global,
    dom: &D,
    flow: &Flow<'_>,
    store: &mut Store<D::State>,
    targets: &[Target],
    walk: &mut Walk,
    spent: bool,
    steps: &mut Steps<L>,
) -> Result<TurnOutcome, Memory>
    requires right { IsRight (D.operations dom.now) flow.now store.old }
    requires targets { AreTargets flow.now (map target_of targets.now) }
    requires walk { IsGood (D.operations dom.now) flow.now (map target_of targets.now) store.old
        walk.old }
    requires absent { IsTopAbsent store.old walk.old.stack.items }
    ensures turn { IsTurn (D.operations dom.now) flow.now (map target_of targets.now) store.old
        store.new (stacked_names store.old walk.old.stack.items) walk.new spent
        (D.counted dom.now) steps.old steps.new result }
{
    if walk.stack.is_empty() {
        return turn_walk(alloc, dom, flow, store, targets, walk);
    }
    match revalidate_top(dom, flow, store, &mut walk.stack)? {
        Revalidation::Changed => turn_top(alloc, dom, flow, store, targets, walk, spent, steps),
        Revalidation::Waits(absent) => {
            walk.stack.push(opened(alloc, absent.cell, &absent.name))?;
            Ok(TurnOutcome::Pushed)
        }
        Revalidation::Valid(held) => {
            turn_valid(dom, flow, store, targets, walk, spent, held, steps)
        }
    }
}

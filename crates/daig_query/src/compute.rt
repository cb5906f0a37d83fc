//! The value of a name, from those of its inputs.
ghost use Rattle.std.specs.Prelude.{◌≡◌, ◌≢◌, ◌+◌, ◌-◌, ◌<◌, ◌≤◌, ◌^◌, ℕ, IfErr, IfOk, IfSome, IsSome, MatchOption, Some, None, length, reverse, slice_get, option_map, option_copied};
ghost use Rattle.cell_names.specs.Known.{IsOnce};
ghost use Rattle.cell_names.specs.Paths.{path_at, sites_of};
ghost use Rattle.state_table.specs.Numbers.{KeepsNumbers};
ghost use Rattle.loop_unroll.specs.Iterates.{iterate_of, state_in, IsEqual};
ghost use Rattle.daig_query.specs.Kept.{IsValue};
ghost use Rattle.daig_query.specs.Right.{found, IsRight};
ghost use Rattle.daig_query.specs.Made.{IsFixed, alone_in, index_in, number, row_result, state_at};
ghost use Rattle.daig_query.specs.Recalled.{IsRemembered, IsRecalled};
ghost use Rattle.daig_query.specs.Opened.{name_of, IsReady, Computes};
ghost use Rattle.daig_query.specs.Overs.{HasNoOver, HasNoOverAt, HasOver, IsFirstOver, IsOverAt};
ghost use Rattle.daig_graph.specs.declared.value.Value.TheVariants.{Over};
ghost use Rattle.imp_flow_rows.specs.declared.row.Row.TheVariants.{Fixed};

use crate::held::Held;
use crate::opening::Open;
use crate::operations::apply;
use crate::store::Store;
use base_values::{Items, Memory};
use cell_names::{Names, PathId};
use daig_graph::{Graph, SharedChain, Value};
use domain_laws::{Domain, Steps};
use imp_flow::Flow;
use imp_flow_rows::{Row, Unary};
use imp_syntax::{Chain, StmtId};
use loop_unroll::converged;
use memo_table::Key;
use state_table::StateTable;
use std::alloc::Global;
use std::hash::Hash;
use std::sync::ledger::Ledger;

/// The first of these cells that holds an Over: its loop and its chain.
#[inline]
fn first_over<'a>(graph: &'a Graph<Held>, cells: &[usize]) -> Option<(StmtId, &'a SharedChain)>
    ensures is { MatchOption result (HasNoOver graph.now.cells cells.now (length cells.now))
        (λ r. IsFirstOver graph.now.cells cells.now r.0 r.1.now) }
{
    for cell in cells {
        if let Some(Value::Over { head, chain }) = graph.value(*cell) {
            return Some((*head, chain));
        }
    }
    None
}

/// What the cell at a place among these holds, where that is a state.
#[inline]
fn held_at(graph: &Graph<Held>, cells: &[usize], place: usize) -> Option<Held>
    ensures is { result ≡ state_in (iterate_of graph.now.cells cells.now place) }
{
    match graph.value(*cells.get(place)?) {
        Some(Value::State(held)) => Some(*held),
        _ => None,
    }
}

/// What the cell at a place among these holds, where that is a state; where there is none, nothing.
///
/// # Errors
///
/// The Over that it holds: its loop and its chain.
#[inline]
fn held_or_over<'a>(
    graph: &'a Graph<Held>,
    cells: &[usize],
    place: usize,
) -> Result<Option<Held>, (StmtId, &'a SharedChain)>
    ensures state { IfOk result (λ h. h ≡ state_in (iterate_of graph.now.cells cells.now place)) }
    ensures none { IfOk result (λ h. HasNoOverAt graph.now.cells cells.now place) }
    ensures err { IfErr result (λ r. IsOverAt graph.now.cells cells.now place r.0 r.1.now) }
{
    match cells.get(place) {
        None => Ok(None),
        Some(cell) => match graph.value(*cell) {
            None => Ok(None),
            Some(Value::State(held)) => Ok(Some(*held)),
            Some(Value::Over { head, chain }) => Err((*head, chain)),
        },
    }
}

/// What the first two of these cells hold, where no Over is among that.
///
/// # Errors
///
/// The first Over that they hold: its loop and its chain.
#[inline]
fn operands<'a>(
    graph: &'a Graph<Held>,
    cells: &[usize],
) -> Result<(Option<Held>, Option<Held>), (StmtId, &'a SharedChain)>
    ensures left { IfOk result (λ r. r.0 ≡ state_in (iterate_of graph.now.cells cells.now 0)) }
    ensures right { IfOk result (λ r. r.1 ≡ state_in (iterate_of graph.now.cells cells.now 1)) }
    ensures none { IfOk result (λ r. HasNoOver graph.now.cells cells.now 2) }
    ensures err { IfErr result (λ r. IsFirstOver graph.now.cells cells.now r.0 r.1.now) }
{
    match held_or_over(graph, cells, 0) {
        Err(over) => Err(over),
        Ok(left) => match held_or_over(graph, cells, 1) {
            Err(over) => Err(over),
            Ok(right) => Ok((left, right)),
        },
    }
}

/// Of iterates that stop at one that is the state of the iterate before it: that state, with that one's index.
#[inline]
fn settled(graph: &Graph<Held>, cells: &[usize]) -> Held
    requires equal { IsEqual (iterate_of graph.now.cells cells.now) (length cells.now - 1) }
    requires small { length cells.now ≤ 2 ^ 32 }
    ensures is { IfSome (state_in (iterate_of graph.now.cells cells.now (length cells.now - 2)))
        (λ s. result ≡ record { state = s.state; index = length cells.now - 2 }) }
{
    let index = cells.len() - 2;
    match held_at(graph, cells, index) {
        Some(held) => Held {
            state: held.state,
            index: index as u32,
        },
        None => unreachable!(),
    }
}

/// The call sites of a path, outermost first.
#[inline]
fn chain_of(alloc: Global, names: &Names, path: PathId) -> Result<SharedChain, Memory>
    requires there { path < length names.now.paths }
    ensures is { IfOk result (λ chain. chain ≡ reverse (sites_of (path_at names.now.paths path))) }
{
    let mut rest = names.sites(alloc, path)?;
    let mut sites = Items::with_capacity(alloc, rest.len())?;
    while let Some(site) = rest.pop() {
        sites.push(site)?;
    }
    SharedChain::new(alloc, Chain::new(sites))
}

/// Where the iterates of a loop stop, all of them states.
#[inline]
fn fixed<D: Domain>(
    alloc: Global,
    dom: &D,
    flow: &Flow<'_>,
    store: &Store<D::State>,
    row: &Row<'_>,
    head: StmtId,
    entry: &Open,
) -> Result<Value<Held>, Memory>
    requires ready { IsReady (D.operations dom.now) flow.now store.now row.now entry.now }
    requires states { HasNoOver store.now.graph.cells entry.now.inputs (length entry.now.inputs) }
    requires fixed { (p : _) × (row.now ≡ Fixed head p) }
    ensures value { IfOk result (λ v. IsValue store.now.states v
        (found (D.operations dom.now) flow.now (name_of store.now entry.now))) }
{
    let cells = entry.inputs.as_slice();
    if converged(&store.graph, flow.budget(), cells) {
        Ok(Value::State(settled(&store.graph, cells)))
    } else {
        let chain = chain_of(alloc, &store.names, entry.name.path)?;
        Ok(Value::Over { head, chain })
    }
}

/// The index that a row passes on from its left input.
#[inline]
fn index_of(row: &Row<'_>, left: Option<Held>) -> u32
    ensures is { result ≡ index_in row.now left }
{
    match (row, left) {
        (Row::One(Unary::Exit(_), _), Some(held)) => held.index,
        (Row::Joins(true, _, _, _), Some(held)) => held.index,
        _ => 0,
    }
}

/// The left input of a join after a loop with breaks, where it is alone.
#[inline]
fn alone(row: &Row<'_>, left: Option<Held>, right: Option<Held>) -> Option<Held>
    ensures is { result ≡ alone_in row.now left right }
{
    match (row, left, right) {
        (Row::Joins(_, _, _, _), Some(held), None) => Some(held),
        _ => None,
    }
}

/// The number of the state that is held.
#[inline]
fn number(held: Option<Held>) -> Option<usize>
    ensures is { result ≡ number held }
{
    match held {
        None => None,
        Some(held) => Some(held.state),
    }
}

/// The state that has a number.
#[inline]
fn operand<S: Eq + Hash + Drop>(states: &StateTable<S>, number: Option<usize>) -> Option<&S>
    requires known { IfSome number (λ n. n < length states.now) }
    ensures is { option_copied result ≡ state_at states.now number }
{
    match number {
        None => None,
        Some(number) => Some(states.get(number)),
    }
}

/// The number of what a row makes of the states that have these numbers, made anew. It ticks.
#[inline]
fn make_state<D: Domain, L: Ledger>(
    alloc: Global,
    dom: &D,
    states: &mut StateTable<D::State>,
    row: &Row<'_>,
    left: Option<usize>,
    right: Option<usize>,
    steps: &mut Steps<L>,
) -> Result<usize, Memory>
    requires there { IsSome (row_result (D.operations dom.now) row.now (state_at states.old left)
        (state_at states.old right)) }
    requires left { IfSome left (λ n. n < length states.old) }
    requires known { IfSome right (λ n. n < length states.old) }
    ensures is { IfOk result (λ n. slice_get states.new n ≡
        row_result (D.operations dom.now) row.now (state_at states.old left)
        (state_at states.old right)) }
    ensures kept { KeepsNumbers states.old states.new }
    ensures few { length states.new ≤ length states.old + 1 }
    ensures once { IsOnce states.old → IsOnce states.new }
    ensures ticked { steps.new ≡ steps.old + D.counted dom.now }
{
    let state = apply(
        alloc,
        dom,
        row,
        operand(states, left),
        operand(states, right),
        steps,
    )?;
    states.intern(state)
}

/// The number of what a row makes of the states that have these numbers. It ticks where that is not remembered.
#[inline]
fn result_of<D: Domain, L: Ledger>(
    alloc: Global,
    dom: &D,
    flow: &Flow<'_>,
    store: &mut Store<D::State>,
    row: &Row<'_>,
    owner: u32,
    left: Option<usize>,
    right: Option<usize>,
    steps: &mut Steps<L>,
) -> Result<usize, Memory>
    requires right { IsRight (D.operations dom.now) flow.now store.old }
    requires there { IsSome (row_result (D.operations dom.now) row.now
        (state_at store.old.states left) (state_at store.old.states right)) }
    requires left { IfSome left (λ n. n < length store.old.states) }
    requires known { IfSome right (λ n. n < length store.old.states) }
    ensures is { IfOk result (λ n. state_at store.new.states (Some n) ≡
        row_result (D.operations dom.now) row.now (state_at store.old.states left)
        (state_at store.old.states right)) }
    ensures computes { Computes (D.operations dom.now) flow.now store.old store.new }
    ensures least { steps.old ≤ steps.new }
    ensures most { steps.new ≤ steps.old + D.counted dom.now }
    ensures remembered { IsRemembered store.old row.now left right → steps.new ≡ steps.old }
{
    let operation = store.operations.number_of(alloc, row, owner)?;
    let key = Key {
        operation,
        left,
        right,
    };
    if let Some(state) = store.recent.get(&key) {
        return Ok(state);
    }
    if let Some(state) = store.memo.get(&key) {
        store.recent.keep(&key, state);
        return Ok(state);
    }
    let number = make_state(alloc, dom, &mut store.states, row, left, right, steps)?;
    store.recent.keep(&key, number);
    let _ = store.memo.keep(key, number);
    Ok(number)
}

/// The Over of an input, passed on.
#[inline]
fn passed_on(head: StmtId, chain: &SharedChain) -> Result<Value<Held>, Memory>
    ensures is { IfOk result (λ v. v ≡ Over head chain.now) }
{
    let chain = chain.clone()?;
    Ok(Value::Over { head, chain })
}

/// What a row that is no fixed point makes of inputs that all are states: these two, at most.
#[inline]
fn applied<D: Domain, L: Ledger>(
    alloc: Global,
    dom: &D,
    flow: &Flow<'_>,
    store: &mut Store<D::State>,
    row: &Row<'_>,
    entry: &Open,
    owner: u32,
    left: Option<Held>,
    right: Option<Held>,
    steps: &mut Steps<L>,
) -> Result<Value<Held>, Memory>
    requires ready { IsReady (D.operations dom.now) flow.now store.old row.now entry.now }
    requires states { HasNoOver store.old.graph.cells entry.now.inputs (length entry.now.inputs) }
    requires left { left ≡ state_in (iterate_of store.old.graph.cells entry.now.inputs 0) }
    requires right { right ≡ state_in (iterate_of store.old.graph.cells entry.now.inputs 1) }
    requires plain { (n : ℕ) (p : _) → row.now ≢ Fixed n p }
    ensures value { IfOk result (λ v. IsValue store.new.states v
        (found (D.operations dom.now) flow.now (name_of store.old entry.now))) }
    ensures computes { Computes (D.operations dom.now) flow.now store.old store.new }
    ensures least { steps.old ≤ steps.new }
    ensures most { steps.new ≤ steps.old + D.counted dom.now }
    ensures recalled { IsRecalled store.old row.now entry.now → steps.new ≡ steps.old }
{
    let index = index_of(row, left);
    if let Some(held) = alone(row, left, right) {
        let state = held.state;
        return Ok(Value::State(Held { state, index }));
    }
    let state = result_of(
        alloc,
        dom,
        flow,
        store,
        row,
        owner,
        number(left),
        number(right),
        steps,
    )?;
    Ok(Value::State(Held { state, index }))
}

/// The value of a name all of whose inputs are found: an Over among them, the left one first; else what its row makes of
/// their states. It ticks for an operation that is not remembered, and neither for a fixed point nor where an input is an
/// Over.
#[inline]
pub(crate) fn compute<D: Domain, L: Ledger>(
    alloc: Global,
    dom: &D,
    flow: &Flow<'_>,
    store: &mut Store<D::State>,
    row: &Row<'_>,
    entry: &Open,
    owner: u32,
    steps: &mut Steps<L>,
) -> Result<Value<Held>, Memory>
    requires ready { IsReady (D.operations dom.now) flow.now store.old row.now entry.now }
    ensures value { IfOk result (λ v. IsValue store.new.states v
        (found (D.operations dom.now) flow.now (name_of store.old entry.now))) }
    ensures computes { Computes (D.operations dom.now) flow.now store.old store.new }
    ensures least { steps.old ≤ steps.new }
    ensures most { steps.new ≤ steps.old + D.counted dom.now }
    ensures fixed { IsFixed row.now → steps.new ≡ steps.old }
    ensures recalled { IsRecalled store.old row.now entry.now → steps.new ≡ steps.old }
    ensures over { HasOver store.old.graph.cells entry.now.inputs → steps.new ≡ steps.old }
{
    match row {
        Row::Fixed(head, _) => {
            if let Some(over) = first_over(&store.graph, entry.inputs.as_slice()) {
                return passed_on(over.0, over.1);
            }
            fixed(alloc, dom, flow, store, row, *head, entry)
        }
        _ => match operands(&store.graph, entry.inputs.as_slice()) {
            Err(over) => passed_on(over.0, over.1),
            Ok((left, right)) => applied(
                alloc, dom, flow, store, row, entry, owner, left, right, steps,
            ),
        },
    }
}

//! What a row asks for next.
ghost use Rattle.std.specs.Prelude.{◌≡◌, List, length, None, IsTrue, option_map};
ghost use Rattle.daig_graph.specs.Cells.{AreCells};
ghost use Rattle.loop_unroll.specs.Iterates.{iterate_of, value_at, GoesOnTo, StopsWithin};
ghost use Rattle.imp_flow_rows.specs.Near.{PathFrame, input_name, row_in};
ghost use Rattle.imp_flow_rows.specs.Inputs.{iterate_of as iterate_in};
ghost use Rattle.daig_query.specs.Asked.{by_count, round_of, joined_next};
ghost use Rattle.daig_query.specs.Opened.{name_of, IsAt, next_of};

use crate::held::Held;
use crate::opening::Open;
use crate::store::Store;
use daig_graph::{Graph, Value};
use domain_laws::Domain;
use imp_flow::Flow;
use imp_flow_rows::{Input, Row};
use loop_unroll::next_wanted;

/// Of an operation on one value or two, after so many inputs.
#[inline]
fn next_of_operation(row: &Row<'_>, count: usize) -> Option<Input>
    ensures is { (w : List PathFrame) → option_map (input_name w) result ≡
        by_count count (row_in w row.now) }
{
    match count {
        0 => row.first(),
        1 => row.second(),
        _ => None,
    }
}

/// Of a fixed point: the next iterate, where the loop goes on.
#[inline]
fn next_iterate(graph: &Graph<Held>, budget: u32, row: &Row<'_>, found: &[usize]) -> Option<Input>
    requires cells { AreCells graph.now.cells found.now }
    requires earlier { GoesOnTo budget (iterate_of graph.now.cells found.now) (length found.now) }
    ensures stops { StopsWithin budget (iterate_of graph.now.cells found.now) (length found.now) →
        result ≡ None }
    ensures goes { ¬ (StopsWithin budget (iterate_of graph.now.cells found.now)
        (length found.now)) → (w : List PathFrame) →
        option_map (input_name w) result ≡ iterate_in (length found.now) (row_in w row.now) }
{
    let index = next_wanted(graph, budget, found)?;
    row.iterate(index as u32)
}

/// The index that a cell passes on, where it holds a state.
#[inline]
fn last_round(graph: &Graph<Held>, budget: u32, cell: usize) -> Option<u32>
    ensures is { result ≡ round_of budget (value_at graph.now.cells cell) }
{
    match graph.value(cell) {
        Some(Value::State(held)) if held.index < budget => Some(held.index),
        _ => None,
    }
}

/// Of a join after a loop with breaks: what is before the break in the loop's last round, if it has one.
#[inline]
fn next_joined(graph: &Graph<Held>, budget: u32, row: &Row<'_>, found: &[usize]) -> Option<Input>
    ensures is { (w : List PathFrame) → option_map (input_name w) result ≡
        joined_next budget graph.now.cells found.now (row_in w row.now) }
{
    match found.len() {
        0 => row.first(),
        1 => row.before_break(last_round(graph, budget, found[0])?),
        _ => None,
    }
}

/// Whether a name whose row has one input alone has that. Then there is no next one, and none is made to be looked at.
#[inline]
pub(crate) fn has_one_input<D: Domain>(
    dom: &D,
    flow: &Flow<'_>,
    store: &Store<D::State>,
    row: &Row<'_>,
    entry: &Open,
) -> bool
    requires at { IsAt (D.operations dom.now) flow.now store.now row.now entry.now }
    ensures complete { IsTrue result → next_of (D.operations dom.now) flow.now store.now entry.now ≡
        None }
{
    match row {
        Row::One(_, _) => entry.inputs.len() > 0,
        _ => false,
    }
}

/// The next input of a name that is being filled, by its row.
#[inline]
pub(crate) fn next_input<D: Domain>(
    dom: &D,
    flow: &Flow<'_>,
    store: &Store<D::State>,
    row: &Row<'_>,
    entry: &Open,
) -> Option<Input>
    requires at { IsAt (D.operations dom.now) flow.now store.now row.now entry.now }
    ensures next { option_map (input_name (name_of store.now entry.now).path) result ≡
        next_of (D.operations dom.now) flow.now store.now entry.now }
{
    let found = entry.inputs.as_slice();
    match row {
        Row::Fixed(_, _) => next_iterate(&store.graph, flow.budget(), row, found),
        Row::Joins(_, _, _, _) => next_joined(&store.graph, flow.budget(), row, found),
        _ => next_of_operation(row, found.len()),
    }
}

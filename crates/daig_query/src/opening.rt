//! Names that are being filled.
ghost use Rattle.std.specs.Prelude.{◌≡◌, ◌+◌, ◌≤◌, ◌<◌, [], false, Some, length, option_map, is_some, IfOk, IfSome, OnOk, OnErr};
ghost use Rattle.std.specs.FinMap as map;
ghost use Rattle.cell_names.specs.Paths.{path_at, name_in};
ghost use Rattle.imp_flow_rows.specs.Near.{row_in};
ghost use Rattle.daig_query.specs.Kept.{kept, Names as OnlyNames};
ghost use Rattle.daig_query.specs.Opened.{name_of, next_of, row_at, unfound, IsAt, IsFurther, IsNext, IsOpen, IsReady, Puts, Computes, StaysOpen};
ghost use Rattle.daig_query.specs.Made.{IsFixed};
ghost use Rattle.daig_query.specs.Recalled.{IsRecalled};
ghost use Rattle.daig_query.specs.Overs.{HasOver};
ghost use Rattle.daig_query.specs.Right.{IsRight};

use crate::compute::compute;
use crate::held::Held;
use crate::inputs::{has_one_input, next_input};
use crate::store::Store;
use base_values::Memory;
use cell_names::{Name, Names};
use daig_graph::{Graph, Inputs};
use domain_laws::{Domain, Steps};
use imp_flow::Flow;
use imp_flow_rows::Row;
use std::alloc::Global;
use std::sync::ledger::Ledger;

/// A name that is to be filled: its number, and the cells of those of its inputs that are found.
#[derive(Drop)]
pub(crate) struct Open {
    pub(crate) cell: usize,
    pub(crate) name: Name,
    pub(crate) inputs: Inputs,
}

/// A name that has no cell, and its number.
#[derive(Clone, Copy)]
pub(crate) struct Absent {
    pub(crate) cell: usize,
    pub(crate) name: Name,
}

/// A name none of whose inputs is found yet.
#[inline]
pub(crate) fn opened(alloc: Global, cell: usize, name: &Name) -> Open
    ensures is { result ≡ record { cell = cell; name = name.now; inputs = [] } }
{
    Open {
        cell,
        name: *name,
        inputs: Inputs::new(alloc),
    }
}

/// A name that has no cell.
#[inline]
fn without_cell(cell: usize, name: &Name) -> Absent
    ensures is { result ≡ record { cell = cell; name = name.now } }
{
    Absent { cell, name: *name }
}

/// Whether there is a cell of this number.
#[inline]
pub(crate) fn has_cell(graph: &Graph<Held>, cell: usize) -> bool
    ensures is { result ≡ is_some (map.get graph.now.cells cell) }
{
    match graph.value(cell) {
        Some(_) => true,
        None => false,
    }
}

/// The row of a name.
#[inline(always)]
pub(crate) fn row_of<'a>(flow: &'a Flow<'_>, names: &Names, name: &Name) -> Option<Row<'a>>
    requires there { name.now.path < length names.now.paths }
    ensures is { option_map (row_in (path_at names.now.paths name.now.path)) result ≡
        row_at flow.now (name_in names.now.paths name.now) }
{
    let frame = match names.last_frame(name.path) {
        Some((_, frame)) => Some(frame),
        None => None,
    };
    flow.row(frame, name.point)
}

/// The first input of a name none of whose inputs is found yet, where it has the same path and its point tells it.
#[inline]
fn first_input<D: Domain>(
    dom: &D,
    flow: &Flow<'_>,
    store: &Store<D::State>,
    entry: &Open,
) -> Option<Name>
    requires right { IsRight (D.operations dom.now) flow.now store.now }
    requires entry { IsOpen (D.operations dom.now) flow.now store.now entry.now }
    ensures path { IfSome result (λ x. x.path ≡ entry.now.name.path) }
    ensures next { IfSome result (λ x. next_of (D.operations dom.now) flow.now store.now entry.now ≡
        Some (name_in store.now.names.paths x)) }
{
    if entry.inputs.len() > 0 {
        return None;
    }
    match flow.point_before(entry.name.point) {
        None => None,
        Some(point) => Some(Name {
            path: entry.name.path,
            point,
        }),
    }
}

/// The first input of a name none of whose inputs is found yet, where it is found without the row and has no cell. Where it
/// has a cell, the name gets that.
#[inline]
pub(crate) fn first_absent<D: Domain>(
    dom: &D,
    flow: &Flow<'_>,
    store: &mut Store<D::State>,
    entry: &mut Open,
) -> Result<Option<Absent>, Memory>
    requires right { IsRight (D.operations dom.now) flow.now store.old }
    requires entry { IsOpen (D.operations dom.now) flow.now store.old entry.old }
    ensures names { OnlyNames store.old store.new }
    ensures right { IsRight (D.operations dom.now) flow.now store.new }
    ensures stays { StaysOpen (D.operations dom.now) flow.now store.new entry.old entry.new }
    ensures next { IfOk result (λ found. IfSome found (λ a. IsNext (D.operations dom.now) flow.now
        store.new entry.new (Some (unfound a)))) }
{
    match first_input(dom, flow, store, entry) {
        None => Ok(None),
        Some(name) => {
            let cell = store.names.add_input(name, entry.cell, 0)?;
            let there = has_cell(&store.graph, cell);
            if !there {
                return Ok(Some(without_cell(cell, &name)));
            }
            entry.inputs.push(cell)?;
            Ok(None)
        }
    }
}

/// Finds the inputs of a name from left to right, up to the first that has no cell, which is given.
#[inline]
pub(crate) fn next_absent<D: Domain>(
    dom: &D,
    flow: &Flow<'_>,
    store: &mut Store<D::State>,
    row: &Row<'_>,
    entry: &mut Open,
) -> Result<Option<Absent>, Memory>
    requires at { IsAt (D.operations dom.now) flow.now store.old row.now entry.old }
    ensures names { OnlyNames store.old store.new }
    ensures right { IsRight (D.operations dom.now) flow.now store.new }
    ensures further { IsFurther (D.operations dom.now) flow.now store.new row.now entry.old
        entry.new }
    ensures next { IfOk result (λ found. IsNext (D.operations dom.now) flow.now store.new entry.new
        (option_map unfound found)) }
{
    if has_one_input(dom, flow, store, row, entry) {
        return Ok(None);
    }
    'inputs: while let Some(input) = next_input(dom, flow, store, row, entry) {
        let name = input.name(&mut store.names, entry.name.path)?;
        let cell = store.names.add_input(name, entry.cell, entry.inputs.len())?;
        let there = has_cell(&store.graph, cell);
        if !there {
            return Ok(Some(without_cell(cell, &name)));
        }
        entry.inputs.push(cell)?;
    }
    Ok(None)
}

/// Fills a name all of whose inputs are found. It ticks for an operation that is not remembered, and neither for a fixed
/// point nor where an input is an Over.
#[inline]
pub(crate) fn fill<D: Domain, L: Ledger>(
    alloc: Global,
    dom: &D,
    flow: &Flow<'_>,
    store: &mut Store<D::State>,
    row: &Row<'_>,
    entry: Open,
    steps: &mut Steps<L>,
) -> Result<(), Memory>
    requires ready { IsReady (D.operations dom.now) flow.now store.old row.now entry }
    requires absent { kept store.old (name_of store.old entry) ≡ false }
    ensures puts { OnOk result (Puts (D.operations dom.now) flow.now store.old store.new
        (name_of store.old entry)) }
    ensures err { OnErr result (Computes (D.operations dom.now) flow.now store.old store.new) }
    ensures least { steps.old ≤ steps.new }
    ensures most { steps.new ≤ steps.old + D.counted dom.now }
    ensures fixed { IsFixed row.now → steps.new ≡ steps.old }
    ensures recalled { IsRecalled store.old row.now entry → steps.new ≡ steps.old }
    ensures over { HasOver store.old.graph.cells entry.inputs → steps.new ≡ steps.old }
{
    let owner = store.names.owner(&entry.name);
    let value = compute(alloc, dom, flow, store, row, &entry, owner, steps)?;
    let Open {
        cell,
        name: _,
        inputs,
    } = entry;
    store.stale.make_place(cell)?;
    store.graph.fill(cell, owner, value, inputs)
}

//! The walk over the cells that some cells lead to by inputs.
ghost use Rattle.std.specs.Prelude.{◌≡◌, Some, slice_get, reverse, IfOk, OnOk, IsSome};
ghost use Rattle.std.specs.FinMap as map;
ghost use Rattle.cell_names.specs.Paths.{CellName};
ghost use Rattle.cell_rows.specs.Flat.{flat_row};
ghost use Rattle.cell_graph.specs.Same.{same_name};
ghost use Rattle.daig_graph.specs.Cells.{AreCells, Filled};
ghost use Rattle.daig_query.specs.declared.held.Held.{Held};
ghost use Rattle.daig_query.specs.Right.{IsRight};
ghost use Rattle.why_slice.specs.Upstream.{hung_on};
ghost use Rattle.why_cells.specs.Reached.{IsSetOf, Joins};
ghost use Rattle.why_cells.specs.Told.{Takes, TellsReached};

use crate::hanging::tell;
use base_sets::NumberSet;
use base_values::Memory;
use daig_query::Engine;
use domain_laws::Domain;
use imp_flow::Flow;
use std::alloc::Global;
use why_slice::StatementSet;

/// Adds cells, each at most once. The set has the cells of the list.
#[inline(always)]
fn add_all(cells: &mut Vec<usize>, seen: &mut NumberSet, more: &[usize]) -> Result<(), Memory>
    requires set { IsSetOf cells.old.items seen.old }
    ensures set { OnOk result (IsSetOf cells.new.items seen.new) }
    ensures joins { OnOk result (Joins cells.old.items more.now cells.new.items) }
{
    for cell in more {
        let next = *cell;
        if !seen.has(next) {
            seen.add(next)?;
            cells.push(next)?;
        }
    }
    Ok(())
}

/// Tells of a cell, and adds its inputs.
#[inline(always)]
fn look<D: Domain>(
    engine: &Engine<D>,
    flow: &Flow<'_>,
    cell: usize,
    cells: &mut Vec<usize>,
    seen: &mut NumberSet,
    told: &mut StatementSet,
) -> Result<(), Memory>
    requires right { IsRight (D.operations engine.now.domain) flow.now engine.now.store }
    requires there { IsSome (map.get engine.now.store.graph.cells cell) }
    requires set { IsSetOf cells.old.items seen.old }
    ensures set { OnOk result (IsSetOf cells.new.items seen.new) }
    ensures joins { (f : Filled Held) → map.get engine.now.store.graph.cells cell ≡ Some f →
        OnOk result (Joins cells.old.items f.inputs cells.new.items) }
    ensures inputs { (f : Filled Held) → map.get engine.now.store.graph.cells cell ≡ Some f →
        AreCells engine.now.store.graph.cells f.inputs }
    ensures tells { (x : CellName) → slice_get engine.now.store.names.names cell ≡ Some x →
        OnOk result (Takes told.old (hung_on (D.operations engine.now.domain) flow.now.engine
        flow.now.program same_name x (flat_row flow.now.engine (reverse flow.now.program) x.path
        x.point)) told.new) }
{
    match engine.graph().inputs(cell) {
        Some(inputs) => {
            tell(engine, flow, cell, inputs, told)?;
            add_all(cells, seen, inputs)
        }
        None => unreachable!(),
    }
}

/// The statements on which the names of the cells hang that these lead to by inputs, these among them. One walk looks at
/// each of the cells once. It takes time in proportion to the cells and their inputs, and a step more for each 64 numbers
/// up to the greatest of them; a leap may take more, as [`tell`] says.
///
/// # Errors
///
/// [`Memory`] alone.
#[inline(never)]
pub(crate) fn all_hung<D: Domain>(
    alloc: Global,
    engine: &Engine<D>,
    flow: &Flow<'_>,
    seeds: &[usize],
) -> Result<StatementSet, Memory>
    requires right { IsRight (D.operations engine.now.domain) flow.now engine.now.store }
    requires cells { AreCells engine.now.store.graph.cells seeds.now }
    ensures are { IfOk result (λ told. TellsReached (D.operations engine.now.domain) flow.now
        engine.now.store seeds.now told) }
{
    let mut cells = Vec::new(alloc);
    let mut seen = NumberSet::new(alloc);
    let mut told = StatementSet::new(alloc);
    add_all(&mut cells, &mut seen, seeds)?;
    let mut next = 0;
    'cells: while next < cells.len() {
        let cell = cells[next];
        look(engine, flow, cell, &mut cells, &mut seen, &mut told)?;
        next += 1;
    }
    Ok(told)
}

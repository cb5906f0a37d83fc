//! The cells whose own row is changed.
ghost use Rattle.std.specs.Prelude.{◌≡◌, ◌<◌, length, IfOk, OnOk};
ghost use Rattle.std.specs.Bool.{Decides};
ghost use Rattle.cell_names.specs.Paths.{path_at, name_in};
ghost use Rattle.imp_flow_rows.specs.Near.{last_frame};
ghost use Rattle.edit_invalidate.specs.Touched.{AddsTouched, AreNamed, AreTouched, KeepsCell, inputs_at, name_at};

use crate::compare::same_rows;
use base_values::Memory;
use cell_names::{Name, NameFrame, Names, PathId};
use daig_graph::Graph;
use imp_flow::Flow;
use std::alloc::Global;

/// The last frame of a path, if it has one.
#[tactic(auto, using(crate::proofs::Keeping::last_none, crate::proofs::Keeping::last_some))]
fn last_of(names: &Names, path: PathId) -> Option<NameFrame>
    requires there { path < length names.now.paths }
    ensures is { result ≡ last_frame (path_at names.now.paths path) }
{
    match names.last_frame(path) {
        None => None,
        Some((_, frame)) => Some(frame),
    }
}

/// How many inputs a cell has.
#[tactic(auto, using(crate::proofs::Keeping::none_counted, crate::proofs::Keeping::some_counted))]
fn input_count<V>(graph: &Graph<V>, cell: usize) -> usize
    ensures is { result ≡ inputs_at graph.now.cells cell }
{
    match graph.inputs(cell) {
        None => 0,
        Some(inputs) => inputs.len(),
    }
}

/// Whether a name keeps its row from one program to another, where its cell has so many inputs.
#[tactic(auto, using(crate::proofs::Keeping::old_lacks, crate::proofs::Keeping::new_lacks))]
fn name_keeps_row(names: &Names, old: &Flow<'_>, new: &Flow<'_>, name: &Name, inputs: usize) -> bool
    requires there { name.now.path < length names.now.paths }
    ensures is { Decides result (KeepsCell old.now new.now (name_in names.now.paths name.now)
        inputs) }
{
    let frame = last_of(names, name.path);
    match &old.row(frame, name.point) {
        None => false,
        Some(row) => match &new.row(frame, name.point) {
            None => false,
            Some(other) => same_rows(frame.is_none(), inputs == 1, row, other),
        },
    }
}

/// Whether a cell keeps its row from one program to another.
#[tactic(auto, using(crate::proofs::Keeping::of_name))]
fn keeps_row<V>(
    graph: &Graph<V>,
    names: &Names,
    old: &Flow<'_>,
    new: &Flow<'_>,
    cell: usize,
) -> bool
    requires there { cell < length names.now.names }
    ensures is { Decides result (KeepsCell old.now new.now (name_at names.now.names cell)
        (inputs_at graph.now.cells cell)) }
{
    let name = names.get(cell);
    name_keeps_row(names, old, new, &name, input_count(graph, cell))
}

/// Adds the cells of a statement whose own row is changed.
#[tactic(auto, using(crate::proofs::Adding::seen_none))]
fn add_touched<V>(
    graph: &Graph<V>,
    names: &Names,
    old: &Flow<'_>,
    new: &Flow<'_>,
    stmt: u32,
    touched: &mut Vec<usize>,
) -> Result<(), Memory>
    requires named { AreNamed graph.now.cells names.now.names }
    ensures adds { OnOk result (AddsTouched old.now new.now names.now.names graph.now.cells stmt
        touched.old.items touched.new.items) }
{
    for cell in graph.cells_of_statement(stmt) {
        if !keeps_row(graph, names, old, new, cell) {
            touched.push(cell)?;
        }
    }
    Ok(())
}

/// The cells of the changed statements whose own row is changed.
#[tactic(auto, using(crate::proofs::Adding::touched_none))]
pub(crate) fn touched<V>(
    alloc: Global,
    graph: &Graph<V>,
    names: &Names,
    old: &Flow<'_>,
    new: &Flow<'_>,
    changed: &[u32],
) -> Result<Vec<usize>, Memory>
    requires named { AreNamed graph.now.cells names.now.names }
    ensures are { IfOk result (λ xs. AreTouched old.now new.now names.now.names graph.now.cells
        changed.now xs.items) }
{
    let mut touched = Vec::new(alloc);
    for stmt in changed {
        add_touched(graph, names, old, new, *stmt, &mut touched)?;
    }
    Ok(touched)
}

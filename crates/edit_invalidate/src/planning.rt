//! What an edit takes away.
ghost use Rattle.std.specs.Prelude.{IfOk};
ghost use Rattle.cell_removal.specs.Removal.{IsRising, Removes};
ghost use Rattle.edit_invalidate.specs.Touched.{AreNamed, AreTouched, IsTouched};

use crate::touching::touched;
use base_values::{Items, Memory};
use cell_names::Names;
use cell_removal::{RemovalOrder, removal};
use daig_graph::Graph;
use imp_flow::Flow;
use std::alloc::Global;

/// The cells that a change of the program empties.
#[derive(Drop)]
pub struct Emptying {
    /// All of them, each after those that use it.
    pub order: RemovalOrder,
    /// Those whose own row is changed. The others only depend on them.
    pub touched: Items<usize>,
}

/// The cells that a change of the program empties: those of the changed statements whose own row is changed, and all that
/// are computed from these. Changed are the statements that `points_changed` gives. Nothing is changed yet.
///
/// It takes time in proportion to the cells of the changed statements, the cells of the plan and their inputs.
///
/// # Errors
///
/// [`Memory`] alone.
pub fn plan<V>(
    alloc: Global,
    graph: &Graph<V>,
    names: &Names,
    old: &Flow<'_>,
    new: &Flow<'_>,
    changed: &[u32],
) -> Result<Emptying, Memory>
    requires named { AreNamed graph.now.cells names.now.names }
    requires rising { IsRising graph.now.cells }
    ensures removes { IfOk result (λ emptying. Removes graph.now.cells
        (IsTouched old.now new.now names.now.names graph.now.cells changed.now) emptying.order) }
    ensures touched { IfOk result (λ emptying. AreTouched old.now new.now names.now.names
        graph.now.cells changed.now emptying.touched) }
{
    let touched = touched(alloc, graph, names, old, new, changed)?;
    let order = removal(alloc, graph, touched.as_slice())?;
    Ok(Emptying {
        order,
        touched: Items::from_vec(touched),
    })
}

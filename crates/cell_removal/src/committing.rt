//! Taking planned cells away.
ghost use Rattle.std.specs.Prelude.{◌≡◌};
ghost use Rattle.cell_removal.specs.Removal.{IsOrder, without};

use crate::planning::RemovalOrder;
use daig_graph::Graph;

/// Takes the planned cells away; the others stay as they are, and so do the places. It takes no memory, and as many steps
/// as the cells have inputs.
#[inline]
pub fn commit<V>(graph: &mut Graph<V>, plan: RemovalOrder)
where
    V: Drop,
    requires order { IsOrder graph.old.cells plan }
    ensures removes { graph.new.cells ≡ without graph.old.cells plan }
    ensures places { graph.new.places ≡ graph.old.places }
{
    for cell in plan.cells() {
        graph.remove(*cell);
    }
}

//! The next iterate, and how iterates stop.
ghost use Rattle.std.specs.Prelude.{◌≡◌, length, IsTrue, ◌↔◌, IsNone, IfSome};
ghost use Rattle.base_values.specs.Claims.{IsDecided};
ghost use Rattle.daig_graph.specs.Cells.{AreCells};
ghost use Rattle.loop_unroll.specs.Iterates.{iterate_of, GoesOnTo, StopsWithin, ConvergesWithin, OverrunsWithin};

use crate::stage::{Stage, stage_of};
use daig_graph::Graph;

/// The index of the next iterate that is wanted, or `None` where the iterates so far hold the one at which they stop.
#[inline]
pub fn next_wanted<V: Eq>(graph: &Graph<V>, budget: u32, cells: &[usize]) -> Option<usize>
    requires equality { IsDecided V.eq }
    requires cells { AreCells graph.now.cells cells.now }
    requires earlier { GoesOnTo budget (iterate_of graph.now.cells cells.now) (length cells.now) }
    ensures none { IsNone result ↔ StopsWithin budget (iterate_of graph.now.cells cells.now)
        (length cells.now) }
    ensures next { IfSome result (λ n. n ≡ length cells.now) }
{
    match stage_of(graph, budget, cells) {
        Stage::Open => Some(cells.len()),
        Stage::Over | Stage::Equal | Stage::Spent => None,
    }
}

/// Whether the iterates stop at one that is the state of the iterate before it.
#[inline]
pub fn converged<V: Eq>(graph: &Graph<V>, budget: u32, cells: &[usize]) -> bool
    requires equality { IsDecided V.eq }
    requires cells { AreCells graph.now.cells cells.now }
    requires earlier { GoesOnTo budget (iterate_of graph.now.cells cells.now) (length cells.now) }
    ensures is { IsTrue result ↔ ConvergesWithin (iterate_of graph.now.cells cells.now)
        (length cells.now) }
{
    matches!(stage_of(graph, budget, cells), Stage::Equal)
}

/// Whether the iterates stop at an Over, or with the budget used up.
#[inline]
pub fn over<V: Eq>(graph: &Graph<V>, budget: u32, cells: &[usize]) -> bool
    requires equality { IsDecided V.eq }
    requires cells { AreCells graph.now.cells cells.now }
    requires earlier { GoesOnTo budget (iterate_of graph.now.cells cells.now) (length cells.now) }
    ensures is { IsTrue result ↔ OverrunsWithin budget (iterate_of graph.now.cells cells.now)
        (length cells.now) }
{
    matches!(stage_of(graph, budget, cells), Stage::Over | Stage::Spent)
}

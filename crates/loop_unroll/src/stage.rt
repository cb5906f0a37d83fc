//! What the last of some iterates is.
ghost use Rattle.std.specs.Prelude.{◌≡◌, length, ◌<◌, IsTrue, ◌↔◌, Some, option_copied};
ghost use Rattle.base_values.specs.Claims.{IsDecided};
ghost use Rattle.daig_graph.specs.Cells.{AreCells};
ghost use Rattle.daig_graph.specs.declared.value.Value.TheVariants.{State};
ghost use Rattle.loop_unroll.specs.Iterates.{iterate_of, value_at, state_in, GoesOnTo, IsEqual};
ghost use Rattle.loop_unroll.specs.Stages.{IsStage, spent_or_open};

use daig_graph::{Graph, Value};

/// Whether iterates stop at the last one, and why.
#[derive(Clone, Copy)]
pub(crate) enum Stage {
    /// They go on.
    Open,
    /// It is an Over.
    Over,
    /// It is the state of the iterate before it.
    Equal,
    /// The budget is used up.
    Spent,
}

/// What the last iterate is, where they stop at none before it.
#[inline]
pub(crate) fn stage_of<V: Eq>(graph: &Graph<V>, budget: u32, cells: &[usize]) -> Stage
    requires equality { IsDecided V.eq }
    requires cells { AreCells graph.now.cells cells.now }
    requires earlier { GoesOnTo budget (iterate_of graph.now.cells cells.now) (length cells.now) }
    ensures stage { IsStage budget (iterate_of graph.now.cells cells.now)
        (length cells.now) result }
{
    let count = cells.len();
    if count == 0 {
        return Stage::Open;
    }
    let last = count - 1;
    match graph.value(cells[last]) {
        None => Stage::Open,
        Some(Value::Over { head: _, chain: _ }) => Stage::Over,
        Some(Value::State(state)) => {
            if repeats(graph, cells, last, state) {
                Stage::Equal
            } else {
                spent_at(budget, last)
            }
        }
    }
}

/// The budget is used up at its own number.
#[inline]
fn spent_at(budget: u32, last: usize) -> Stage
    ensures is { result ≡ spent_or_open budget last }
{
    if last == budget as usize {
        Stage::Spent
    } else {
        Stage::Open
    }
}

/// Whether an iterate has the state of the one before it.
#[inline]
fn repeats<V: Eq>(graph: &Graph<V>, cells: &[usize], last: usize, state: &V) -> bool
    requires equality { IsDecided V.eq }
    requires within { last < length cells.now }
    requires state { iterate_of graph.now.cells cells.now last ≡ Some (State state.now) }
    ensures is { IsTrue result ↔ IsEqual (iterate_of graph.now.cells cells.now) last }
{
    if last == 0 {
        return false;
    }
    match state_at(graph, cells[last - 1]) {
        Some(before) => *before == *state,
        None => false,
    }
}

/// The state that a cell holds, if it holds one.
#[inline]
fn state_at<V>(graph: &Graph<V>, cell: usize) -> Option<&V>
    ensures is { option_copied result ≡ state_in (value_at graph.now.cells cell) }
{
    match graph.value(cell) {
        Some(Value::State(state)) => Some(state),
        _ => None,
    }
}

//! The order of states.
ghost use Rattle.std.specs.Prelude.{◌≡◌};
ghost use Rattle.std.specs.Option.{option_map};
ghost use Rattle.dom_listseg_words.specs.Words as meant;
ghost use Rattle.dom_listseg_words.specs.Words.{state_in};

use dom_listseg_sets::FoldedGraph;

/// Whether a graph is among these.
fn has(graphs: &[FoldedGraph], graph: &FoldedGraph) -> bool
    ensures exact { result ≡ meant.has graphs.now graph.now }
{
    match graphs {
        [] => false,
        [first, rest @ ..] => *graph == *first || has(rest, graph),
    }
}

/// Whether all others are among these.
fn have_all(graphs: &[FoldedGraph], others: &[FoldedGraph]) -> bool
    ensures exact { result ≡ meant.have_all graphs.now others.now }
{
    match others {
        [] => true,
        [first, rest @ ..] => has(graphs, first) && have_all(graphs, rest),
    }
}

/// Whether the left state, given by its graphs, none for Top, is found below the right one.
pub fn leq(left: Option<&[FoldedGraph]>, right: Option<&[FoldedGraph]>) -> bool
    ensures exact { result ≡ meant.leq (state_in (option_map (λ g. g.now) left.entry))
        (state_in (option_map (λ g. g.now) right.entry)) }
{
    match (left, right) {
        (_, None) => true,
        (None, Some(_)) => false,
        (Some(left), Some(right)) => have_all(right, left),
    }
}

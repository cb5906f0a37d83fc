//! The order of states.
ghost use Rattle.std.specs.Prelude.{◌≡◌, length};
ghost use Rattle.std.specs.Option.{option_copied};
ghost use Rattle.dom_octagon_words.specs.Words as meant;
ghost use Rattle.dom_octagon_words.specs.Words.{state_in};

use dbm_core::Matrix;

/// Whether a bound is at most another.
fn bound_leq(left: Option<i128>, right: Option<i128>) -> bool
    ensures exact { result ≡ meant.bound_leq left right }
{
    match (left, right) {
        (_, None) => true,
        (None, Some(_)) => false,
        (Some(x), Some(y)) => x <= y,
    }
}

/// Whether no entry exceeds the other's.
#[tactic(auto, using(crate::proofs::Below::place_within, crate::proofs::Texts::some_row, crate::proofs::Texts::few_places, crate::proofs::Below::all_so_far, crate::proofs::Below::not_all))]
fn entries_leq(left: &Matrix, right: &Matrix) -> bool
    requires as_many { length right.now.kinds ≡ length left.now.kinds }
    ensures exact { result ≡ meant.entries_leq left.now right.now }
{
    let nodes = 2 * left.kinds().len();
    for place in 0..nodes * nodes {
        let (row, column) = (place / nodes, place % nodes);
        if !bound_leq(left.get(row, column), right.get(row, column)) {
            return false;
        }
    }
    true
}

/// Whether there are as many slots, and no entry exceeds the other's.
fn matrix_leq(left: &Matrix, right: &Matrix) -> bool
    ensures exact { result ≡ meant.matrix_leq left.now right.now }
{
    left.kinds().len() == right.kinds().len() && entries_leq(left, right)
}

/// Whether the left state, given by the matrix of what closing it answers, is found below the right one,
/// given by its matrix.
pub fn leq(closed: Option<&Matrix>, right: Option<&Matrix>) -> bool
    ensures exact { result ≡ meant.closed_leq (state_in (option_copied closed.entry))
        (state_in (option_copied right.entry)) }
{
    match (closed, right) {
        (None, _) => true,
        (Some(_), None) => false,
        (Some(left), Some(right)) => matrix_leq(left, right),
    }
}

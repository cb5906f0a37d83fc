//! A bound lowered in a matrix of least weights, in one pass over the entries.
ghost use Rattle.std.specs.Prelude.{◌≡◌, ◌<◌, ◌*◌, ◌^◌, ℕ, ℤ, Option, Some, MatchOption};
ghost use Rattle.std.specs.Bool.{MatchBool};
ghost use Rattle.dbm_close.specs.Walks.{HasNegativeWalk};
ghost use Rattle.dbm_core.specs.Half.{IsMatrix, entry, nodes};
ghost use Rattle.dbm_core.specs.Limits.{AreWithin, IsWithin};
ghost use Rattle.dbm_core.specs.Nodes.{IsCoherent};
ghost use Rattle.dbm_core.specs.Operations.{lowered};
ghost use Rattle.dbm_core.specs.Weights.{AtMost};
ghost use Rattle.dbm_incremental.specs.Triangles.{AreSoundWeights, edged};

use crate::ends::{ends_of, go_over};
use dbm_close::{is_negative, plus};
use dbm_core::{Matrix, other_sign, smaller};

/// Lowers a bound, and so its mirror image, in a matrix of least weights: of the walks of any
/// matrix whose least weights these are, with the bound lowered, it has the least weights again.
/// False where a closed walk is then below 0; the matrix is then of no use.
pub fn lower(weights: &mut Matrix, i: usize, j: usize, bound: i128) -> bool
    requires row { i < nodes weights.old }
    requires column { j < nodes weights.old }
    requires within { AreWithin (nodes weights.old) (2 ^ 96) (entry weights.old) }
    requires small { IsWithin (2 ^ 96) (Some bound) }
    ensures matrix { IsMatrix weights.new }
    ensures same_kinds { weights.new.kinds ≡ weights.old.kinds }
    ensures lowered { (w : ℕ → ℕ → Option ℤ) → IsCoherent w (nodes weights.old) →
        AreSoundWeights w (nodes weights.old) (entry weights.old) →
        MatchBool result (AreSoundWeights (lowered w i j bound) (nodes weights.old)
        (entry weights.new)) (HasNegativeWalk (lowered w i j bound) (nodes weights.old)) }
    ensures within { (b : ℕ) → AreWithin (nodes weights.old) b (entry weights.old) →
        IsWithin b (Some bound) → AreWithin (nodes weights.new) (16 * b) (entry weights.new) }
{
    let _slots = weights.kinds();
    if is_not_above(weights.get(i, j), bound) {
        return true;
    }
    if is_negative(plus(Some(bound), weights.get(j, i))) {
        return false;
    }
    let around = over_edge(weights, i, j, bound, other_sign(i), other_sign(j));
    if is_negative(plus(Some(bound), around)) {
        return false;
    }
    let ends = ends_of(weights, i, j, bound);
    go_over(weights, &ends);
    true
}

// Whether there is a bound that is not above this one.
fn is_not_above(a: Option<i128>, bound: i128) -> bool
    ensures below { MatchBool result (AtMost a (Some bound)) (AtMost (Some bound) a) }
{
    match a {
        Some(x) => x <= bound,
        None => false,
    }
}

/// The bound from i to j when walks may use an edge from a to b.
pub fn over_edge(d: &Matrix, a: usize, b: usize, c: i128, i: usize, j: usize) -> Option<i128>
    requires first { a < nodes d.now }
    requires last { b < nodes d.now }
    requires row { i < nodes d.now }
    requires column { j < nodes d.now }
    requires within { AreWithin (nodes d.now) (2 ^ 96) (entry d.now) }
    requires small { IsWithin (2 ^ 96) (Some c) }
    ensures bound { result ≡ edged (entry d.now) a b c i j }
    ensures small { IsWithin (2 ^ 98) result }
{
    smaller(d.get(i, j), plus(d.get(i, a), plus(Some(c), d.get(b, j))))
}

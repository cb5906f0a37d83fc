//! The bounds to and from the two ends of a bound that is lowered.
ghost use Rattle.std.specs.Prelude.{◌≡◌, ◌<◌, ◌≤◌, ◌^◌, ℕ, None, Some, length, slice_index_or};
ghost use Rattle.dbm_core.specs.Half.{IsMatrix, entry, nodes, row_width};
ghost use Rattle.dbm_core.specs.Limits.{AreWithin, IsWithin};
ghost use Rattle.dbm_core.specs.Weights.{add_weight};
ghost use Rattle.dbm_incremental.specs.Ends.{AreSmallEnds, HasEnds, ends_entry, over_both};
ghost use Rattle.dbm_incremental.specs.Triangles.{edged};

use crate::lowering::over_edge;
use dbm_close::{column, plus};
use dbm_core::{Matrix, other_sign, smaller};

/// The bounds to and from an edge, and those to and from its mirror image when walks may use it.
#[derive(Drop)]
pub struct Ends {
    pub to_first: [Option<i128>; 32],
    pub from_first: [Option<i128>; 32],
    pub to_second: [Option<i128>; 32],
    pub from_second: [Option<i128>; 32],
}

/// The bounds to and from the edge from a to b, which weighs c, and its mirror image.
pub fn ends_of(d: &Matrix, a: usize, b: usize, c: i128) -> Ends
    requires first { a < nodes d.now }
    requires last { b < nodes d.now }
    requires within { AreWithin (nodes d.now) (2 ^ 96) (entry d.now) }
    requires small { IsWithin (2 ^ 96) (Some c) }
    ensures bounds { HasEnds (nodes d.now) (entry d.now) a b c result }
    ensures small { AreSmallEnds result }
{
    let count = 2 * d.kinds().len();
    let behind = other_sign(b);
    let ahead = other_sign(a);
    let to_first = column(
        count,
        |i: usize| -> Option<i128>
            requires row { i < nodes d.now }
            requires first { a < nodes d.now }
            ensures value { result ≡ entry d.entry.now i a }
        { d.get(i, a) },
    );
    let from_first = column(
        count,
        |j: usize| -> Option<i128>
            requires column { j < nodes d.now }
            requires last { b < nodes d.now }
            requires within { AreWithin (nodes d.now) (2 ^ 96) (entry d.now) }
            requires small { IsWithin (2 ^ 96) (Some c) }
            ensures value { result ≡ add_weight (Some c) (entry d.entry.now b j) }
        { plus(Some(c), d.get(b, j)) },
    );
    let to_second = column(
        count,
        |i: usize| -> Option<i128>
            requires row { i < nodes d.now }
            requires first { a < nodes d.now }
            requires last { b < nodes d.now }
            requires middle { behind < nodes d.now }
            requires within { AreWithin (nodes d.now) (2 ^ 96) (entry d.now) }
            requires small { IsWithin (2 ^ 96) (Some c) }
            ensures value { result ≡ edged (entry d.entry.now) a b c i behind }
        { over_edge(d, a, b, c, i, behind) },
    );
    let from_second = column(
        count,
        |j: usize| -> Option<i128>
            requires column { j < nodes d.now }
            requires first { a < nodes d.now }
            requires last { b < nodes d.now }
            requires middle { ahead < nodes d.now }
            requires within { AreWithin (nodes d.now) (2 ^ 96) (entry d.now) }
            requires small { IsWithin (2 ^ 96) (Some c) }
            ensures value { result ≡ add_weight (Some c) (edged (entry d.entry.now) a b c ahead j) }
        { plus(Some(c), over_edge(d, a, b, c, ahead, j)) },
    );
    Ends {
        to_first,
        from_first,
        to_second,
        from_second,
    }
}

// The bound from i to j when walks may use both edges.
fn over_ends(ends: &Ends, i: usize, j: usize, bound: Option<i128>) -> Option<i128>
    requires row { i < 32 }
    requires column { j < 32 }
    requires small { AreSmallEnds ends.now }
    ensures bound { result ≡ over_both ends.now i j bound }
{
    let first = smaller(bound, plus(ends.to_first[i], ends.from_first[j]));
    smaller(first, plus(ends.to_second[i], ends.from_second[j]))
}

/// Lets walks use both edges, in place; the diagonal stays.
pub fn go_over(d: &mut Matrix, ends: &Ends)
    requires small { AreSmallEnds ends.now }
    ensures matrix { IsMatrix d.new }
    ensures same_kinds { d.new.kinds ≡ d.old.kinds }
    ensures kept { (i j : ℕ) → i < nodes d.old → j < row_width i →
        entry d.new i j ≡ ends_entry ends.now i j (entry d.old i j) }
{
    let _slots = d.kinds();
    d.update(
        |i: usize, j: usize, bound: Option<i128>| -> Option<i128>
            requires row { i < 32 }
            requires column { j < 32 }
            requires small { AreSmallEnds ends.now }
            ensures value { result ≡ ends_entry ends.entry.now i j bound }
        {
            if i == j {
                bound
            } else {
                over_ends(ends, i, j, bound)
            }
        },
    );
}

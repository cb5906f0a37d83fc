//! The bounds that comparisons, ranges and equations add, and what they make of a matrix before it is
//! closed.
ghost use Rattle.std.specs.Prelude.{◌≡◌, ◌<◌, ◌*◌, ◌+◌, ◌^◌, ◌+ℤ◌, ◌-ℤ◌, Some, neg_ℤ};
ghost use Rattle.dbm_core.specs.Half.{HalfMatrix};
ghost use Rattle.dbm_core.specs.Limits.{IsWithin};
ghost use Rattle.dom_octagon_meaning.specs.Matrices as matrices;
ghost use Rattle.dom_octagon.specs.Added.{IsEnd, IsSmallBound, with_bound_if};
ghost use Rattle.dom_octagon.specs.GoodForms.{IsGoodForm};
ghost use Rattle.dom_octagon_states.specs.Limits.{IsReady};

use dbm_core::{Matrix, other_sign};
use dbm_incremental::Bound;
use dom_octagon_meaning::Form;
use dom_octagon_states::Bounds;
use num_bounds::Range;

/// Makes the bound on `v_j - v_i` at most this one, where these are nodes of the matrix.
pub fn bound(m: &mut Matrix, i: usize, j: usize, c: i128)
    requires small { IsWithin (2 ^ 70) (Some c) }
    ensures value { m.new ≡ matrices.with_bound m.old i j c }
    ensures ready { IsReady m.old → IsReady m.new }
{
    let nodes = 2 * m.kinds().len();
    if i < nodes && j < nodes {
        m.set_least(i, j, c);
    }
}

/// Adds the bound, if there is one.
fn bound_if(m: &mut Matrix, added: Option<Bound>)
    requires small { IsSmallBound added }
    ensures value { m.new ≡ with_bound_if m.old added }
    ensures ready { IsReady m.old → IsReady m.new }
{
    match added {
        None => {}
        Some(added) => bound(m, added.row, added.column, added.bound),
    }
}

/// The bound that makes `v_i` at most c.
fn greatest(i: usize, c: i128) -> Option<Bound>
    requires node { i < 2 ^ 60 }
    requires small { IsWithin (2 ^ 69) (Some c) }
    ensures value { (m : HalfMatrix) → with_bound_if m result ≡ matrices.with_greatest m i c }
    ensures small { IsSmallBound result }
{
    Some(Bound {
        row: other_sign(i),
        column: i,
        bound: c + c,
    })
}

/// The greatest value that is left of v_i - v_j, where v_i + c is at most v_j + d and k.
fn gap(k: i128, d: i128, c: i128) -> i128
    requires most { IsWithin 1 (Some k) }
    requires right { IsWithin (2 ^ 64) (Some d) }
    requires left { IsWithin (2 ^ 64) (Some c) }
    ensures value { result ≡ (k +ℤ d) -ℤ c }
    ensures small { IsWithin (2 ^ 69) (Some result) }
    ensures within { IsWithin (2 ^ 70) (Some result) }
{
    k + d - c
}

/// The bound that makes a - b at most k.
pub fn difference(a: Form, b: Form, k: i128) -> Option<Bound>
    requires left { IsGoodForm (Some a) }
    requires right { IsGoodForm (Some b) }
    requires small { IsWithin 1 (Some k) }
    ensures value { (m : HalfMatrix) → with_bound_if m result ≡ matrices.with_difference m a b k }
    ensures small { IsSmallBound result }
{
    match (a, b) {
        (Form::Constant(_), Form::Constant(_)) => None,
        (Form::Constant(c), Form::Node(j, d)) => greatest(other_sign(j), gap(k, d, c)),
        (Form::Node(i, c), Form::Constant(d)) => greatest(i, gap(k, d, c)),
        (Form::Node(i, c), Form::Node(j, d)) => Some(Bound {
            row: j,
            column: i,
            bound: gap(k, d, c),
        }),
    }
}

/// The greatest value of a node of an int slot.
fn node_extreme(i: usize) -> i128
    ensures value { result ≡ matrices.node_extreme i }
{
    if i % 2 == 0 {
        9223372036854775807
    } else {
        9223372036854775808
    }
}

/// Whether an int slot's node is at most c anyway.
fn is_beyond(kinds: &[bool], i: usize, c: i128) -> bool
    ensures value { result ≡ matrices.is_beyond kinds.now i c }
{
    let slot = i / 2;
    if slot < kinds.len() && kinds[slot] {
        return false;
    }
    node_extreme(i) <= c
}

/// The bound that makes `v_i` at most an end of a range: an int slot takes none at or beyond its
/// extreme.
#[tactic(auto, unfolding(dom_octagon_meaning::specs::Matrices::meets_end))]
fn end(kinds: &[bool], i: usize, c: i128) -> Option<Bound>
    requires node { i < 2 ^ 60 }
    requires small { IsWithin (2 ^ 69) (Some c) }
    ensures value { (n : HalfMatrix) → n.kinds ≡ kinds.now →
        with_bound_if n result ≡ matrices.meets_end n i c }
    ensures small { IsSmallBound result }
{
    if is_beyond(kinds, i, c) {
        None
    } else {
        greatest(i, c)
    }
}

/// Makes `v_i` at most an end of a range.
fn meet_end(m: &mut Matrix, i: usize, c: i128)
    requires node { i < 2 ^ 60 }
    requires small { IsWithin (2 ^ 69) (Some c) }
    ensures value { m.new ≡ matrices.meets_end m.old i c }
    ensures ready { IsReady m.old → IsReady m.new }
{
    let added = end(m.kinds(), i, c);
    bound_if(m, added);
}

/// Makes a slot meet a range.
pub fn meet_range(m: &mut Matrix, k: usize, r: Range)
    requires slot { k < 2 ^ 40 }
    ensures value { m.new ≡ matrices.meets_range m.old k r }
    ensures ready { IsReady m.old → IsReady m.new }
{
    let low = r.lo() as i128;
    let high = r.hi() as i128;
    meet_end(m, 2 * k, high);
    meet_end(m, 2 * k + 1, -low);
}

/// The bound that makes a slot at most the greatest number of a range.
pub fn high_bound(m: &Bounds, k: usize, r: Range) -> Option<Bound>
    requires slot { k < 2 ^ 40 }
    ensures value { IsEnd m.now.kinds (2 * k) r.hi result }
    ensures small { IsSmallBound result }
{
    end(m.kinds(), 2 * k, r.hi() as i128)
}

/// The bound that makes a slot at least the least number of a range.
pub fn low_bound(m: &Bounds, k: usize, r: Range) -> Option<Bound>
    requires slot { k < 2 ^ 40 }
    ensures value { IsEnd m.now.kinds (2 * k + 1) (neg_ℤ r.lo) result }
    ensures small { IsSmallBound result }
{
    end(m.kinds(), 2 * k + 1, -(r.lo() as i128))
}

/// The bound that makes a side of a comparison h at most.
pub fn side_at_most(m: &Bounds, form: Option<Form>, h: i128) -> Option<Bound>
    requires good { IsGoodForm form }
    requires small { IsWithin (2 ^ 65) (Some h) }
    ensures value { (n : HalfMatrix) → n.kinds ≡ m.now.kinds →
        with_bound_if n result ≡ matrices.side_at_most n form h }
    ensures small { IsSmallBound result }
{
    match form {
        Some(Form::Node(i, c)) => end(m.kinds(), i, h - c),
        Some(Form::Constant(_)) => None,
        None => None,
    }
}

/// The bound that makes a side of a comparison l at least.
pub fn side_at_least(m: &Bounds, form: Option<Form>, l: i128) -> Option<Bound>
    requires good { IsGoodForm form }
    requires small { IsWithin (2 ^ 65) (Some l) }
    ensures value { (n : HalfMatrix) → n.kinds ≡ m.now.kinds →
        with_bound_if n result ≡ matrices.side_at_least n form l }
    ensures small { IsSmallBound result }
{
    match form {
        Some(Form::Node(i, c)) => end(m.kinds(), other_sign(i), c - l),
        Some(Form::Constant(_)) => None,
        None => None,
    }
}

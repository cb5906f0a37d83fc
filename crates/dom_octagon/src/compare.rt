//! Comparisons of expressions over a closed matrix.
ghost use Rattle.std.specs.Prelude.{◌≡◌, ◌^◌, ◌+ℤ◌, ◌-ℤ◌, pos, Some, IfOk};
ghost use Rattle.domain_laws.specs.Checks.{opposite};
ghost use Rattle.dbm_core.specs.Half.{HalfMatrix};
ghost use Rattle.dbm_core.specs.Limits.{IsWithin};
ghost use Rattle.dbm_close.specs.CloseOf.{close_of};
ghost use Rattle.dom_octagon_meaning.specs.Operations as operations;
ghost use Rattle.dom_octagon.specs.Added.{IsSmallBound, with_bound_if};
ghost use Rattle.dom_octagon.specs.GoodForms.{IsGoodForm};
ghost use Rattle.dom_octagon_states.specs.Limits.{IsTight};

use crate::added::close_with;
use crate::evaluate::evaluate;
use crate::matrices::{difference, side_at_least, side_at_most};
use base_values::Memory;
use dbm_incremental::Bound;
use dom_octagon_meaning::Form;
use dom_octagon_states::{Bounds, OctagonState, closure, empty, joined};
use imp_slots::SlotExpr;
use imp_syntax::Relation;
use num_bounds::Range;
use std::alloc::Global;

/// What is less than the greatest number of a range.
fn below(r: Range) -> i128
    ensures value { result ≡ r.hi -ℤ pos 1 }
    ensures small { IsWithin (2 ^ 65) (Some result) }
{
    r.hi() as i128 - 1
}

/// What is greater than the least number of a range.
fn above(l: Range) -> i128
    ensures value { result ≡ l.lo +ℤ pos 1 }
    ensures small { IsWithin (2 ^ 65) (Some result) }
{
    l.lo() as i128 + 1
}

/// The greatest number of a range.
fn top(r: Range) -> i128
    ensures value { result ≡ r.hi }
    ensures small { IsWithin (2 ^ 65) (Some result) }
{
    r.hi() as i128
}

/// The least number of a range.
fn bottom(l: Range) -> i128
    ensures value { result ≡ l.lo }
    ensures small { IsWithin (2 ^ 65) (Some result) }
{
    l.lo() as i128
}

/// The bound that makes a less than b.
fn less_bound(m: &Bounds, a: Option<Form>, b: Option<Form>, l: Range, r: Range) -> Option<Bound>
    requires left { IsGoodForm a }
    requires right { IsGoodForm b }
    ensures value { (n : HalfMatrix) → n.kinds ≡ m.now.kinds →
        with_bound_if n result ≡ operations.less_matrix n a b l r }
    ensures small { IsSmallBound result }
{
    match (a, b) {
        (Some(f), Some(g)) => difference(f, g, -1),
        (Some(f), None) => side_at_most(m, Some(f), below(r)),
        (None, _) => side_at_least(m, b, above(l)),
    }
}

/// The bound that makes a at most b.
fn most_bound(m: &Bounds, a: Option<Form>, b: Option<Form>, l: Range, r: Range) -> Option<Bound>
    requires left { IsGoodForm a }
    requires right { IsGoodForm b }
    ensures value { (n : HalfMatrix) → n.kinds ≡ m.now.kinds →
        with_bound_if n result ≡ operations.at_most_matrix n a b l r }
    ensures small { IsSmallBound result }
{
    match (a, b) {
        (Some(f), Some(g)) => difference(f, g, 0),
        (Some(f), None) => side_at_most(m, Some(f), top(r)),
        (None, _) => side_at_least(m, b, bottom(l)),
    }
}

fn less(
    alloc: Global,
    m: &Bounds,
    a: Option<Form>,
    b: Option<Form>,
    l: Range,
    r: Range,
) -> Result<OctagonState, Memory>
    requires tight { IsTight m.now }
    requires left { IsGoodForm a }
    requires right { IsGoodForm b }
    ensures exact { IfOk result (λ s. s ≡ operations.less m.now a b l r) }
{
    if r.hi() <= l.lo() {
        return Ok(empty());
    }
    close_with(alloc, m, less_bound(m, a, b, l, r), None)
}

fn at_most(
    alloc: Global,
    m: &Bounds,
    a: Option<Form>,
    b: Option<Form>,
    l: Range,
    r: Range,
) -> Result<OctagonState, Memory>
    requires tight { IsTight m.now }
    requires left { IsGoodForm a }
    requires right { IsGoodForm b }
    ensures exact { IfOk result (λ s. s ≡ operations.at_most m.now a b l r) }
{
    if r.hi() < l.lo() {
        return Ok(empty());
    }
    close_with(alloc, m, most_bound(m, a, b, l, r), None)
}

fn equal(
    alloc: Global,
    m: &Bounds,
    a: Option<Form>,
    b: Option<Form>,
    l: Range,
    r: Range,
) -> Result<OctagonState, Memory>
    requires tight { IsTight m.now }
    requires left { IsGoodForm a }
    requires right { IsGoodForm b }
    ensures exact { IfOk result (λ s. s ≡ operations.equal m.now a b l r) }
{
    if r.hi() < l.lo() || l.hi() < r.lo() {
        return Ok(empty());
    }
    met(alloc, m, a, b, l, r)
}

/// What is left where a is at most b and b at most a, closed once.
fn met(
    alloc: Global,
    m: &Bounds,
    a: Option<Form>,
    b: Option<Form>,
    l: Range,
    r: Range,
) -> Result<OctagonState, Memory>
    requires tight { IsTight m.now }
    requires left { IsGoodForm a }
    requires right { IsGoodForm b }
    ensures exact { IfOk result (λ s. s ≡ close_of (operations.at_most_matrix
        (operations.at_most_matrix m.now a b l r) b a r l)) }
{
    let there = most_bound(m, a, b, l, r);
    let back = most_bound(m, b, a, r, l);
    close_with(alloc, m, there, back)
}

fn not_equal(
    alloc: Global,
    m: &Bounds,
    a: Option<Form>,
    b: Option<Form>,
    l: Range,
    r: Range,
) -> Result<OctagonState, Memory>
    requires tight { IsTight m.now }
    requires left { IsGoodForm a }
    requires right { IsGoodForm b }
    ensures exact { IfOk result (λ s. s ≡ operations.join (operations.less m.now a b l r)
        (operations.less m.now b a r l)) }
{
    let below = less(alloc, m, a, b, l, r)?;
    let above = less(alloc, m, b, a, r, l)?;
    joined(alloc, &below, &above)
}

/// What a comparison leaves of a closed matrix, from the linear forms and the ranges of the sides.
pub fn related(
    alloc: Global,
    relation: Relation,
    m: &Bounds,
    a: Option<Form>,
    b: Option<Form>,
    l: Range,
    r: Range,
) -> Result<OctagonState, Memory>
    requires tight { IsTight m.now }
    requires left { IsGoodForm a }
    requires right { IsGoodForm b }
    ensures exact { IfOk result (λ s. s ≡ operations.related relation m.now a b l r) }
{
    match relation {
        Relation::Equal => equal(alloc, m, a, b, l, r),
        Relation::NotEqual => not_equal(alloc, m, a, b, l, r),
        Relation::Less => less(alloc, m, a, b, l, r),
        Relation::AtMost => at_most(alloc, m, a, b, l, r),
        Relation::Greater => less(alloc, m, b, a, r, l),
        Relation::AtLeast => at_most(alloc, m, b, a, r, l),
    }
}

/// What a comparison of expressions leaves of a closed matrix.
fn compare_terms(
    alloc: Global,
    relation: Relation,
    a: &SlotExpr,
    b: &SlotExpr,
    m: &Bounds,
) -> Result<OctagonState, Memory>
    requires tight { IsTight m.now }
    ensures exact { IfOk result (λ s. s ≡ operations.compare_terms relation a.now b.now m.now) }
{
    let Some(left) = evaluate(m, a) else {
        return Ok(empty());
    };
    let Some(right) = evaluate(m, b) else {
        return Ok(empty());
    };
    related(
        alloc,
        relation,
        m,
        left.form,
        right.form,
        left.range,
        right.range,
    )
}

/// What a comparison of expressions leaves of a state.
#[tactic(auto, unfolding(dom_octagon_meaning::specs::Operations::compare))]
pub fn compared(
    alloc: Global,
    relation: Relation,
    a: &SlotExpr,
    b: &SlotExpr,
    s: &OctagonState,
) -> Result<OctagonState, Memory>
    ensures exact { IfOk result (λ t. t ≡ operations.compare relation a.now b.now s.now) }
{
    match closure(s) {
        None => Ok(empty()),
        Some(m) => compare_terms(alloc, relation, a, b, m),
    }
}

/// The relation that holds exactly where the other does not.
pub fn opposite_of(relation: Relation) -> Relation
    ensures exact { result ≡ opposite relation }
{
    match relation {
        Relation::Equal => Relation::NotEqual,
        Relation::NotEqual => Relation::Equal,
        Relation::Less => Relation::AtLeast,
        Relation::AtMost => Relation::Greater,
        Relation::Greater => Relation::AtMost,
        Relation::AtLeast => Relation::Less,
    }
}

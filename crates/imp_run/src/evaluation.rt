//! Values of expressions and conditions.
ghost use Rattle.std.specs.Prelude.{◌≡◌, ◌+ℤ◌, ◌-ℤ◌, ◌*ℤ◌, neg_ℤ};
ghost use Rattle.concrete_sem.specs.Evaluation.{word, quotient, remainder, combine, relates, same_link, side_at, value_of, truth_of};
ghost use Rattle.imp_run.specs.Attempts.{attempt_of};

use crate::slots::Slots;
use concrete_sem::FaultKind;
use imp_slots::{SlotCond, SlotCondNode, SlotExpr, SlotExprNode};
use imp_syntax::{Operator, Relation};

#[tactic(auto, using(crate::proofs::Words::word_fits, crate::proofs::Words::word_does_not_fit))]
fn sum(x: i64, y: i64) -> Result<i64, FaultKind>
    ensures is { attempt_of result ≡ word (x +ℤ y) }
{
    match x.checked_add(y) {
        Some(z) => Ok(z),
        None => Err(FaultKind::Overflow),
    }
}

#[tactic(auto, using(crate::proofs::Words::word_fits, crate::proofs::Words::word_does_not_fit))]
fn difference(x: i64, y: i64) -> Result<i64, FaultKind>
    ensures is { attempt_of result ≡ word (x -ℤ y) }
{
    match x.checked_sub(y) {
        Some(z) => Ok(z),
        None => Err(FaultKind::Overflow),
    }
}

#[tactic(auto, using(crate::proofs::Words::word_fits, crate::proofs::Words::word_does_not_fit))]
fn product(x: i64, y: i64) -> Result<i64, FaultKind>
    ensures is { attempt_of result ≡ word (x *ℤ y) }
{
    match x.checked_mul(y) {
        Some(z) => Ok(z),
        None => Err(FaultKind::Overflow),
    }
}

#[tactic(auto, using(crate::proofs::Words::word_fits, crate::proofs::Words::word_does_not_fit))]
fn negative(x: i64) -> Result<i64, FaultKind>
    ensures is { attempt_of result ≡ word (neg_ℤ x) }
{
    match x.checked_neg() {
        Some(z) => Ok(z),
        None => Err(FaultKind::Overflow),
    }
}

/// The quotient, rounded towards 0.
fn quotient(x: i64, y: i64) -> Result<i64, FaultKind>
    ensures is { attempt_of result ≡ quotient x y }
{
    if y == 0 {
        return Err(FaultKind::Zero);
    }
    match x.checked_div(y) {
        Some(z) => Ok(z),
        None => Err(FaultKind::Overflow),
    }
}

/// The remainder, with the dividend's sign.
fn remainder(x: i64, y: i64) -> Result<i64, FaultKind>
    ensures is { attempt_of result ≡ remainder x y }
{
    if y == 0 {
        return Err(FaultKind::Zero);
    }
    match x.checked_rem(y) {
        Some(z) => Ok(z),
        None => Err(FaultKind::Overflow),
    }
}

fn combine(operator: Operator, x: i64, y: i64) -> Result<i64, FaultKind>
    ensures is { attempt_of result ≡ combine operator x y }
{
    match operator {
        Operator::Add => sum(x, y),
        Operator::Subtract => difference(x, y),
        Operator::Multiply => product(x, y),
        Operator::Divide => quotient(x, y),
        Operator::Remainder => remainder(x, y),
    }
}

/// The value of an expression. Takes time linear in the expression.
#[tactic(auto, unfolding(concrete_sem::specs::Evaluation::value_of))]
pub(crate) fn value_of(slots: &Slots, expr: &SlotExpr) -> Result<i64, FaultKind>
    ensures is { attempt_of result ≡ value_of slots.now expr.now }
{
    match expr.node() {
        SlotExprNode::Literal(number) => Ok(number.value() as i64),
        SlotExprNode::Slot(x) => Ok(slots.int_at(*x)),
        SlotExprNode::Length(a) => Ok(slots.length_at(*a)),
        SlotExprNode::Negative(e) => match value_of(slots, e) {
            Ok(x) => negative(x),
            Err(fault) => Err(fault),
        },
        SlotExprNode::Binary(operator, e, f) => match value_of(slots, e) {
            Ok(x) => match value_of(slots, f) {
                Ok(y) => combine(*operator, x, y),
                Err(fault) => Err(fault),
            },
            Err(fault) => Err(fault),
        },
    }
}

fn relates(relation: Relation, x: i64, y: i64) -> bool
    ensures is { result ≡ relates relation x y }
{
    match relation {
        Relation::Equal => x == y,
        Relation::NotEqual => x != y,
        Relation::Less => x < y,
        Relation::AtMost => x <= y,
        Relation::Greater => x > y,
        Relation::AtLeast => x >= y,
    }
}

fn same_link(p: Option<usize>, q: Option<usize>) -> bool
    ensures is { result ≡ same_link p q }
{
    match (p, q) {
        (None, None) => true,
        (Some(j), Some(k)) => j == k,
        (None, Some(_)) => false,
        (Some(_), None) => false,
    }
}

/// The link of a slot, or null.
pub(crate) fn side_at(slots: &Slots, side: Option<u32>) -> Option<usize>
    ensures is { result ≡ side_at slots.now side }
{
    match side {
        Some(p) => slots.link_at(p),
        None => None,
    }
}

/// The truth of a condition. Takes time linear in the part of it that is evaluated.
#[tactic(auto, unfolding(concrete_sem::specs::Evaluation::truth_of))]
pub(crate) fn truth_of(slots: &Slots, cond: &SlotCond) -> Result<bool, FaultKind>
    ensures is { attempt_of result ≡ truth_of slots.now cond.now }
{
    match cond.node() {
        SlotCondNode::Compare(relation, e, f) => match value_of(slots, e) {
            Ok(x) => match value_of(slots, f) {
                Ok(y) => Ok(relates(*relation, x, y)),
                Err(fault) => Err(fault),
            },
            Err(fault) => Err(fault),
        },
        SlotCondNode::CompareLinks(equal, p, q) => {
            let same = same_link(side_at(slots, *p), side_at(slots, *q));
            Ok(if *equal { same } else { !same })
        }
        SlotCondNode::Not(c) => match truth_of(slots, c) {
            Ok(truth) => Ok(!truth),
            Err(fault) => Err(fault),
        },
        SlotCondNode::And(c, d) => match truth_of(slots, c) {
            Ok(true) => truth_of(slots, d),
            Ok(false) => Ok(false),
            Err(fault) => Err(fault),
        },
        SlotCondNode::Or(c, d) => match truth_of(slots, c) {
            Ok(true) => Ok(true),
            Ok(false) => truth_of(slots, d),
            Err(fault) => Err(fault),
        },
    }
}

//! The claims of operators.
ghost use Rattle.std.specs.Prelude.{◌≡◌, ◌≤◌, IfOk, OnOk, ◌++◌};
ghost use Rattle.base_values.specs.Numbers as numbers;
ghost use Rattle.imp_slots.specs.Plain.{Literal, Binary, Compare, Not, And, Or};
ghost use Rattle.domain_laws.specs.Checks.{Within, IsCell, checked_guard};
ghost use Rattle.imp_syntax.specs.declared.words.Operator.TheVariants as operator;
ghost use Rattle.fault_points.specs.Points.{greatest, lowest, least, sum_fits, difference_fits, product_fits, opposite_fits, quotient_fits, is_divisor, is_length, operator_points, point};

use crate::{FaultPoint, FaultPoints};
use base_values::{Memory, Number};
use imp_slots::{SlotCond, SlotCondNode, SlotExpr, SlotExprNode};
use imp_syntax::{Operator, Relation};
use imp_words::FaultKind;
use std::alloc::Global;

/// 2^63 - 1
const GREATEST: u64 = 9_223_372_036_854_775_807;

/// The greatest length of an array.
const LONGEST: u64 = 1_000_000;

/// A number.
fn literal(alloc: Global, value: u64) -> Result<SlotExpr, Memory>
    requires small { value ≤ numbers.greatest }
    ensures is { IfOk result (λ e. e ≡ Literal value) }
{
    SlotExpr::new(alloc, SlotExprNode::Literal(Number::new(value)))
}

/// -2^63 + 1
fn lowest(alloc: Global) -> Result<SlotExpr, Memory>
    ensures is { IfOk result (λ e. e ≡ lowest) }
{
    SlotExpr::new(alloc, SlotExprNode::Negative(literal(alloc, GREATEST)?))
}

/// An operator between two expressions.
fn binary(alloc: Global, o: Operator, a: &SlotExpr, b: &SlotExpr) -> Result<SlotExpr, Memory>
    ensures is { IfOk result (λ e. e ≡ Binary o a.now b.now) }
{
    SlotExpr::new(alloc, SlotExprNode::Binary(o, a.clone()?, b.clone()?))
}

/// -2^63
fn least(alloc: Global) -> Result<SlotExpr, Memory>
    ensures is { IfOk result (λ e. e ≡ least) }
{
    binary(
        alloc,
        Operator::Subtract,
        &lowest(alloc)?,
        &literal(alloc, 1)?,
    )
}

/// `a <= b`
fn at_most(alloc: Global, a: &SlotExpr, b: &SlotExpr) -> Result<SlotCond, Memory>
    ensures is { IfOk result (λ c. c ≡ Compare Relation.AtMost a.now b.now) }
{
    SlotCond::new(
        alloc,
        SlotCondNode::Compare(Relation::AtMost, a.clone()?, b.clone()?),
    )
}

/// `a >= b`
fn at_least(alloc: Global, a: &SlotExpr, b: &SlotExpr) -> Result<SlotCond, Memory>
    ensures is { IfOk result (λ c. c ≡ Compare Relation.AtLeast a.now b.now) }
{
    SlotCond::new(
        alloc,
        SlotCondNode::Compare(Relation::AtLeast, a.clone()?, b.clone()?),
    )
}

/// `a != b`
fn differs(alloc: Global, a: &SlotExpr, b: &SlotExpr) -> Result<SlotCond, Memory>
    ensures is { IfOk result (λ c. c ≡ Compare Relation.NotEqual a.now b.now) }
{
    SlotCond::new(
        alloc,
        SlotCondNode::Compare(Relation::NotEqual, a.clone()?, b.clone()?),
    )
}

/// Both hold.
pub(crate) fn both(alloc: Global, c: SlotCond, d: SlotCond) -> Result<SlotCond, Memory>
    ensures is { IfOk result (λ e. e ≡ And c d) }
{
    SlotCond::new(alloc, SlotCondNode::And(c, d))
}

/// One of them holds.
pub(crate) fn either(alloc: Global, c: SlotCond, d: SlotCond) -> Result<SlotCond, Memory>
    ensures is { IfOk result (λ e. e ≡ Or c d) }
{
    SlotCond::new(alloc, SlotCondNode::Or(c, d))
}

/// `a + b` lies in 64 bits.
fn sum_fits(alloc: Global, a: &SlotExpr, b: &SlotExpr) -> Result<SlotCond, Memory>
    ensures is { IfOk result (λ c. c ≡ sum_fits a.now b.now) }
{
    let zero = literal(alloc, 0)?;
    let room = binary(alloc, Operator::Subtract, &literal(alloc, GREATEST)?, b)?;
    let high = either(alloc, at_most(alloc, b, &zero)?, at_most(alloc, a, &room)?)?;
    let below = binary(alloc, Operator::Subtract, &least(alloc)?, b)?;
    let low = either(
        alloc,
        at_least(alloc, b, &zero)?,
        at_least(alloc, a, &below)?,
    )?;
    both(alloc, high, low)
}

/// `a - b` lies in 64 bits.
fn difference_fits(alloc: Global, a: &SlotExpr, b: &SlotExpr) -> Result<SlotCond, Memory>
    ensures is { IfOk result (λ c. c ≡ difference_fits a.now b.now) }
{
    let zero = literal(alloc, 0)?;
    let room = binary(alloc, Operator::Add, &literal(alloc, GREATEST)?, b)?;
    let high = either(alloc, at_least(alloc, b, &zero)?, at_most(alloc, a, &room)?)?;
    let below = binary(alloc, Operator::Add, &least(alloc)?, b)?;
    let low = either(
        alloc,
        at_most(alloc, b, &zero)?,
        at_least(alloc, a, &below)?,
    )?;
    both(alloc, high, low)
}

/// One of three holds.
fn any(alloc: Global, c: SlotCond, d: SlotCond, e: SlotCond) -> Result<SlotCond, Memory>
    ensures is { IfOk result (λ f. f ≡ Or c (Or d e)) }
{
    either(alloc, c, either(alloc, d, e)?)
}

/// `a * b` lies in 64 bits, where a is not negative.
fn product_fits_above(alloc: Global, a: &SlotExpr, b: &SlotExpr) -> Result<SlotCond, Memory>
    ensures is { IfOk result (λ c. c ≡ And
        (Or (Compare Relation.AtMost a.now (Literal 0))
        (Or (Compare Relation.AtMost b.now (Literal 0))
        (Compare Relation.AtMost a.now (Binary operator.Divide greatest b.now))))
        (Or (Compare Relation.AtMost a.now (Literal 0))
        (Or (Compare Relation.AtLeast b.now (Literal 0))
        (Compare Relation.AtLeast b.now (Binary operator.Divide least a.now))))) }
{
    let zero = literal(alloc, 0)?;
    let most = binary(alloc, Operator::Divide, &literal(alloc, GREATEST)?, b)?;
    let high = any(
        alloc,
        at_most(alloc, a, &zero)?,
        at_most(alloc, b, &zero)?,
        at_most(alloc, a, &most)?,
    )?;
    let fewest = binary(alloc, Operator::Divide, &least(alloc)?, a)?;
    let low = any(
        alloc,
        at_most(alloc, a, &zero)?,
        at_least(alloc, b, &zero)?,
        at_least(alloc, b, &fewest)?,
    )?;
    both(alloc, high, low)
}

/// `a * b` lies in 64 bits, where a is not positive.
fn product_fits_below(alloc: Global, a: &SlotExpr, b: &SlotExpr) -> Result<SlotCond, Memory>
    ensures is { IfOk result (λ c. c ≡ And
        (Or (Compare Relation.AtLeast a.now (Literal 0))
        (Or (Compare Relation.AtMost b.now (Literal 0))
        (Compare Relation.AtLeast a.now (Binary operator.Divide least b.now))))
        (Or (Compare Relation.AtLeast a.now (Literal 0))
        (Or (Compare Relation.AtLeast b.now (Literal 0))
        (Compare Relation.AtLeast a.now (Binary operator.Divide greatest b.now))))) }
{
    let zero = literal(alloc, 0)?;
    let fewest = binary(alloc, Operator::Divide, &least(alloc)?, b)?;
    let low = any(
        alloc,
        at_least(alloc, a, &zero)?,
        at_most(alloc, b, &zero)?,
        at_least(alloc, a, &fewest)?,
    )?;
    let most = binary(alloc, Operator::Divide, &literal(alloc, GREATEST)?, b)?;
    let high = any(
        alloc,
        at_least(alloc, a, &zero)?,
        at_least(alloc, b, &zero)?,
        at_least(alloc, a, &most)?,
    )?;
    both(alloc, low, high)
}

/// `a * b` lies in 64 bits.
fn product_fits(alloc: Global, a: &SlotExpr, b: &SlotExpr) -> Result<SlotCond, Memory>
    ensures is { IfOk result (λ c. c ≡ product_fits a.now b.now) }
{
    both(
        alloc,
        product_fits_above(alloc, a, b)?,
        product_fits_below(alloc, a, b)?,
    )
}

/// `-e` lies in 64 bits.
pub(crate) fn opposite_fits(alloc: Global, e: &SlotExpr) -> Result<SlotCond, Memory>
    ensures is { IfOk result (λ c. c ≡ opposite_fits e.now) }
{
    at_least(alloc, e, &lowest(alloc)?)
}

/// `a / b` lies in 64 bits, for b other than 0.
fn quotient_fits(alloc: Global, a: &SlotExpr, b: &SlotExpr) -> Result<SlotCond, Memory>
    ensures is { IfOk result (λ c. c ≡ quotient_fits a.now b.now) }
{
    let minus_one = SlotExpr::new(alloc, SlotExprNode::Negative(literal(alloc, 1)?))?;
    either(
        alloc,
        differs(alloc, b, &minus_one)?,
        at_least(alloc, a, &lowest(alloc)?)?,
    )
}

/// `b` is not 0.
fn is_divisor(alloc: Global, b: &SlotExpr) -> Result<SlotCond, Memory>
    ensures is { IfOk result (λ c. c ≡ is_divisor b.now) }
{
    differs(alloc, b, &literal(alloc, 0)?)
}

/// The condition fails.
pub(crate) fn negated(alloc: Global, c: &SlotCond) -> Result<SlotCond, Memory>
    ensures is { IfOk result (λ d. d ≡ Not c.now) }
{
    SlotCond::new(alloc, SlotCondNode::Not(c.clone()?))
}

/// `0 <= e && e < len a`
pub(crate) fn is_index(alloc: Global, e: &SlotExpr, a: u32) -> Result<SlotCond, Memory>
    ensures is { IfOk result (λ c. c ≡ checked_guard (Within a e.now)) }
{
    let length = SlotExpr::new(alloc, SlotExprNode::Length(a))?;
    let below = SlotCond::new(
        alloc,
        SlotCondNode::Compare(Relation::Less, e.clone()?, length),
    )?;
    both(alloc, at_most(alloc, &literal(alloc, 0)?, e)?, below)
}

/// `p != null`
pub(crate) fn is_not_null(alloc: Global, p: u32) -> Result<SlotCond, Memory>
    ensures is { IfOk result (λ c. c ≡ checked_guard (IsCell p)) }
{
    SlotCond::new(alloc, SlotCondNode::CompareLinks(false, Some(p), None))
}

/// `e` is a length of an array.
pub(crate) fn is_length(alloc: Global, e: &SlotExpr) -> Result<SlotCond, Memory>
    ensures is { IfOk result (λ c. c ≡ is_length e.now) }
{
    both(
        alloc,
        at_most(alloc, &literal(alloc, 0)?, e)?,
        at_most(alloc, e, &literal(alloc, LONGEST)?)?,
    )
}

/// The point of an overflow.
pub(crate) fn overflow(claim: SlotCond) -> FaultPoint
    ensures is { result ≡ point FaultKind.Overflow claim }
{
    FaultPoint {
        kind: FaultKind::Overflow,
        claim,
    }
}

/// Adds the points of a division.
fn add_division(
    alloc: Global,
    a: &SlotExpr,
    b: &SlotExpr,
    found: &mut FaultPoints,
) -> Result<(), Memory>
    ensures added { OnOk result (found.new ≡ found.old
        ++ operator_points operator.Divide a.now b.now) }
{
    found.push(FaultPoint {
        kind: FaultKind::Zero,
        claim: is_divisor(alloc, b)?,
    })?;
    found.push(overflow(quotient_fits(alloc, a, b)?))
}

/// Adds the points of an operator whose operands have their values.
pub(crate) fn add_operator(
    alloc: Global,
    o: Operator,
    a: &SlotExpr,
    b: &SlotExpr,
    found: &mut FaultPoints,
) -> Result<(), Memory>
    ensures added { OnOk result (found.new ≡ found.old ++ operator_points o a.now b.now) }
{
    match o {
        Operator::Add => found.push(overflow(sum_fits(alloc, a, b)?)),
        Operator::Subtract => found.push(overflow(difference_fits(alloc, a, b)?)),
        Operator::Multiply => found.push(overflow(product_fits(alloc, a, b)?)),
        Operator::Divide => add_division(alloc, a, b, found),
        Operator::Remainder => add_division(alloc, a, b, found),
    }
}

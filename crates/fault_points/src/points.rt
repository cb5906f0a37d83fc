//! The fault points of expressions, conditions, statements and calls.
ghost use Rattle.std.specs.Prelude.{◌≡◌, ◌++◌, map, IfOk, OnOk};
ghost use Rattle.imp_slots.specs.ActionViews.{effect_of};
ghost use Rattle.imp_slots.specs.CallViews.{argument_of};
ghost use Rattle.domain_laws.specs.Checks.{Within, IsCell};
ghost use Rattle.fault_points.specs.Points.{term_points, guard_points, effect_points, argument_points, unless, checked};

use crate::arithmetic::{
    add_operator, either, is_index, is_length, is_not_null, negated, opposite_fits, overflow,
};
use crate::{FaultPoint, FaultPoints};
use base_values::{Items, Memory};
use imp_slots::{Argument, SlotAction, SlotCall, SlotCond, SlotCondNode, SlotExpr, SlotExprNode};
use imp_words::FaultKind;
use std::alloc::Global;

/// Adds the points of an expression.
#[tactic(auto, unfolding(crate::specs::Points::term_points))]
fn add_expression(alloc: Global, e: &SlotExpr, found: &mut FaultPoints) -> Result<(), Memory>
    ensures added { OnOk result (found.new ≡ found.old ++ term_points e.now) }
{
    match e.node() {
        SlotExprNode::Literal(_) => Ok(()),
        SlotExprNode::Slot(_) => Ok(()),
        SlotExprNode::Length(_) => Ok(()),
        SlotExprNode::Negative(operand) => {
            add_expression(alloc, operand, found)?;
            found.push(overflow(opposite_fits(alloc, operand)?))
        }
        SlotExprNode::Binary(o, a, b) => {
            add_expression(alloc, a, found)?;
            add_expression(alloc, b, found)?;
            add_operator(alloc, *o, a, b, found)
        }
    }
}

/// Adds points that are come to where the condition fails.
fn add_unless(
    alloc: Global,
    c: &SlotCond,
    points: &[FaultPoint],
    found: &mut FaultPoints,
) -> Result<(), Memory>
    ensures added { OnOk result (found.new ≡ found.old ++ map (unless c.now) points.now) }
{
    for point in points {
        let claim = either(alloc, c.clone()?, point.claim.clone()?)?;
        found.push(FaultPoint {
            kind: point.kind,
            claim,
        })?;
    }
    Ok(())
}

/// Adds the points of a condition.
#[tactic(auto, unfolding(crate::specs::Points::guard_points))]
fn add_condition(alloc: Global, c: &SlotCond, found: &mut FaultPoints) -> Result<(), Memory>
    ensures added { OnOk result (found.new ≡ found.old ++ guard_points c.now) }
{
    match c.node() {
        SlotCondNode::Compare(_, a, b) => {
            add_expression(alloc, a, found)?;
            add_expression(alloc, b, found)
        }
        SlotCondNode::CompareLinks(_, _, _) => Ok(()),
        SlotCondNode::Not(d) => add_condition(alloc, d, found),
        SlotCondNode::And(d, e) => {
            add_condition(alloc, d, found)?;
            let mut right = Items::new(alloc);
            add_condition(alloc, e, &mut right)?;
            add_unless(alloc, &negated(alloc, d)?, right.as_slice(), found)
        }
        SlotCondNode::Or(d, e) => {
            add_condition(alloc, d, found)?;
            let mut right = Items::new(alloc);
            add_condition(alloc, e, &mut right)?;
            add_unless(alloc, d, right.as_slice(), found)
        }
    }
}

/// The point of an index: it is within its array.
fn index_point(alloc: Global, a: u32, e: &SlotExpr) -> Result<FaultPoint, Memory>
    ensures is { IfOk result (λ p. p ≡ checked (Within a e.now)) }
{
    let claim = is_index(alloc, e, a)?;
    Ok(FaultPoint {
        kind: FaultKind::Index,
        claim,
    })
}

/// The point of a link: it is not null.
fn link_point(alloc: Global, p: u32) -> Result<FaultPoint, Memory>
    ensures is { IfOk result (λ point. point ≡ checked (IsCell p)) }
{
    let claim = is_not_null(alloc, p)?;
    Ok(FaultPoint {
        kind: FaultKind::Null,
        claim,
    })
}

/// The fault points of a simple statement, in the order of evaluation. It fails only when memory runs out.
#[tactic(auto, unfolding(crate::specs::Points::effect_points))]
pub fn points_of_action(alloc: Global, action: &SlotAction) -> Result<FaultPoints, Memory>
    ensures are { IfOk result (λ ps. ps ≡ effect_points (effect_of action.now)) }
{
    let mut found = Items::new(alloc);
    match action {
        SlotAction::Skip => {}
        SlotAction::Assert(c) => {
            add_condition(alloc, c, &mut found)?;
            found.push(FaultPoint {
                kind: FaultKind::Assert,
                claim: c.clone()?,
            })?;
        }
        SlotAction::SetInt(_, e) => add_expression(alloc, e, &mut found)?,
        SlotAction::Input(_) => {}
        SlotAction::ReadElement(_, a, e) => {
            add_expression(alloc, e, &mut found)?;
            found.push(index_point(alloc, *a, e)?)?;
        }
        SlotAction::ReadItem(_, q) => found.push(link_point(alloc, *q)?)?,
        SlotAction::MakeArray(_, e) => {
            add_expression(alloc, e, &mut found)?;
            found.push(FaultPoint {
                kind: FaultKind::Length,
                claim: is_length(alloc, e)?,
            })?;
        }
        SlotAction::CopyArray(_, _) => {}
        SlotAction::WriteElement(a, e, f) => {
            add_expression(alloc, e, &mut found)?;
            add_expression(alloc, f, &mut found)?;
            found.push(index_point(alloc, *a, e)?)?;
        }
        SlotAction::SetNull(_) => {}
        SlotAction::MakeCell(_) => {}
        SlotAction::CopyLink(_, _) => {}
        SlotAction::ReadNext(_, q) => found.push(link_point(alloc, *q)?)?,
        SlotAction::WriteNext(p, _) => found.push(link_point(alloc, *p)?)?,
        SlotAction::WriteItem(p, e) => {
            add_expression(alloc, e, &mut found)?;
            found.push(link_point(alloc, *p)?)?;
        }
    }
    Ok(found)
}

/// The fault points of a condition, in the order of evaluation. It fails only when memory runs out.
pub fn points_of_condition(alloc: Global, c: &SlotCond) -> Result<FaultPoints, Memory>
    ensures are { IfOk result (λ ps. ps ≡ guard_points c.now) }
{
    let mut found = Items::new(alloc);
    add_condition(alloc, c, &mut found)?;
    Ok(found)
}

/// Adds the points of arguments.
#[tactic(auto, unfolding(crate::specs::Points::argument_points))]
fn add_arguments(
    alloc: Global,
    arguments: &[Argument],
    found: &mut FaultPoints,
) -> Result<(), Memory>
    ensures added { OnOk result (found.new ≡ found.old
        ++ argument_points (map argument_of arguments.now)) }
{
    match arguments {
        [] => Ok(()),
        [Argument::Array(_), rest @ ..] => add_arguments(alloc, rest, found),
        [Argument::Link(_), rest @ ..] => add_arguments(alloc, rest, found),
        [Argument::Int(e), rest @ ..] => {
            add_expression(alloc, e, found)?;
            add_arguments(alloc, rest, found)
        }
    }
}

/// The fault points of a call's arguments, in the order of evaluation. It fails only when memory runs out.
pub fn points_of_arguments(alloc: Global, call: &SlotCall) -> Result<FaultPoints, Memory>
    ensures are { IfOk result (λ ps. ps ≡ argument_points call.now.entering.arguments) }
{
    let mut found = Items::new(alloc);
    add_arguments(alloc, call.entering().arguments(), &mut found)?;
    Ok(found)
}

//! Expressions, conditions and simple statements over slots.
ghost use Rattle.std.specs.Prelude.{◌≡◌, ◌∷◌, [], IfOk, OnOk, map};
ghost use Rattle.imp_syntax.specs.Plain as tree;
ghost use Rattle.imp_syntax.specs.Views.{operand_of};
ghost use Rattle.imp_syntax.specs.ActionViews.{action_of, operands_of};
ghost use Rattle.imp_slots.specs.ActionViews.{effect_of};
ghost use Rattle.imp_slots.specs.CallViews.{argument_of};
ghost use Rattle.imp_check.specs.Slots.{term_in, is_link_expression, is_link_operand, link_of, side_in, operand_term, is_equal, comparison_in, guard_in, copy_in, assign_in, effect_in, variable_argument, expression_argument, argument_in, arguments_in};

use crate::slots::Slots;
use base_values::{Items, Memory, Text};
use imp_slots::{Argument, SlotAction, SlotCond, SlotCondNode, SlotExpr, SlotExprNode};
use imp_syntax::{Action, Cond, CondNode, Expr, ExprNode, Number, Relation, Side};
use std::alloc::Global;

fn term_in(alloc: Global, slots: &Slots, expr: &Expr) -> Result<SlotExpr, Memory>
    ensures is { IfOk result (λ e. e ≡ term_in slots.now expr.now) }
{
    let node = match expr.node() {
        ExprNode::Literal(n) => SlotExprNode::Literal(*n),
        ExprNode::Variable(x) => SlotExprNode::Slot(slots.number(x)),
        ExprNode::Length(a) => SlotExprNode::Length(slots.number(a)),
        ExprNode::Negative(e) => SlotExprNode::Negative(term_in(alloc, slots, e)?),
        ExprNode::Binary(o, a, b) => {
            let left = term_in(alloc, slots, a)?;
            let right = term_in(alloc, slots, b)?;
            SlotExprNode::Binary(*o, left, right)
        }
    };
    SlotExpr::new(alloc, node)
}

fn is_link_expression(slots: &Slots, expr: &Expr) -> bool
    ensures is { result ≡ is_link_expression slots.now expr.now }
{
    match expr.node() {
        ExprNode::Variable(x) => slots.is_link(x),
        _ => false,
    }
}

fn is_link_operand(slots: &Slots, side: &Side) -> bool
    ensures is { result ≡ is_link_operand slots.now (operand_of side.now) }
{
    match side {
        Side::Null => true,
        Side::Expr(e) => is_link_expression(slots, e),
    }
}

fn link_of(slots: &Slots, expr: &Expr) -> Option<u32>
    ensures is { result ≡ link_of slots.now expr.now }
{
    match expr.node() {
        ExprNode::Variable(x) => Some(slots.link(x)),
        _ => None,
    }
}

fn side_in(slots: &Slots, side: &Side) -> Option<u32>
    ensures is { result ≡ side_in slots.now (operand_of side.now) }
{
    match side {
        Side::Null => None,
        Side::Expr(e) => link_of(slots, e),
    }
}

fn operand_term(alloc: Global, slots: &Slots, side: &Side) -> Result<SlotExpr, Memory>
    ensures is { IfOk result (λ e. e ≡ operand_term slots.now (operand_of side.now)) }
{
    match side {
        Side::Null => SlotExpr::new(alloc, SlotExprNode::Literal(Number::new(0))),
        Side::Expr(e) => term_in(alloc, slots, e),
    }
}

fn is_equal(relation: Relation) -> bool
    ensures is { result ≡ is_equal relation }
{
    matches!(relation, Relation::Equal)
}

fn comparison(
    alloc: Global,
    slots: &Slots,
    relation: Relation,
    a: &Side,
    b: &Side,
) -> Result<SlotCond, Memory>
    ensures is { IfOk result (λ c. c ≡ comparison_in slots.now relation (operand_of a.now)
        (operand_of b.now)) }
{
    if is_link_operand(slots, a) && is_link_operand(slots, b) {
        let node = SlotCondNode::CompareLinks(
            is_equal(relation),
            side_in(slots, a),
            side_in(slots, b),
        );
        SlotCond::new(alloc, node)
    } else {
        let left = operand_term(alloc, slots, a)?;
        let right = operand_term(alloc, slots, b)?;
        SlotCond::new(alloc, SlotCondNode::Compare(relation, left, right))
    }
}

pub(crate) fn guard_in(alloc: Global, slots: &Slots, cond: &Cond) -> Result<SlotCond, Memory>
    ensures is { IfOk result (λ c. c ≡ guard_in slots.now cond.now) }
{
    let node = match cond.node() {
        CondNode::Compare(r, a, b) => return comparison(alloc, slots, *r, a, b),
        CondNode::Not(c) => SlotCondNode::Not(guard_in(alloc, slots, c)?),
        CondNode::And(c, d) => {
            let left = guard_in(alloc, slots, c)?;
            let right = guard_in(alloc, slots, d)?;
            SlotCondNode::And(left, right)
        }
        CondNode::Or(c, d) => {
            let left = guard_in(alloc, slots, c)?;
            let right = guard_in(alloc, slots, d)?;
            SlotCondNode::Or(left, right)
        }
    };
    SlotCond::new(alloc, node)
}

fn copy_in(alloc: Global, slots: &Slots, x: &Text, y: &Text) -> Result<SlotAction, Memory>
    ensures is { IfOk result (λ a. effect_of a ≡ copy_in slots.now x.now y.now) }
{
    if slots.is_link(x) {
        Ok(SlotAction::CopyLink(slots.link(x), slots.link(y)))
    } else if slots.is_array(x) {
        Ok(SlotAction::CopyArray(slots.number(x), slots.number(y)))
    } else {
        let value = SlotExpr::new(alloc, SlotExprNode::Slot(slots.number(y)))?;
        Ok(SlotAction::SetInt(slots.number(x), value))
    }
}

fn assign_in(alloc: Global, slots: &Slots, x: &Text, expr: &Expr) -> Result<SlotAction, Memory>
    ensures is { IfOk result (λ a. effect_of a ≡ assign_in slots.now x.now expr.now) }
{
    match expr.node() {
        ExprNode::Variable(y) => copy_in(alloc, slots, x, y),
        _ => {
            let value = term_in(alloc, slots, expr)?;
            Ok(SlotAction::SetInt(slots.number(x), value))
        }
    }
}

/// An assertion.
fn assert_in(alloc: Global, slots: &Slots, cond: &Cond) -> Result<SlotAction, Memory>
    ensures is { IfOk result (λ a. effect_of a ≡ effect_in slots.now (tree.Assert cond.now)) }
{
    Ok(SlotAction::Assert(guard_in(alloc, slots, cond)?))
}

/// A new array of a size.
fn make_array_in(alloc: Global, slots: &Slots, x: &Text, size: &Expr) -> Result<SlotAction, Memory>
    ensures is { IfOk result (λ a. effect_of a ≡ effect_in slots.now
        (tree.MakeArray x.now size.now)) }
{
    let size = term_in(alloc, slots, size)?;
    Ok(SlotAction::MakeArray(slots.number(x), size))
}

/// A read of an element.
fn read_element_in(
    alloc: Global,
    slots: &Slots,
    x: &Text,
    array: &Text,
    index: &Expr,
) -> Result<SlotAction, Memory>
    ensures is { IfOk result (λ a. effect_of a ≡ effect_in slots.now
        (tree.ReadElement x.now array.now index.now)) }
{
    let index = term_in(alloc, slots, index)?;
    Ok(SlotAction::ReadElement(slots.number(x), slots.number(array), index))
}

/// A write of an element.
fn write_element_in(
    alloc: Global,
    slots: &Slots,
    array: &Text,
    index: &Expr,
    value: &Expr,
) -> Result<SlotAction, Memory>
    ensures is { IfOk result (λ a. effect_of a ≡ effect_in slots.now
        (tree.WriteElement array.now index.now value.now)) }
{
    let index = term_in(alloc, slots, index)?;
    let value = term_in(alloc, slots, value)?;
    Ok(SlotAction::WriteElement(slots.number(array), index, value))
}

/// A write of a cell's item.
fn write_item_in(alloc: Global, slots: &Slots, p: &Text, value: &Expr) -> Result<SlotAction, Memory>
    ensures is { IfOk result (λ a. effect_of a ≡ effect_in slots.now
        (tree.WriteItem p.now value.now)) }
{
    let value = term_in(alloc, slots, value)?;
    Ok(SlotAction::WriteItem(slots.link(p), value))
}

pub(crate) fn effect_in(alloc: Global, slots: &Slots, action: &Action) -> Result<SlotAction, Memory>
    ensures is { IfOk result (λ a. effect_of a ≡ effect_in slots.now (action_of action.now)) }
{
    match action {
        Action::Skip => Ok(SlotAction::Skip),
        Action::Assert(c) => assert_in(alloc, slots, c),
        Action::Assign(x, e) => assign_in(alloc, slots, x, e),
        Action::Input(x) => Ok(SlotAction::Input(slots.number(x))),
        Action::MakeArray(x, e) => make_array_in(alloc, slots, x, e),
        Action::SetNull(x) => Ok(SlotAction::SetNull(slots.link(x))),
        Action::MakeCell(x) => Ok(SlotAction::MakeCell(slots.link(x))),
        Action::ReadElement(x, a, e) => read_element_in(alloc, slots, x, a, e),
        Action::ReadNext(x, q) => Ok(SlotAction::ReadNext(slots.link(x), slots.link(q))),
        Action::ReadItem(x, q) => Ok(SlotAction::ReadItem(slots.number(x), slots.link(q))),
        Action::WriteElement(a, e, f) => write_element_in(alloc, slots, a, e, f),
        Action::WriteNext(p, q) => Ok(SlotAction::WriteNext(slots.link(p), slots.link(q))),
        Action::WriteItem(p, e) => write_item_in(alloc, slots, p, e),
    }
}

fn variable_argument(alloc: Global, slots: &Slots, y: &Text) -> Result<Argument, Memory>
    ensures is { IfOk result (λ a. argument_of a ≡ variable_argument slots.now y.now) }
{
    if slots.is_link(y) {
        Ok(Argument::Link(Some(slots.link(y))))
    } else if slots.is_array(y) {
        Ok(Argument::Array(slots.number(y)))
    } else {
        Ok(Argument::Int(SlotExpr::new(alloc, SlotExprNode::Slot(slots.number(y)))?))
    }
}

fn expression_argument(alloc: Global, slots: &Slots, expr: &Expr) -> Result<Argument, Memory>
    ensures is { IfOk result (λ a. argument_of a ≡ expression_argument slots.now expr.now) }
{
    match expr.node() {
        ExprNode::Variable(y) => variable_argument(alloc, slots, y),
        _ => Ok(Argument::Int(term_in(alloc, slots, expr)?)),
    }
}

fn argument_in(alloc: Global, slots: &Slots, side: &Side) -> Result<Argument, Memory>
    ensures is { IfOk result (λ a. argument_of a ≡ argument_in slots.now (operand_of side.now)) }
{
    match side {
        Side::Null => Ok(Argument::Link(None)),
        Side::Expr(e) => expression_argument(alloc, slots, e),
    }
}

#[tactic(auto, using(crate::proofs::SlotLemmas::arguments_step, crate::proofs::SlotLemmas::argument_added))]
pub(crate) fn arguments_in(
    alloc: Global,
    slots: &Slots,
    sides: &[Side],
) -> Result<Items<Argument>, Memory>
    ensures is { IfOk result (λ all. map argument_of all ≡
        arguments_in slots.now (operands_of sides.now)) }
{
    let mut all = Items::new(alloc);
    for side in sides {
        all.push(argument_in(alloc, slots, side)?)?;
    }
    Ok(all)
}

//! Whether names are known, and kinds agree. Where names are looked for, it is seen of the literals that they are below
//! 2^63, as their type says: that is a fact of the plain program too.
ghost use Rattle.std.specs.Prelude.{◌≡◌, true};
ghost use Rattle.imp_syntax.specs.Views.{operand_of};
ghost use Rattle.imp_syntax.specs.ActionViews.{action_of, operands_of};
ghost use Rattle.imp_check.specs.Small.{small_expression, small_operand, small_operands, small_condition, small_action};
ghost use Rattle.imp_check.specs.Kinds.{knows, knows_expression, knows_operand, knows_operands, knows_condition, knows_action, int, array, link, int_expression, int_operand, array_expression, link_expression, array_operand, link_operand, is_equality, fits_condition, fits_assign, fits_action};

use crate::names::{is_array, is_int, is_link};
use crate::variables::Variables;
use base_values::Text;
use imp_syntax::{Action, Cond, CondNode, Expr, ExprNode, Relation, Side};

pub(crate) fn knows(variables: &Variables, name: &Text) -> bool
    ensures is { result ≡ knows variables.now name.now }
{
    variables.kind_of(name).is_some()
}

fn knows_expression(variables: &Variables, expr: &Expr) -> bool
    ensures is { result ≡ knows_expression variables.now expr.now }
    ensures small { result ≡ true → small_expression expr.now ≡ true }
{
    match expr.node() {
        ExprNode::Literal(n) => {
            let _value = n.value();
            true
        }
        ExprNode::Variable(x) => knows(variables, x),
        ExprNode::Length(a) => knows(variables, a),
        ExprNode::Negative(e) => knows_expression(variables, e),
        ExprNode::Binary(_, a, b) => {
            knows_expression(variables, a) && knows_expression(variables, b)
        }
    }
}

fn knows_operand(variables: &Variables, side: &Side) -> bool
    ensures is { result ≡ knows_operand variables.now (operand_of side.now) }
    ensures small { result ≡ true → small_operand (operand_of side.now) ≡ true }
{
    match side {
        Side::Null => true,
        Side::Expr(e) => knows_expression(variables, e),
    }
}

#[tactic(auto, using(crate::proofs::SmallLemmas::operands_step))]
pub(crate) fn knows_operands(variables: &Variables, sides: &[Side]) -> bool
    ensures is { result ≡ knows_operands variables.now (operands_of sides.now) }
    ensures small { result ≡ true → small_operands (operands_of sides.now) ≡ true }
{
    for side in sides {
        if !knows_operand(variables, side) {
            return false;
        }
    }
    true
}

pub(crate) fn knows_condition(variables: &Variables, cond: &Cond) -> bool
    ensures is { result ≡ knows_condition variables.now cond.now }
    ensures small { result ≡ true → small_condition cond.now ≡ true }
{
    match cond.node() {
        CondNode::Compare(_, a, b) => knows_operand(variables, a) && knows_operand(variables, b),
        CondNode::Not(c) => knows_condition(variables, c),
        CondNode::And(c, d) => knows_condition(variables, c) && knows_condition(variables, d),
        CondNode::Or(c, d) => knows_condition(variables, c) && knows_condition(variables, d),
    }
}

pub(crate) fn knows_action(variables: &Variables, action: &Action) -> bool
    ensures is { result ≡ knows_action variables.now (action_of action.now) }
    ensures small { result ≡ true → small_action (action_of action.now) ≡ true }
{
    match action {
        Action::Skip => true,
        Action::Assert(c) => knows_condition(variables, c),
        Action::Assign(x, e) => knows(variables, x) && knows_expression(variables, e),
        Action::Input(x) => knows(variables, x),
        Action::MakeArray(x, e) => knows(variables, x) && knows_expression(variables, e),
        Action::SetNull(x) => knows(variables, x),
        Action::MakeCell(x) => knows(variables, x),
        Action::ReadElement(x, a, e) => {
            knows(variables, x) && knows(variables, a) && knows_expression(variables, e)
        }
        Action::ReadNext(x, q) => knows(variables, x) && knows(variables, q),
        Action::ReadItem(x, q) => knows(variables, x) && knows(variables, q),
        Action::WriteElement(a, e, f) => {
            knows(variables, a) && knows_expression(variables, e) && knows_expression(variables, f)
        }
        Action::WriteNext(p, q) => knows(variables, p) && knows(variables, q),
        Action::WriteItem(p, e) => knows(variables, p) && knows_expression(variables, e),
    }
}

fn int(variables: &Variables, name: &Text) -> bool
    ensures is { result ≡ int variables.now name.now }
{
    is_int(variables.kind_of(name))
}

fn array(variables: &Variables, name: &Text) -> bool
    ensures is { result ≡ array variables.now name.now }
{
    is_array(variables.kind_of(name))
}

fn link(variables: &Variables, name: &Text) -> bool
    ensures is { result ≡ link variables.now name.now }
{
    is_link(variables.kind_of(name))
}

fn int_expression(variables: &Variables, expr: &Expr) -> bool
    ensures is { result ≡ int_expression variables.now expr.now }
{
    match expr.node() {
        ExprNode::Literal(_) => true,
        ExprNode::Variable(x) => int(variables, x),
        ExprNode::Length(a) => array(variables, a),
        ExprNode::Negative(e) => int_expression(variables, e),
        ExprNode::Binary(_, a, b) => int_expression(variables, a) && int_expression(variables, b),
    }
}

fn array_expression(variables: &Variables, expr: &Expr) -> bool
    ensures is { result ≡ array_expression variables.now expr.now }
{
    match expr.node() {
        ExprNode::Variable(x) => array(variables, x),
        _ => false,
    }
}

fn link_expression(variables: &Variables, expr: &Expr) -> bool
    ensures is { result ≡ link_expression variables.now expr.now }
{
    match expr.node() {
        ExprNode::Variable(x) => link(variables, x),
        _ => false,
    }
}

pub(crate) fn int_operand(variables: &Variables, side: &Side) -> bool
    ensures is { result ≡ int_operand variables.now (operand_of side.now) }
{
    match side {
        Side::Null => false,
        Side::Expr(e) => int_expression(variables, e),
    }
}

pub(crate) fn array_operand(variables: &Variables, side: &Side) -> bool
    ensures is { result ≡ array_operand variables.now (operand_of side.now) }
{
    match side {
        Side::Null => false,
        Side::Expr(e) => array_expression(variables, e),
    }
}

pub(crate) fn link_operand(variables: &Variables, side: &Side) -> bool
    ensures is { result ≡ link_operand variables.now (operand_of side.now) }
{
    match side {
        Side::Null => true,
        Side::Expr(e) => link_expression(variables, e),
    }
}

fn is_equality(relation: Relation) -> bool
    ensures is { result ≡ is_equality relation }
{
    matches!(relation, Relation::Equal | Relation::NotEqual)
}

pub(crate) fn fits_condition(variables: &Variables, cond: &Cond) -> bool
    ensures is { result ≡ fits_condition variables.now cond.now }
{
    match cond.node() {
        CondNode::Compare(r, a, b) => {
            (int_operand(variables, a) && int_operand(variables, b))
                || (is_equality(*r) && link_operand(variables, a) && link_operand(variables, b))
        }
        CondNode::Not(c) => fits_condition(variables, c),
        CondNode::And(c, d) => fits_condition(variables, c) && fits_condition(variables, d),
        CondNode::Or(c, d) => fits_condition(variables, c) && fits_condition(variables, d),
    }
}

fn fits_assign(variables: &Variables, x: &Text, e: &Expr) -> bool
    ensures is { result ≡ fits_assign variables.now x.now e.now }
{
    (int(variables, x) && int_expression(variables, e))
        || (array(variables, x) && array_expression(variables, e))
        || (link(variables, x) && link_expression(variables, e))
}

pub(crate) fn fits_action(variables: &Variables, action: &Action) -> bool
    ensures is { result ≡ fits_action variables.now (action_of action.now) }
{
    match action {
        Action::Skip => true,
        Action::Assert(c) => fits_condition(variables, c),
        Action::Assign(x, e) => fits_assign(variables, x, e),
        Action::Input(x) => int(variables, x),
        Action::MakeArray(x, e) => array(variables, x) && int_expression(variables, e),
        Action::SetNull(x) => link(variables, x),
        Action::MakeCell(x) => link(variables, x),
        Action::ReadElement(x, a, e) => {
            int(variables, x) && array(variables, a) && int_expression(variables, e)
        }
        Action::ReadNext(x, q) => link(variables, x) && link(variables, q),
        Action::ReadItem(x, q) => int(variables, x) && link(variables, q),
        Action::WriteElement(a, e, f) => {
            array(variables, a) && int_expression(variables, e) && int_expression(variables, f)
        }
        Action::WriteNext(p, q) => link(variables, p) && link(variables, q),
        Action::WriteItem(p, e) => link(variables, p) && int_expression(variables, e),
    }
}

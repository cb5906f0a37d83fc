//! Expressions and conditions.
ghost use Rattle.std.specs.Prelude.{◌≡◌, ◌++◌, ◌+◌, codes, OnOk};
ghost use Rattle.std.specs.Fmt.{decimal};
ghost use Rattle.imp_syntax.specs.Views.{operand_of};
ghost use Rattle.imp_print.specs.Expressions.{operator_text, operator_rank, relation_text, expression_rank, expression_text, operand_text, side_text, condition_rank, condition_text, part_text};

use base_values::{Memory, Text};
use imp_syntax::{Cond, CondNode, Expr, ExprNode, Operator, Relation, Side};
use itoa::Buffer;

/// Adds a number in decimal.
pub(crate) fn put_number(text: &mut Text, number: u64) -> Result<(), Memory>
    ensures added { OnOk result (text.new ≡ text.old ++ decimal number) }
{
    let mut buffer = Buffer::new();
    text.append(buffer.format(number).as_bytes())
}

fn operator_text(operator: Operator) -> &'static [u8]
    ensures is { result.now ≡ operator_text operator }
{
    match operator {
        Operator::Add => b" + ",
        Operator::Subtract => b" - ",
        Operator::Multiply => b" * ",
        Operator::Divide => b" / ",
        Operator::Remainder => b" % ",
    }
}

fn operator_rank(operator: Operator) -> u32
    ensures is { result ≡ operator_rank operator }
{
    match operator {
        Operator::Add => 1,
        Operator::Subtract => 1,
        Operator::Multiply => 2,
        Operator::Divide => 2,
        Operator::Remainder => 2,
    }
}

fn relation_text(relation: Relation) -> &'static [u8]
    ensures is { result.now ≡ relation_text relation }
{
    match relation {
        Relation::Equal => b" == ",
        Relation::NotEqual => b" != ",
        Relation::Less => b" < ",
        Relation::AtMost => b" <= ",
        Relation::Greater => b" > ",
        Relation::AtLeast => b" >= ",
    }
}

fn expression_rank(expression: &Expr) -> u32
    ensures is { result ≡ expression_rank expression.now }
{
    match expression.node() {
        ExprNode::Literal(_) => 3,
        ExprNode::Variable(_) => 3,
        ExprNode::Length(_) => 3,
        ExprNode::Negative(_) => 3,
        ExprNode::Binary(operator, _, _) => operator_rank(*operator),
    }
}

/// Adds an expression.
#[cycle(put_expr)]
pub(crate) fn put_expr(text: &mut Text, expression: &Expr) -> Result<(), Memory>
    ensures added { OnOk result (text.new ≡ text.old ++ expression_text expression.now) }
{
    match expression.node() {
        ExprNode::Literal(number) => put_number(text, number.value()),
        ExprNode::Variable(name) => text.append(name.as_slice()),
        ExprNode::Length(name) => {
            text.append(b"len ")?;
            text.append(name.as_slice())
        }
        ExprNode::Negative(inner) => {
            text.append(b"-")?;
            put_operand(text, 3, inner)
        }
        ExprNode::Binary(operator, left, right) => {
            let rank = operator_rank(*operator);
            put_operand(text, rank, left)?;
            text.append(operator_text(*operator))?;
            put_operand(text, rank + 1, right)
        }
    }
}

/// Adds an operand that has to bind at least so much.
#[cycle(put_expr)]
fn put_operand(text: &mut Text, least: u32, operand: &Expr) -> Result<(), Memory>
    ensures added { OnOk result (text.new ≡ text.old ++ operand_text least operand.now) }
{
    if expression_rank(operand) < least {
        text.append(b"(")?;
        put_expr(text, operand)?;
        text.append(b")")
    } else {
        put_expr(text, operand)
    }
}

/// Adds a side of a comparison or an argument.
pub(crate) fn put_side(text: &mut Text, side: &Side) -> Result<(), Memory>
    ensures added { OnOk result (text.new ≡ text.old ++ side_text (operand_of side.now)) }
{
    match side {
        Side::Null => text.append(b"null"),
        Side::Expr(expression) => put_expr(text, expression),
    }
}

fn condition_rank(condition: &Cond) -> u32
    ensures is { result ≡ condition_rank condition.now }
{
    match condition.node() {
        CondNode::Compare(_, _, _) => 3,
        CondNode::Not(_) => 3,
        CondNode::And(_, _) => 2,
        CondNode::Or(_, _) => 1,
    }
}

/// Adds a condition.
#[cycle(put_cond)]
pub(crate) fn put_cond(text: &mut Text, condition: &Cond) -> Result<(), Memory>
    ensures added { OnOk result (text.new ≡ text.old ++ condition_text condition.now) }
{
    match condition.node() {
        CondNode::Compare(relation, left, right) => {
            put_side(text, left)?;
            text.append(relation_text(*relation))?;
            put_side(text, right)
        }
        CondNode::Not(inner) => {
            text.append(b"!(")?;
            put_cond(text, inner)?;
            text.append(b")")
        }
        CondNode::And(left, right) => {
            put_part(text, 2, left)?;
            text.append(b" && ")?;
            put_part(text, 3, right)
        }
        CondNode::Or(left, right) => {
            put_part(text, 1, left)?;
            text.append(b" || ")?;
            put_part(text, 2, right)
        }
    }
}

/// Adds a part of a condition that has to bind at least so much.
#[cycle(put_cond)]
fn put_part(text: &mut Text, least: u32, part: &Cond) -> Result<(), Memory>
    ensures added { OnOk result (text.new ≡ text.old ++ part_text least part.now) }
{
    if condition_rank(part) < least {
        text.append(b"(")?;
        put_cond(text, part)?;
        text.append(b")")
    } else {
        put_cond(text, part)
    }
}

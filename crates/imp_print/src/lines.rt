//! Lines and what stands on them.
ghost use Rattle.std.specs.Prelude.{◌≡◌, ◌++◌, codes, OnOk};
ghost use Rattle.imp_syntax.specs.ActionViews.{action_of, operands_of};
ghost use Rattle.imp_print.specs.Expressions.{expression_text};
ghost use Rattle.imp_print.specs.Statements.{action_text, more_sides_text, sides_text, target_text, call_text, spaces, margin};

use crate::expressions::{put_cond, put_expr, put_number, put_side};
use base_values::{Memory, Text};
use imp_syntax::{Action, Call, Expr, Side};
use itoa::Buffer;

/// Adds a name and what stands after it.
fn put_name(text: &mut Text, name: &Text, more: &[u8]) -> Result<(), Memory>
    ensures added { OnOk result (text.new ≡ text.old ++ (name.now ++ more.now)) }
{
    text.append(name.as_slice())?;
    text.append(more)
}

/// Adds an element of an array: its name, and the index in brackets.
fn put_element(text: &mut Text, array: &Text, index: &Expr) -> Result<(), Memory>
    ensures added { OnOk result (text.new ≡ text.old ++ (array.now
        ++ codes "[" ++ expression_text index.now ++ codes "]")) }
{
    put_name(text, array, b"[")?;
    put_expr(text, index)?;
    text.append(b"]")
}

/// Adds what a simple statement does.
pub(crate) fn put_action(text: &mut Text, action: &Action) -> Result<(), Memory>
    ensures added { OnOk result (text.new ≡ text.old ++ action_text (action_of action.now)) }
{
    match action {
        Action::Skip => text.append(b"skip"),
        Action::Assert(claim) => {
            text.append(b"assert ")?;
            put_cond(text, claim)
        }
        Action::Assign(target, value) => {
            put_name(text, target, b" = ")?;
            put_expr(text, value)
        }
        Action::Input(target) => put_name(text, target, b" = input"),
        Action::MakeArray(target, length) => {
            put_name(text, target, b" = array ")?;
            put_expr(text, length)
        }
        Action::SetNull(target) => put_name(text, target, b" = null"),
        Action::MakeCell(target) => put_name(text, target, b" = new"),
        Action::ReadElement(target, array, index) => {
            put_name(text, target, b" = ")?;
            put_element(text, array, index)
        }
        Action::ReadNext(target, link) => {
            put_name(text, target, b" = ")?;
            put_name(text, link, b".next")
        }
        Action::ReadItem(target, link) => {
            put_name(text, target, b" = ")?;
            put_name(text, link, b".item")
        }
        Action::WriteElement(array, index, value) => {
            put_element(text, array, index)?;
            text.append(b" = ")?;
            put_expr(text, value)
        }
        Action::WriteNext(link, target) => {
            put_name(text, link, b".next = ")?;
            text.append(target.as_slice())
        }
        Action::WriteItem(link, value) => {
            put_name(text, link, b".item = ")?;
            put_expr(text, value)
        }
    }
}

/// Adds sides with commas between.
fn put_sides(text: &mut Text, sides: &[Side]) -> Result<(), Memory>
    ensures added { OnOk result (text.new ≡ text.old ++ sides_text (operands_of sides.now)) }
{
    match sides {
        [] => Ok(()),
        [first, rest @ ..] => {
            put_side(text, first)?;
            put_more_sides(text, rest)
        }
    }
}

/// Adds each side with a comma before.
fn put_more_sides(text: &mut Text, sides: &[Side]) -> Result<(), Memory>
    ensures added { OnOk result (text.new ≡ text.old ++ more_sides_text (operands_of sides.now)) }
{
    'each: for i in 0..sides.len() {
        text.append(b", ")?;
        put_side(text, &sides[i])?;
    }
    Ok(())
}

fn put_target(text: &mut Text, target: &Option<Text>) -> Result<(), Memory>
    ensures added { OnOk result (text.new ≡ text.old ++ target_text target.now) }
{
    match target {
        None => Ok(()),
        Some(target) => put_name(text, target, b" = "),
    }
}

/// Adds a call.
pub(crate) fn put_call(text: &mut Text, call: &Call) -> Result<(), Memory>
    ensures added { let arguments = operands_of call.now.arguments in
        OnOk result (text.new ≡ text.old ++ call_text call.now.target call.now.callee arguments) }
{
    put_target(text, &call.target)?;
    text.append(b"call ")?;
    text.append(call.callee.as_slice())?;
    text.append(b"(")?;
    put_sides(text, call.arguments.as_slice())?;
    text.append(b")")
}

/// Adds so many spaces.
pub(crate) fn put_spaces(text: &mut Text, count: usize) -> Result<(), Memory>
    ensures added { OnOk result (text.new ≡ text.old ++ spaces count) }
{
    'each: for i in 0..count {
        text.push(b' ')?;
    }
    Ok(())
}

/// Adds what stands before a line.
pub(crate) fn put_margin(text: &mut Text, listing: bool, number: Option<u32>) -> Result<(), Memory>
    ensures added { OnOk result (text.new ≡ text.old ++ margin listing number) }
{
    if !listing {
        return Ok(());
    }
    match number {
        None => text.append(b"        "),
        Some(number) => {
            let mut buffer = Buffer::new();
            let digits = buffer.format(number).as_bytes();
            put_spaces(text, 7_usize.saturating_sub(digits.len()))?;
            text.append(digits)?;
            text.append(b" ")
        }
    }
}

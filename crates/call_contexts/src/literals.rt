//! The numbers that stand in a statement.
ghost use Rattle.std.specs.Prelude.{◌≡◌, ◌++◌, [], ◌∷◌, IfOk, OnOk, map};
ghost use Rattle.imp_slots.specs.ActionViews.{effect_of};
ghost use Rattle.imp_slots.specs.CallViews.{argument_of};
ghost use Rattle.imp_chains.specs.Thresholds.{term_literals, guard_literals, effect_literals, argument_literals};
ghost use Rattle.call_contexts.specs.Literals.{stmt_literals, form_literals};

use base_values::{Items, Memory, Number};
use imp_check::SlotForm;
use imp_slots::{Argument, SlotAction, SlotCond, SlotCondNode, SlotExpr, SlotExprNode, SlotStmt};
use std::alloc::Global;

fn add_term(expr: &SlotExpr, found: &mut Vec<Number>) -> Result<(), Memory>
    ensures added { OnOk result (found.new.items ≡ found.old.items ++ term_literals expr.now) }
{
    match expr.node() {
        SlotExprNode::Literal(n) => {
            found.push(*n)?;
            Ok(())
        }
        SlotExprNode::Slot(_) => Ok(()),
        SlotExprNode::Length(_) => Ok(()),
        SlotExprNode::Negative(e) => add_term(e, found),
        SlotExprNode::Binary(_, a, b) => {
            add_term(a, found)?;
            add_term(b, found)
        }
    }
}

fn add_guard(cond: &SlotCond, found: &mut Vec<Number>) -> Result<(), Memory>
    ensures added { OnOk result (found.new.items ≡ found.old.items ++ guard_literals cond.now) }
{
    match cond.node() {
        SlotCondNode::Compare(_, a, b) => {
            add_term(a, found)?;
            add_term(b, found)
        }
        SlotCondNode::CompareLinks(_, _, _) => Ok(()),
        SlotCondNode::Not(c) => add_guard(c, found),
        SlotCondNode::And(c, d) => {
            add_guard(c, found)?;
            add_guard(d, found)
        }
        SlotCondNode::Or(c, d) => {
            add_guard(c, found)?;
            add_guard(d, found)
        }
    }
}

fn add_action(action: &SlotAction, found: &mut Vec<Number>) -> Result<(), Memory>
    ensures added { OnOk result (found.new.items ≡ found.old.items ++ effect_literals
        (effect_of action.now)) }
{
    match action {
        SlotAction::Assert(c) => add_guard(c, found),
        SlotAction::SetInt(_, e) => add_term(e, found),
        SlotAction::ReadElement(_, _, e) => add_term(e, found),
        SlotAction::MakeArray(_, e) => add_term(e, found),
        SlotAction::WriteElement(_, e, f) => {
            add_term(e, found)?;
            add_term(f, found)
        }
        SlotAction::WriteItem(_, e) => add_term(e, found),
        SlotAction::Skip => Ok(()),
        SlotAction::Input(_) => Ok(()),
        SlotAction::ReadItem(_, _) => Ok(()),
        SlotAction::CopyArray(_, _) => Ok(()),
        SlotAction::SetNull(_) => Ok(()),
        SlotAction::MakeCell(_) => Ok(()),
        SlotAction::CopyLink(_, _) => Ok(()),
        SlotAction::ReadNext(_, _) => Ok(()),
        SlotAction::WriteNext(_, _) => Ok(()),
    }
}

fn add_argument(argument: &Argument, found: &mut Vec<Number>) -> Result<(), Memory>
    ensures added { OnOk result (found.new.items ≡ found.old.items ++ argument_literals
        (argument_of argument.now ∷ [])) }
{
    match argument {
        Argument::Int(e) => add_term(e, found),
        Argument::Array(_) => Ok(()),
        Argument::Link(_) => Ok(()),
    }
}

fn add_arguments(arguments: &[Argument], found: &mut Vec<Number>) -> Result<(), Memory>
    ensures added { OnOk result (found.new.items ≡ found.old.items ++ argument_literals
        (map argument_of arguments.now)) }
{
    for argument in arguments {
        add_argument(argument, found)?;
    }
    Ok(())
}

fn add_stmt(stmt: &SlotStmt, found: &mut Vec<Number>) -> Result<(), Memory>
    ensures added { OnOk result (found.new.items ≡ found.old.items ++ stmt_literals stmt.now) }
{
    match stmt {
        SlotStmt::Simple(action) => add_action(action, found),
        SlotStmt::Break => Ok(()),
    }
}

/// Adds the numbers of a statement, without those inside it.
pub(crate) fn add_form(form: &SlotForm, found: &mut Vec<Number>) -> Result<(), Memory>
    ensures added { OnOk result (found.new.items ≡ found.old.items ++ form_literals form.now) }
{
    match form {
        SlotForm::Stmt(stmt) => add_stmt(stmt, found),
        SlotForm::Cond(cond) => add_guard(cond, found),
        SlotForm::Call(call, _) => add_arguments(call.entering().arguments(), found),
    }
}

/// The numbers of a statement, without those inside it.
pub(crate) fn numbers_of(alloc: Global, form: &SlotForm) -> Result<Items<Number>, Memory>
    ensures are { IfOk result (λ numbers. numbers ≡ form_literals form.now) }
{
    let mut numbers = Vec::new(alloc);
    add_form(form, &mut numbers)?;
    Ok(Items::from_vec(numbers))
}

//! The statements of a program that have fault points.
ghost use Rattle.std.specs.Prelude.{◌≡◌, ◌++◌, IfOk, OnOk};
ghost use Rattle.imp_check.specs.Slots.{routines_of};
ghost use Rattle.fault_verdicts.specs.Statements.{evaluated_statements, with_points};
ghost use Rattle.daig_session.specs.Faults.{entry_evaluates, form_points, is_loop, pointed_at};
ghost use Rattle.daig_session.specs.Faults.{pointed_among};

use crate::checks::all_statements;
use base_values::{Items, Memory};
use fault_points::{FaultPoints, points_of_action, points_of_arguments, points_of_condition};
use fault_verdicts::Evaluated;
use imp_check::{Entry, SlotForm};
use imp_slots::SlotStmt;
use imp_syntax::{Stmt, StmtId, StmtNode};
use imp_table::View;
use std::alloc::Global;

/// The fault points of what a statement evaluates.
fn form_points(alloc: Global, form: &SlotForm) -> Result<FaultPoints, Memory>
    ensures are { IfOk result (λ ps. ps ≡ form_points form.now) }
{
    match form {
        SlotForm::Stmt(SlotStmt::Simple(action)) => points_of_action(alloc, action),
        SlotForm::Stmt(SlotStmt::Break) => Ok(Items::new(alloc)),
        SlotForm::Cond(c) => points_of_condition(alloc, c),
        SlotForm::Call(call, _) => points_of_arguments(alloc, call),
    }
}

/// Whether a statement is a loop.
fn is_loop(stmt: &Stmt) -> bool
    ensures is { result ≡ is_loop stmt.now }
{
    match stmt.node() {
        StmtNode::Simple(_) => false,
        StmtNode::Break => false,
        StmtNode::Call(_) => false,
        StmtNode::If(_, _, _) => false,
        StmtNode::While(_, _) => true,
    }
}

/// What a statement evaluates.
fn entry_evaluates(alloc: Global, entry: &Entry) -> Result<Evaluated, Memory>
    ensures is { IfOk result (λ x. x ≡ entry_evaluates entry.now) }
{
    let points = form_points(alloc, &entry.form)?;
    Ok(Evaluated {
        number: entry.number.number(),
        is_loop: is_loop(&entry.part),
        points,
    })
}

/// Adds the statement of a number, if it has fault points.
fn add_pointed(
    alloc: Global,
    view: &View<'_>,
    id: StmtId,
    found: &mut Items<Evaluated>,
) -> Result<(), Memory>
    ensures added { OnOk result (found.new ≡ found.old ++ pointed_at view.now id) }
{
    let Some(entry) = view.entry(id) else {
        return Ok(());
    };
    let evaluated = entry_evaluates(alloc, entry)?;
    if evaluated.has_points() {
        found.push(evaluated)
    } else {
        Ok(())
    }
}

/// Those among statements that have fault points.
fn pointed_among(
    alloc: Global,
    view: &View<'_>,
    stmts: &[StmtId],
) -> Result<Items<Evaluated>, Memory>
    ensures are { IfOk result (λ xs. xs ≡ pointed_among view.now stmts.now) }
{
    let mut found = Items::new(alloc);
    for stmt in stmts {
        add_pointed(alloc, view, *stmt, &mut found)?;
    }
    Ok(found)
}

/// The statements that have fault points, in the order of the text. It takes time linear in the program.
#[tactic(auto, using(crate::proofs::PointLemmas::all_pointed))]
pub(crate) fn all_pointed(alloc: Global, view: &View<'_>) -> Result<Items<Evaluated>, Memory>
    ensures are { IfOk result
        (λ xs. xs ≡ with_points (evaluated_statements (routines_of view.now))) }
{
    view.procs();
    let stmts = all_statements(alloc, view)?;
    pointed_among(alloc, view, stmts.as_slice())
}

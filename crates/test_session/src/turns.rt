//! Calls of a session, and the texts of what they answer.
ghost use Rattle.std.specs.Prelude.{◌≡◌, IfOk};
ghost use Rattle.imp_edit.specs.Edited.{Continues};

use crate::edits::replacement;
use crate::values::shown;
use call_contexts::place_of;
use daig_graph::Value;
use daig_machine::Question;
use daig_session::{Session, StepResult};
use domain_laws::{Domain, Steps};
use imp_edit::EditError;
use imp_syntax::{Edit, Location, ProcId};
use imp_table::Table;
use std::alloc::Global;
use std::sync::ledger::Ledger;
use std::test::Fail;

/// The procedure of a location.
fn proc_at(table: &Table, at: &Location) -> Option<ProcId> {
    match place_of(&table.view(), at) {
        Ok(proc) => Some(proc),
        Err(_) => None,
    }
}

/// The text of an answer in a procedure.
fn answered<D: Domain>(
    alloc: Global,
    session: &Session<D>,
    proc: Option<ProcId>,
    value: &Value<D::State>,
) -> Result<String, Fail> {
    let view = session.program().view();
    let Some(proc) = proc else {
        return Err("no place".into());
    };
    match view.layout(proc) {
        Some(layout) => shown(alloc, session.domain(), layout, value),
        None => Err("no procedure".into()),
    }
}

/// What is answered at a location.
pub(crate) fn queried<D: Domain, L: Ledger>(
    alloc: Global,
    session: &mut Session<D>,
    at: &Location,
    steps: &mut Steps<L>,
) -> Result<String, Fail> {
    match session.query(alloc, at, &[], steps) {
        Ok(value) => answered(alloc, session, proc_at(session.program(), at), &value),
        Err(why) => Ok(format!(in alloc; "{why:?}")?),
    }
}

/// What is answered at a location, with its cost; and what is answered there again, with its cost and the cells that the
/// first question kept.
pub(crate) fn queried_twice<D: Domain, L: Ledger>(
    alloc: Global,
    session: &mut Session<D>,
    at: &Location,
    steps: &mut Steps<L>,
) -> Result<String, Fail> {
    let first = queried(alloc, session, at, steps)?;
    let none = session.cost();
    let kept = session.kept_count() as u64;
    let again = queried(alloc, session, at, steps)?;
    let all = session.cost().saturating_add(kept);
    Ok(format!(in alloc; "{first} {none}; {again} {all}")?)
}

/// Opens a ticket.
pub(crate) fn begun<D: Domain>(
    alloc: Global,
    session: &mut Session<D>,
    question: Question,
) -> Result<String, Fail> {
    if session.next_ticket() > 1000 {
        return Err("many tickets".into());
    }
    match session.begin(alloc, question) {
        Ok(ticket) => Ok(format!(in alloc; "ticket {ticket}")?),
        Err(why) => Ok(format!(in alloc; "{why:?}")?),
    }
}

/// What a step answers, by a state in a procedure.
fn answered_step<D: Domain>(
    alloc: Global,
    session: &Session<D>,
    proc: Option<ProcId>,
    turn: StepResult<D::State>,
) -> Result<String, Fail> {
    match turn {
        StepResult::Pending(filled) => Ok(format!(in alloc; "pending {filled}")?),
        StepResult::State(value) => answered(alloc, session, proc, &value),
        StepResult::Why(stmts) => {
            let many = stmts.as_slice().len();
            Ok(format!(in alloc; "why {many}")?)
        }
        StepResult::Report(findings) => {
            let many = findings.as_slice().len();
            Ok(format!(in alloc; "report {many}")?)
        }
        StepResult::Faults(findings) => {
            let many = findings.as_slice().len();
            Ok(format!(in alloc; "faults {many}")?)
        }
    }
}

/// Fills so many cells for a ticket.
pub(crate) fn stepped<D: Domain, L: Ledger>(
    alloc: Global,
    session: &mut Session<D>,
    ticket: u64,
    most: u32,
    steps: &mut Steps<L>,
) -> Result<String, Fail> {
    let proc = match session.question_of(ticket) {
        Some(Question::State { at, string: _ }) => proc_at(session.program(), at),
        _ => None,
    };
    match session.step(alloc, ticket, most, steps) {
        Ok(turn) => answered_step(alloc, session, proc, turn),
        Err(why) => Ok(format!(in alloc; "{why:?}")?),
    }
}

/// The text of the next number.
fn next_text(alloc: Global, next: u32) -> Result<String, Fail> {
    Ok(format!(in alloc; "next {next}")?)
}

/// The text of why an edit is refused.
fn refusal_text(alloc: Global, why: EditError) -> Result<String, Fail> {
    Ok(format!(in alloc; "{why}")?)
}

/// Makes an edit.
fn edited<D: Domain>(alloc: Global, session: &mut Session<D>, edit: &Edit) -> Result<String, Fail>
    requires continues { Continues edit.now session.old.book.next }
{
    match session.prepare(alloc, edit) {
        Ok(prepared) => {
            let next = prepared.next();
            prepared.commit();
            next_text(alloc, next)
        }
        Err(why) => refusal_text(alloc, why),
    }
}

/// Makes the action of a text of a statement.
pub(crate) fn replaced<D: Domain>(
    alloc: Global,
    session: &mut Session<D>,
    stmt: u32,
    text: &str,
) -> Result<String, Fail> {
    session.ready();
    let edit = replacement(alloc, stmt, text, session.next())?;
    edited(alloc, session, &edit)
}

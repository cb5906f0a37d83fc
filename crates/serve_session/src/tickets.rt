//! Tickets, and going back and forth. Each reply is made before the session is changed.
ghost use Rattle.std.specs.Prelude.{◌≡◌, ◌<◌, ◌^◌, IfOk};
ghost use Rattle.serve_answers.specs.Turns.{begin_turn, cancel_turn, question_of, redo_turn};
ghost use Rattle.serve_answers.specs.Turns.{step_turn, undo_turn};
ghost use Rattle.serve_session.specs.Followed.{StaysOnErr, TakesTurn, ask_refusal, move_refusal};
ghost use Rattle.serve_session.specs.Followed.{step_refusal, FillsOnStep, TellsStep, KeepsDomain};
ghost use Rattle.serve_session.specs.Followed.{told_at, told_only, OpensAtMostOne};

use crate::questions::value_line;
use crate::written::{line_of, refused, refused_if};
use base_values::Memory;
use daig_machine::Question;
use daig_session::{AskError, Session, StepError, StepResult, UndoError};
use domain_laws::{Domain, Steps};
use fault_words::{FaultVerdict, with_verdict};
use imp_syntax::{Location, StmtId};
use request_json::{Query, Refusal, Reply, Task};
use serve_replies::numbers_of;
use std::alloc::Global;
use std::sync::ledger::Ledger;

/// Why a ticket is not opened; nothing when memory runs out.
fn ask_refusal(error: AskError) -> Option<Refusal>
    ensures is { result ≡ ask_refusal error }
{
    match error {
        AskError::Refused(why) => Some(Refusal::Query(why)),
        AskError::Full => Some(Refusal::ManyTickets),
        AskError::Memory => None,
    }
}

/// Why a ticket is not stepped; nothing when memory runs out.
fn step_refusal(error: StepError) -> Option<Refusal>
    ensures is { result ≡ step_refusal error }
{
    match error {
        StepError::NoTicket => Some(Refusal::NoTicket),
        StepError::Gone => Some(Refusal::Gone),
        StepError::Memory => None,
    }
}

/// Why the program stays: this, where there is none to go to; nothing when memory runs out.
fn move_refusal(error: UndoError, otherwise: Refusal) -> Option<Refusal>
    ensures is { result ≡ move_refusal error otherwise }
{
    match error {
        UndoError::Nothing => Some(otherwise),
        UndoError::Memory => None,
    }
}

/// The question that a ticket is opened for.
fn question_of(alloc: Global, task: Task) -> Result<Question, Memory>
    ensures is { IfOk result (λ q. q ≡ question_of task) }
{
    match task {
        Task::State(query) => {
            let Query { at, string } = query;
            let string = numbers_of(alloc, &string)?;
            Ok(Question::State { at, string })
        }
        Task::Why(query) => {
            let Query { at, string } = query;
            let string = numbers_of(alloc, &string)?;
            Ok(Question::Why { at, string })
        }
        Task::Report => Ok(Question::Report),
        Task::Faults { only } => Ok(Question::Faults { only }),
    }
}

/// A new ticket.
pub(crate) fn begin_line<D: Domain>(
    alloc: Global,
    session: &mut Session<D>,
    task: Task,
) -> Result<Vec<u8>, Memory>
    requires room { session.old.book.tickets.next < 2 ^ 63 }
    ensures domain { KeepsDomain session.old session.new }
    ensures rises { OpensAtMostOne session.old session.new }
    ensures turn { TakesTurn D.operations session.old session.new
        (λ dom. begin_turn dom (question_of task)) result }
    ensures unchanged { StaysOnErr D.operations session.old session.new result }
{
    let line = line_of(alloc, Reply::Ticket(session.next_ticket()))?;
    let question = question_of(alloc, task)?;
    match session.begin(alloc, question) {
        Ok(_) => Ok(line),
        Err(error) => refused_if(alloc, ask_refusal(error)),
    }
}

/// A copy of a location.
fn copied(at: &Location) -> Result<Location, Memory>
    ensures same { IfOk result (λ copy. copy ≡ at.now) }
{
    match at {
        Location::Before(n) => Ok(Location::Before(*n)),
        Location::After(n) => Ok(Location::After(*n)),
        Location::Head(n) => Ok(Location::Head(*n)),
        Location::End(name) => Ok(Location::End(name.clone()?)),
    }
}

/// The location by whose variables the answer to a question is told; any where it is told by none.
fn told_at(question: &Question) -> Result<Location, Memory>
    ensures is { IfOk result (λ at. at ≡ told_at question.now) }
{
    match question {
        Question::State { at, string: _ } => copied(at),
        Question::Why { at, string: _ } => copied(at),
        Question::Report => Ok(Location::Before(StmtId::new(0))),
        Question::Faults { only: _ } => Ok(Location::Before(StmtId::new(0))),
    }
}

/// The verdict of the faults that a question wants told; all where there is none.
fn told_only(question: &Question) -> Option<FaultVerdict>
    ensures is { result ≡ told_only question.now }
{
    match question {
        Question::Faults { only } => *only,
        _ => None,
    }
}

/// The line of a step: how many cells it filled, or the answer, told by the variables at a location.
fn turn_line<D: Domain>(
    alloc: Global,
    session: &Session<D>,
    at: &Location,
    only: Option<FaultVerdict>,
    turn: StepResult<D::State>,
) -> Result<Vec<u8>, Memory>
    ensures tells { TellsStep D.operations session.now at.now only turn result }
{
    match turn {
        StepResult::Pending(filled) => line_of(alloc, Reply::Pending(filled as u64)),
        StepResult::State(value) => value_line(alloc, session, at, &value),
        StepResult::Why(stmts) => line_of(alloc, Reply::Why(stmts)),
        StepResult::Report(findings) => line_of(alloc, Reply::Report(findings)),
        StepResult::Faults(findings) => {
            let told = with_verdict(alloc, only, findings)?;
            line_of(alloc, Reply::Faults(told))
        }
    }
}

/// A step of a ticket. Where it ends the ticket, the reply is that of the whole request.
pub(crate) fn step_line<D: Domain, L: Ledger>(
    alloc: Global,
    session: &mut Session<D>,
    ticket: u64,
    n: u32,
    steps: &mut Steps<L>,
) -> Result<Vec<u8>, Memory>
    ensures domain { KeepsDomain session.old session.new }
    ensures rises { OpensAtMostOne session.old session.new }
    ensures turn { TakesTurn D.operations session.old session.new
        (λ dom. step_turn dom ticket n) result }
    ensures between { FillsOnStep D.operations session.old session.new ticket n result }
{
    session.ready();
    let Some(question) = session.question_of(ticket) else {
        return refused(alloc, Refusal::NoTicket);
    };
    let at = told_at(question)?;
    let only = told_only(question);
    match session.step(alloc, ticket, n, steps) {
        Ok(turn) => turn_line(alloc, session, &at, only, turn),
        Err(error) => refused_if(alloc, step_refusal(error)),
    }
}

/// A ticket is given up.
pub(crate) fn cancel_line<D: Domain>(
    alloc: Global,
    session: &mut Session<D>,
    ticket: u64,
) -> Result<Vec<u8>, Memory>
    ensures domain { KeepsDomain session.old session.new }
    ensures rises { OpensAtMostOne session.old session.new }
    ensures turn { TakesTurn D.operations session.old session.new (λ _. cancel_turn ticket) result }
    ensures unchanged { StaysOnErr D.operations session.old session.new result }
{
    let line = line_of(alloc, Reply::Cancelled(ticket))?;
    match session.cancel(ticket) {
        Ok(()) => Ok(line),
        Err(_) => refused(alloc, Refusal::NoTicket),
    }
}

/// The program before the last edit.
pub(crate) fn undo_line<D: Domain>(
    alloc: Global,
    session: &mut Session<D>,
) -> Result<Vec<u8>, Memory>
    ensures domain { KeepsDomain session.old session.new }
    ensures rises { OpensAtMostOne session.old session.new }
    ensures turn { TakesTurn D.operations session.old session.new undo_turn result }
    ensures unchanged { StaysOnErr D.operations session.old session.new result }
{
    let line = line_of(alloc, Reply::Next(session.next()))?;
    match session.undo(alloc) {
        Ok(_) => Ok(line),
        Err(error) => refused_if(alloc, move_refusal(error, Refusal::NothingToUndo)),
    }
}

/// The program before the last undo.
pub(crate) fn redo_line<D: Domain>(
    alloc: Global,
    session: &mut Session<D>,
) -> Result<Vec<u8>, Memory>
    ensures domain { KeepsDomain session.old session.new }
    ensures rises { OpensAtMostOne session.old session.new }
    ensures turn { TakesTurn D.operations session.old session.new redo_turn result }
    ensures unchanged { StaysOnErr D.operations session.old session.new result }
{
    let line = line_of(alloc, Reply::Next(session.next()))?;
    match session.redo(alloc) {
        Ok(_) => Ok(line),
        Err(error) => refused_if(alloc, move_refusal(error, Refusal::NothingToRedo)),
    }
}

//! The answer to a line.
ghost use Rattle.std.specs.Prelude.{◌≡◌, ◌<◌, ◌^◌, Ok, IfOk};
ghost use Rattle.request_json.specs.Requests.{request_of};
ghost use Rattle.serve_replies.specs.Refusals.{line_refusal};
ghost use Rattle.serve_session.specs.Followed.{StaysUnlessFilled, AnswersLine, AnswersRequest};
ghost use Rattle.serve_session.specs.Followed.{FillsOnLine, FillsOnRequest, IsLineOf, KeepsDomain};
ghost use Rattle.serve_session.specs.Followed.{OpensAtMostOne};

use crate::edits::edit_request;
use crate::questions::{faults_line, report_line, state_line, why_line};
use crate::tickets::{begin_line, cancel_line, redo_line, step_line, undo_line};
use crate::told::{cost_line, listing_line, program_line, run_line};
use crate::written::line_of;
use base_values::Memory;
use daig_session::Session;
use domain_laws::{Domain, Steps};
use request_json::{ReadError, Reply, Request, read_request};
use serve_replies::line_refusal;
use std::alloc::Global;
use std::sync::ledger::Ledger;

/// The answer to a request.
fn request_line<D: Domain, L: Ledger>(
    alloc: Global,
    session: &mut Session<D>,
    request: Request,
    steps: &mut Steps<L>,
) -> Result<Vec<u8>, Memory>
    requires room { session.old.book.tickets.next < 2 ^ 63 }
    ensures domain { KeepsDomain session.old session.new }
    ensures rises { OpensAtMostOne session.old session.new }
    ensures turn { AnswersRequest D.operations session.old session.new request result }
    ensures between { FillsOnRequest D.operations session.old session.new request result }
    ensures unchanged { StaysUnlessFilled D.operations session.old session.new (Ok request) result }
{
    match request {
        Request::State(query) => state_line(alloc, session, &query, steps),
        Request::Report => report_line(alloc, session, steps),
        Request::Faults { only } => faults_line(alloc, session, only, steps),
        Request::Cost => cost_line(alloc, session),
        Request::Program => program_line(alloc, session),
        Request::Listing => listing_line(alloc, session),
        Request::Run { inputs, fuel, at } => {
            run_line(alloc, session, inputs.as_slice(), fuel, at.as_ref())
        }
        Request::Why(query) => why_line(alloc, session, &query, steps),
        Request::Undo => undo_line(alloc, session),
        Request::Redo => redo_line(alloc, session),
        Request::Begin(task) => begin_line(alloc, session, task),
        Request::Step { ticket, n } => step_line(alloc, session, ticket, n, steps),
        Request::Cancel { ticket } => cancel_line(alloc, session, ticket),
        edit => edit_request(alloc, session, edit),
    }
}

/// The line that tells why a line is no request. When memory runs out there is none.
fn unread_line(alloc: Global, error: ReadError) -> Result<Vec<u8>, Memory>
    ensures line { IsLineOf (Reply.Refused (line_refusal error)) result }
    ensures no_memory { IfOk result (λ _. error ≡ ReadError.Memory → ⊥) }
{
    let reply = line_refusal(error)?;
    line_of(alloc, reply)
}

/// The answer to a line: what the machine that the session stands for replies, and the session then stands for the machine
/// after it. The number of the next ticket rises by one at most.
///
/// # Errors
///
/// [`Memory`] alone. A line that asks no question, for no list of statements, for no report, of checks or of faults, and for
/// no step then leaves the session as it was. After one that does, either some of what was missing is kept, the first of
/// it, and nothing else is changed; or the session stands for the machine after the line, and the reply alone is not
/// written.
pub fn answer_line<D: Domain, L: Ledger>(
    alloc: Global,
    session: &mut Session<D>,
    line: &[u8],
    steps: &mut Steps<L>,
) -> Result<Vec<u8>, Memory>
    requires room { session.old.book.tickets.next < 2 ^ 63 }
    ensures domain { KeepsDomain session.old session.new }
    ensures rises { OpensAtMostOne session.old session.new }
    ensures turn { AnswersLine D.operations session.old session.new line.now result }
    ensures between { FillsOnLine D.operations session.old session.new line.now result }
    ensures unchanged { StaysUnlessFilled D.operations session.old session.new
        (request_of line.now) result }
{
    match read_request(alloc, line) {
        Ok(request) => request_line(alloc, session, request, steps),
        Err(error) => unread_line(alloc, error),
    }
}

//! Edits. An edit is worked out and its reply made before the session is changed.
ghost use Rattle.std.specs.Prelude.{◌≡◌, ◌≤◌, IfOk, Ok};
ghost use Rattle.imp_edit.specs.Edited.{Continues};
ghost use Rattle.serve_answers.specs.Refusals.{refusal_of};
ghost use Rattle.serve_answers.specs.Turns.{edit_turn};
ghost use Rattle.serve_answers.specs.Readings.{Readings};
ghost use Rattle.serve_session.specs.Followed.{edit_asked, Makes, StaysOnErr, TakesTurn};
ghost use Rattle.serve_session.specs.Followed.{AnswersEdit, TellsReply, KeepsDomain};
ghost use Rattle.serve_session.specs.Followed.{OpensAtMostOne};

use crate::written::{line_of, refused};
use base_values::Memory;
use daig_session::{Prepared, Session};
use domain_laws::Domain;
use imp_edit::EditError;
use imp_syntax::{Declaration, Edit};
use request_json::{Refusal, Reply, Request};
use serve_answers::{TextError, add_of, guard_of, insert_of, refusal_of, replace_of};
use std::alloc::Global;

/// Gives an edit up, which leaves the session as it is.
fn give_up<D: Domain>(_prepared: Prepared<'_, D>)
    ensures same { _prepared.exit.0.now ≡ _prepared.entry.session.now }
{}

/// The line of the refusal of an edit. When memory runs out there is none.
fn refusal_line<D: Domain>(
    alloc: Global,
    session: &Session<D>,
    edit: &Edit,
    error: EditError,
) -> Result<Vec<u8>, Memory>
    ensures line { TellsReply D.operations session.now
        (λ m. Reply.Refused (refusal_of m.program edit.now error)) result }
    ensures no_memory { IfOk result (λ _. error ≡ EditError.Memory → ⊥) }
{
    let why = refusal_of(alloc, session.program(), edit, error)?;
    refused(alloc, why)
}

/// An edit, whose statements carry the numbers from the next one on.
pub(crate) fn edit_line<D: Domain>(
    alloc: Global,
    session: &mut Session<D>,
    edit: &Edit,
) -> Result<Vec<u8>, Memory>
    requires continues { Continues edit.now session.old.book.next }
    ensures domain { KeepsDomain session.old session.new }
    ensures rises { OpensAtMostOne session.old session.new }
    ensures turn { TakesTurn D.operations session.old session.new
        (λ dom. edit_turn dom (Ok edit.now)) result }
    ensures unchanged { StaysOnErr D.operations session.old session.new result }
{
    match session.prepare(alloc, edit) {
        Ok(prepared) => {
            match line_of(alloc, Reply::Next(prepared.next())) {
                Ok(line) => {
                    prepared.commit();
                    Ok(line)
                }
                Err(error) => {
                    give_up(prepared);
                    Err(error)
                }
            }
        }
        Err(error) => refusal_line(alloc, session, edit, error),
    }
}

/// The edit that a request asks for, or why there is none. Its text is read with the numbers from `next` on.
fn edit_asked(alloc: Global, request: Request, next: u32) -> Result<Edit, TextError>
    requires low { next ≤ 1000001 }
    ensures makes { (readings : Readings) → Makes (edit_asked readings next request) result }
    ensures continues { IfOk result (λ e. Continues e next) }
{
    match request {
        Request::Replace { id, text } => replace_of(alloc, id, text.as_slice(), next),
        Request::Insert { place, text } => insert_of(alloc, place, text.as_slice(), next),
        Request::Guard { id, text } => guard_of(alloc, id, text.as_slice()),
        Request::Add { before, text } => add_of(alloc, before, text.as_slice(), next),
        Request::Delete { id } => Ok(Edit::Delete(id)),
        Request::Declare { proc, name, kind } => Ok(Edit::Declare(
            proc,
            Declaration { name, kind },
        )),
        Request::Drop { proc } => Ok(Edit::DropProc(proc)),
        _ => Err(TextError::Refused(Refusal::NoRequest)),
    }
}

/// A request for an edit. Its text is read with the numbers from the session's next one on.
pub(crate) fn edit_request<D: Domain>(
    alloc: Global,
    session: &mut Session<D>,
    request: Request,
) -> Result<Vec<u8>, Memory>
    ensures domain { KeepsDomain session.old session.new }
    ensures rises { OpensAtMostOne session.old session.new }
    ensures turn { AnswersEdit D.operations session.old session.new request result }
    ensures unchanged { StaysOnErr D.operations session.old session.new result }
{
    session.ready();
    let next = session.next();
    match edit_asked(alloc, request, next) {
        Ok(edit) => edit_line(alloc, session, &edit),
        Err(TextError::Refused(why)) => refused(alloc, why),
        Err(TextError::Memory) => Err(Memory),
    }
}

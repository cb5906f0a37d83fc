//! From a line to its request, or the first of its faults: the clauses of [`read_request`].
ghost use Rattle.std.specs.Prelude.{◌≡◌, None, Some, IfOk, IfErr, codes};
ghost use Rattle.request_json.specs.Requests.{verb_request, request_of, called_request, bounded_query, or_bad, query_at, run_at, replace_at, insert_at, delete_at, guard_at, declare_at, add_at, drop_at, step_at, cancel_at, faults_at, task_at};
ghost use Rattle.request_json.specs.Members.{text_at};
ghost use Rattle.serde_json.specs.View.{view};

use crate::error::ReadError;
use crate::fields::{
    copied_text, count_at, id_at, inputs_at, kind_at, location_if_there, name_at, place_at,
    query_at, text_at, ticket_at, verdict_if_there,
};
use crate::line::json_of;
use crate::names::{Verb, verb_of};
use crate::request::{Query, Request, Task};
use base_values::Memory;
use serde_json::Value;
use std::alloc::Global;

/// The query, where its call string is not too long.
fn allowed(query: Option<Query>) -> Result<Query, ReadError>
    ensures query { result ≡ bounded_query query }
{
    let Some(query) = query else {
        return Err(ReadError::BadMember);
    };
    if query.string.sites().len() <= 2 {
        Ok(query)
    } else {
        Err(ReadError::LongString)
    }
}

/// The request, where there is one.
fn or_bad(request: Option<Request>) -> Result<Request, ReadError>
    ensures request { result ≡ or_bad request }
{
    match request {
        Some(request) => Ok(request),
        None => Err(ReadError::BadMember),
    }
}

/// The request that was found, where there is one.
fn found(request: Result<Option<Request>, Memory>) -> Result<Request, ReadError>
    ensures request { IfOk result (λ found. request ≡ Ok (Some found)) }
    ensures refused { IfErr result (λ error. (error ≡ ReadError.Memory → ⊥) → (request ≡ Ok None) ×
        (error ≡ ReadError.BadMember)) }
{
    or_bad(request?)
}

/// The query, where its call string is not too long.
fn query_of(alloc: Global, request: &Value) -> Result<Query, ReadError>
    ensures query { IfOk result (λ query.
        bounded_query (query_at (view request.now)) ≡ Ok query) }
    ensures refused { IfErr result (λ error. (error ≡ ReadError.Memory → ⊥) →
        bounded_query (query_at (view request.now)) ≡ Err error) }
{
    allowed(query_at(alloc, request)?)
}

/// A run.
fn run_at(alloc: Global, request: &Value) -> Result<Option<Request>, Memory>
    ensures request { IfOk result (λ found. found ≡ run_at (view request.now)) }
{
    let Some(inputs) = inputs_at(alloc, request)? else {
        return Ok(None);
    };
    let Some(fuel) = count_at(request, "fuel") else {
        return Ok(None);
    };
    match location_if_there(alloc, request)? {
        Some(at) => Ok(Some(Request::Run { inputs, fuel, at })),
        None => Ok(None),
    }
}

/// Another simple statement.
fn replace_at(alloc: Global, request: &Value) -> Result<Option<Request>, Memory>
    ensures request { IfOk result (λ found. found ≡ replace_at (view request.now)) }
{
    let Some(id) = id_at(request) else {
        return Ok(None);
    };
    match copied_text(alloc, request, "text")? {
        Some(text) => Ok(Some(Request::Replace { id, text })),
        None => Ok(None),
    }
}

/// New statements.
fn insert_at(alloc: Global, request: &Value) -> Result<Option<Request>, Memory>
    ensures request { IfOk result (λ found. found ≡ insert_at (view request.now)) }
{
    let Some(place) = place_at(alloc, request)? else {
        return Ok(None);
    };
    match copied_text(alloc, request, "text")? {
        Some(text) => Ok(Some(Request::Insert { place, text })),
        None => Ok(None),
    }
}

/// A statement that goes.
fn delete_at(request: &Value) -> Option<Request>
    ensures request { result ≡ delete_at (view request.now) }
{
    match id_at(request) {
        Some(id) => Some(Request::Delete { id }),
        None => None,
    }
}

/// Another condition.
fn guard_at(alloc: Global, request: &Value) -> Result<Option<Request>, Memory>
    ensures request { IfOk result (λ found. found ≡ guard_at (view request.now)) }
{
    let Some(id) = id_at(request) else {
        return Ok(None);
    };
    match copied_text(alloc, request, "text")? {
        Some(text) => Ok(Some(Request::Guard { id, text })),
        None => Ok(None),
    }
}

/// A new variable.
fn declare_at(alloc: Global, request: &Value) -> Result<Option<Request>, Memory>
    ensures request { IfOk result (λ found. found ≡ declare_at (view request.now)) }
{
    let Some(proc) = copied_text(alloc, request, "proc")? else {
        return Ok(None);
    };
    let Some(name) = name_at(alloc, request)? else {
        return Ok(None);
    };
    match kind_at(request) {
        Some(kind) => Ok(Some(Request::Declare { proc, name, kind })),
        None => Ok(None),
    }
}

/// A new procedure.
fn add_at(alloc: Global, request: &Value) -> Result<Option<Request>, Memory>
    ensures request { IfOk result (λ found. found ≡ add_at (view request.now)) }
{
    let Some(before) = copied_text(alloc, request, "before")? else {
        return Ok(None);
    };
    match copied_text(alloc, request, "text")? {
        Some(text) => Ok(Some(Request::Add { before, text })),
        None => Ok(None),
    }
}

/// A procedure that goes.
fn drop_at(alloc: Global, request: &Value) -> Result<Option<Request>, Memory>
    ensures request { IfOk result (λ found. found ≡ drop_at (view request.now)) }
{
    match copied_text(alloc, request, "proc")? {
        Some(proc) => Ok(Some(Request::Drop { proc })),
        None => Ok(None),
    }
}

/// Work on a ticket.
fn step_at(request: &Value) -> Option<Request>
    ensures request { result ≡ step_at (view request.now) }
{
    let Some(ticket) = ticket_at(request) else {
        return None;
    };
    match count_at(request, "n") {
        Some(n) => Some(Request::Step { ticket, n }),
        None => None,
    }
}

/// A ticket that is given up.
fn cancel_at(request: &Value) -> Option<Request>
    ensures request { result ≡ cancel_at (view request.now) }
{
    match ticket_at(request) {
        Some(ticket) => Some(Request::Cancel { ticket }),
        None => None,
    }
}

/// The findings of faults.
fn faults_at(request: &Value) -> Option<Request>
    ensures request { result ≡ faults_at (view request.now) }
{
    match verdict_if_there(request) {
        Some(only) => Some(Request::Faults { only }),
        None => None,
    }
}

/// What a ticket is opened for.
fn task_at(alloc: Global, request: &Value) -> Result<Task, ReadError>
    ensures task { IfOk result (λ task. task_at (view request.now) ≡ Ok task) }
    ensures refused { IfErr result (λ error. (error ≡ ReadError.Memory → ⊥) →
        task_at (view request.now) ≡ Err error) }
{
    let Some(name) = text_at(request, "what") else {
        return Err(ReadError::BadMember);
    };
    match verb_of(name) {
        Some(Verb::State) => Ok(Task::State(query_of(alloc, request)?)),
        Some(Verb::Why) => Ok(Task::Why(query_of(alloc, request)?)),
        Some(Verb::Report) => Ok(Task::Report),
        Some(Verb::Faults) => match verdict_if_there(request) {
            Some(only) => Ok(Task::Faults { only }),
            None => Err(ReadError::BadMember),
        },
        _ => Err(ReadError::BadMember),
    }
}

/// The request that a verb asks of the members.
#[tactic(auto, unfolding(crate::specs::Requests::verb_request))]
fn verb_request(alloc: Global, verb: Verb, request: &Value) -> Result<Request, ReadError>
    ensures request { IfOk result (λ found. verb_request verb (view request.now) ≡ Ok found) }
    ensures refused { IfErr result (λ error. (error ≡ ReadError.Memory → ⊥) →
        verb_request verb (view request.now) ≡ Err error) }
{
    match verb {
        Verb::State => Ok(Request::State(query_of(alloc, request)?)),
        Verb::Report => Ok(Request::Report),
        Verb::Cost => Ok(Request::Cost),
        Verb::Program => Ok(Request::Program),
        Verb::Listing => Ok(Request::Listing),
        Verb::Run => found(run_at(alloc, request)),
        Verb::Replace => found(replace_at(alloc, request)),
        Verb::Insert => found(insert_at(alloc, request)),
        Verb::Delete => or_bad(delete_at(request)),
        Verb::Guard => found(guard_at(alloc, request)),
        Verb::Declare => found(declare_at(alloc, request)),
        Verb::Add => found(add_at(alloc, request)),
        Verb::Drop => found(drop_at(alloc, request)),
        Verb::Why => Ok(Request::Why(query_of(alloc, request)?)),
        Verb::Undo => Ok(Request::Undo),
        Verb::Redo => Ok(Request::Redo),
        Verb::Ask => Ok(Request::Begin(Task::State(query_of(alloc, request)?))),
        Verb::Begin => Ok(Request::Begin(task_at(alloc, request)?)),
        Verb::Step => or_bad(step_at(request)),
        Verb::Cancel => or_bad(cancel_at(request)),
        Verb::Faults => or_bad(faults_at(request)),
    }
}

/// The request of a value.
fn request_in(alloc: Global, request: &Value) -> Result<Request, ReadError>
    ensures request { IfOk result (λ found. called_request (view request.now)
        (text_at (codes "do") (view request.now)) ≡ Ok found) }
    ensures refused { IfErr result (λ error. (error ≡ ReadError.Memory → ⊥) →
        called_request (view request.now) (text_at (codes "do") (view request.now)) ≡
        Err error) }
{
    let Some(name) = text_at(request, "do") else {
        return Err(ReadError::BadMember);
    };
    match verb_of(name) {
        Some(verb) => verb_request(alloc, verb, request),
        None => Err(ReadError::NoRequest),
    }
}

/// The request of a line, or the first of its faults, or out of memory.
#[tactic(auto, unfolding(crate::specs::Requests::request_of))]
pub fn read_request(alloc: Global, line: &[u8]) -> Result<Request, ReadError>
    ensures request { IfOk result (λ request. request_of line.now ≡ Ok request) }
    ensures refused { IfErr result (λ error. (error ≡ ReadError.Memory → ⊥) →
        request_of line.now ≡ Err error) }
{
    match json_of(alloc, line)? {
        Some(request) => request_in(alloc, &request),
        None => Err(ReadError::NoJson),
    }
}

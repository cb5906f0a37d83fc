//! The members of an object as fields of a request, each with the bounds that
//! [`read_request`](crate::read_request) asks.
ghost use Rattle.std.specs.Prelude.{◌≡◌, ◌≤◌, codes, IfOk, IfSome, option_map, option_and_then};
ghost use Rattle.std.specs.Option.{option_copied};
ghost use Rattle.serde_json.specs.Find.{get};
ghost use Rattle.serde_json.specs.View.{view, items_view};
ghost use Rattle.request_json.specs.Members.{text_at, number_in, number_at, string_at, inputs_at, integer_in, items_read, list_in, greatest_id, greatest_ticket, greatest_count};
ghost use Rattle.request_json.specs.Requests.{location_at, location_if_there, verdict_if_there, place_at, kind_at, name_at, id_at, query_at};

use crate::names::verdict_of;
use crate::places::{kind_of, location_of, place_of};
use crate::request::Query;
use base_values::{Items, Memory, Text};
use fault_words::FaultVerdict;
use imp_lex::is_name;
use imp_syntax::{Chain, Location, Place, StmtId, VariableKind};
use serde_json::Value;
use std::alloc::Global;

/// A member that is a text.
pub fn text_at<'v>(request: &'v Value, key: &str) -> Option<&'v str>
    ensures text { option_copied result ≡ text_at key.now (view request.now) }
{
    request.get(key)?.as_str()
}

/// A copy of a member that is a text.
pub(crate) fn copied_text(alloc: Global, request: &Value, key: &str) -> Result<Option<Text>, Memory>
    ensures text { IfOk result (λ text. text ≡ text_at key.now (view request.now)) }
{
    match text_at(request, key) {
        Some(text) => Ok(Some(Text::from_slice(alloc, text.as_bytes())?)),
        None => Ok(None),
    }
}

/// A value that is a whole number from 0 up to the greatest.
fn number_in(value: &Value, most: u64) -> Option<u64>
    ensures number { result ≡ number_in most (view value.now) }
    ensures small { IfSome result (λ n. n ≤ most) }
{
    match value.as_u64() {
        Some(number) => { if number <= most { Some(number) } else { None } }
        None => None,
    }
}

/// A member that is a whole number from 0 up to the greatest.
pub fn number_at(request: &Value, key: &str, most: u64) -> Option<u64>
    ensures number { result ≡ number_at most key.now (view request.now) }
    ensures small { IfSome result (λ n. n ≤ most) }
{
    number_in(request.get(key)?, most)
}

/// The statement of a member.
pub(crate) fn id_at(request: &Value) -> Option<StmtId>
    ensures id { result ≡ id_at (view request.now) }
{
    match number_at(request, "id", 4_294_967_295) {
        Some(number) => Some(StmtId::new(number as u32)),
        None => None,
    }
}

/// The ticket.
pub(crate) fn ticket_at(request: &Value) -> Option<u64>
    ensures ticket { result ≡ number_at greatest_ticket (codes "ticket") (view request.now) }
{
    number_at(request, "ticket", 9_223_372_036_854_775_807)
}

/// A count of steps or cells.
pub(crate) fn count_at(request: &Value, key: &str) -> Option<u32>
    ensures count { result ≡ number_at greatest_count key.now (view request.now) }
{
    match number_at(request, key, 1_000_000) {
        Some(number) => Some(number as u32),
        None => None,
    }
}

/// The location.
pub(crate) fn location_at(alloc: Global, request: &Value) -> Result<Option<Location>, Memory>
    ensures location { IfOk result (λ location. location ≡ location_at (view request.now)) }
{
    match text_at(request, "at") {
        Some(text) => location_of(alloc, text.as_bytes()),
        None => Ok(None),
    }
}

/// The location of a member that may be absent.
pub(crate) fn location_if_there(
    alloc: Global,
    request: &Value,
) -> Result<Option<Option<Location>>, Memory>
    ensures location { IfOk result (λ location. location ≡
        location_if_there (get (codes "at") (view request.now))) }
{
    let Some(member) = request.get("at") else {
        return Ok(Some(None));
    };
    let Some(text) = member.as_str() else {
        return Ok(None);
    };
    match location_of(alloc, text.as_bytes())? {
        Some(location) => Ok(Some(Some(location))),
        None => Ok(None),
    }
}

/// The verdict of a member that may be absent.
pub(crate) fn verdict_if_there(request: &Value) -> Option<Option<FaultVerdict>>
    ensures verdict { result ≡ verdict_if_there (get (codes "only") (view request.now)) }
{
    let Some(member) = request.get("only") else {
        return Some(None);
    };
    match verdict_of(member.as_str()?) {
        Some(verdict) => Some(Some(verdict)),
        None => None,
    }
}

/// The place.
pub(crate) fn place_at(alloc: Global, request: &Value) -> Result<Option<Place>, Memory>
    ensures place { IfOk result (λ place. place ≡ place_at (view request.now)) }
{
    match text_at(request, "place") {
        Some(text) => place_of(alloc, text.as_bytes()),
        None => Ok(None),
    }
}

/// The kind.
pub(crate) fn kind_at(request: &Value) -> Option<VariableKind>
    ensures kind { result ≡ kind_at (view request.now) }
{
    match text_at(request, "kind") {
        Some(text) => kind_of(text),
        None => None,
    }
}

/// The name of a new variable.
pub(crate) fn name_at(alloc: Global, request: &Value) -> Result<Option<Text>, Memory>
    ensures name { IfOk result (λ name. name ≡ name_at (view request.now)) }
{
    let Some(text) = text_at(request, "name") else {
        return Ok(None);
    };
    if !is_name(text.as_bytes()) {
        return Ok(None);
    }
    Ok(Some(Text::from_slice(alloc, text.as_bytes())?))
}

/// The location and the call string.
pub(crate) fn query_at(alloc: Global, request: &Value) -> Result<Option<Query>, Memory>
    ensures query { IfOk result (λ query. query ≡ query_at (view request.now)) }
{
    let Some(at) = location_at(alloc, request)? else {
        return Ok(None);
    };
    let Some(sites) = string_at(alloc, request)? else {
        return Ok(None);
    };
    let string = Chain::new(sites);
    Ok(Some(Query { at, string }))
}

/// The call string, empty where it is absent.
fn string_at(alloc: Global, request: &Value) -> Result<Option<Items<StmtId>>, Memory>
    ensures string { IfOk result (λ string. string ≡ string_at (view request.now)) }
{
    let Some(member) = request.get("string") else {
        return Ok(Some(Items::new(alloc)));
    };
    match member.as_array() {
        Some(members) => ids_in(alloc, members.as_slice()),
        None => Ok(None),
    }
}

/// A member that is a list of numbers of statements. It takes time linear in the list, and fails for want of
/// memory alone.
pub fn ids_at(alloc: Global, request: &Value, key: &str) -> Result<Option<Items<StmtId>>, Memory>
    ensures ids { IfOk result (λ ids. ids ≡ option_and_then (list_in (number_in greatest_id))
        (get key.now (view request.now))) }
{
    let Some(member) = request.get(key) else {
        return Ok(None);
    };
    match member.as_array() {
        Some(members) => ids_in(alloc, members.as_slice()),
        None => Ok(None),
    }
}

/// The statements of these numbers, where each is one.
fn ids_in(alloc: Global, members: &[Value]) -> Result<Option<Items<StmtId>>, Memory>
    ensures ids { IfOk result (λ ids. ids ≡ items_read (number_in greatest_id)
        (items_view members.now)) }
{
    let mut ids = Items::new(alloc);
    for member in members {
        match number_in(member, 4_294_967_295) {
            Some(number) => ids.push(StmtId::new(number as u32))?,
            None => return Ok(None),
        }
    }
    Ok(Some(ids))
}

/// The inputs of a run, none where they are absent.
pub(crate) fn inputs_at(alloc: Global, request: &Value) -> Result<Option<Items<i64>>, Memory>
    ensures inputs { IfOk result (λ inputs. inputs ≡ inputs_at (view request.now)) }
{
    let Some(member) = request.get("inputs") else {
        return Ok(Some(Items::new(alloc)));
    };
    match member.as_array() {
        Some(members) => integers_in(alloc, members.as_slice()),
        None => Ok(None),
    }
}

/// The integers of these values, where each is one.
fn integers_in(alloc: Global, members: &[Value]) -> Result<Option<Items<i64>>, Memory>
    ensures integers { IfOk result (λ integers. integers ≡
        items_read integer_in (items_view members.now)) }
{
    let mut integers = Items::new(alloc);
    for member in members {
        match member.as_i64() {
            Some(integer) => integers.push(integer)?,
            None => return Ok(None),
        }
    }
    Ok(Some(integers))
}

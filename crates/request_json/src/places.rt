//! Locations, places and kinds from their texts, for the fields of a request.
ghost use Rattle.std.specs.Prelude.{◌≡◌, codes, IfOk, Option, option_map};
ghost use Rattle.std.specs.Option.{option_copied};
ghost use Rattle.request_json.specs.Places.{behind, some_text, statement_behind, name_behind, location_of, place_of, kind_of};

use crate::numbers::number_of;
use base_values::{Memory, Text};
use imp_syntax::{Location, Place, StmtId, VariableKind};
use std::alloc::Global;

/// The statement whose number stands after the words.
fn statement_behind(words: &[u8], text: &[u8]) -> Option<StmtId>
    ensures statement { result ≡ statement_behind words.now text.now }
{
    match text.strip_prefix(words) {
        Some(digits) => match number_of(digits) {
            Some(number) => Some(StmtId::new(number)),
            None => None,
        },
        None => None,
    }
}

/// The name that stands after the words.
fn name_behind<'a>(words: &[u8], text: &'a [u8]) -> Option<&'a [u8]>
    ensures name { option_map (λ name. name.now) result ≡ name_behind words.now text.now }
{
    match text.strip_prefix(words) {
        Some([]) => None,
        Some(name) => Some(name),
        None => None,
    }
}

/// The location of a text.
#[tactic(auto, unfolding(crate::specs::Places::location_of))]
pub(crate) fn location_of(alloc: Global, text: &[u8]) -> Result<Option<Location>, Memory>
    ensures location { IfOk result (λ location. location ≡ location_of text.now) }
{
    if let Some(id) = statement_behind(b"before ", text) {
        return Ok(Some(Location::Before(id)));
    }
    if let Some(id) = statement_behind(b"after ", text) {
        return Ok(Some(Location::After(id)));
    }
    if let Some(id) = statement_behind(b"head ", text) {
        return Ok(Some(Location::Head(id)));
    }
    match name_behind(b"end ", text) {
        Some(name) => Ok(Some(Location::End(Text::from_slice(alloc, name)?))),
        None => Ok(None),
    }
}

/// The place of a text.
#[tactic(auto, unfolding(crate::specs::Places::place_of))]
pub(crate) fn place_of(alloc: Global, text: &[u8]) -> Result<Option<Place>, Memory>
    ensures place { IfOk result (λ place. place ≡ place_of text.now) }
{
    if let Some(id) = statement_behind(b"after ", text) {
        return Ok(Some(Place::After(id)));
    }
    if let Some(id) = statement_behind(b"then ", text) {
        return Ok(Some(Place::ThenStart(id)));
    }
    if let Some(id) = statement_behind(b"else ", text) {
        return Ok(Some(Place::ElseStart(id)));
    }
    if let Some(id) = statement_behind(b"body ", text) {
        return Ok(Some(Place::BodyStart(id)));
    }
    match name_behind(b"start ", text) {
        Some(name) => Ok(Some(Place::ProcStart(Text::from_slice(alloc, name)?))),
        None => Ok(None),
    }
}

/// The kind of a text.
#[tactic(auto, unfolding(crate::specs::Places::kind_of))]
pub(crate) fn kind_of(text: &str) -> Option<VariableKind>
    ensures kind { result ≡ kind_of text.now }
{
    match text {
        "int" => Some(VariableKind::Int),
        "array" => Some(VariableKind::Array),
        "list" => Some(VariableKind::List),
        _ => None,
    }
}

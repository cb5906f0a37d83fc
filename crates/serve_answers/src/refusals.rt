//! The refusal of an edit, as that of a reply: `specs/Refusals.antt`.
ghost use Rattle.std.specs.Prelude.{◌≡◌, slice_get, IfOk};
ghost use Rattle.std.specs.Option.{option_copied};
ghost use Rattle.imp_check.specs.Entries.{heads_of};
ghost use Rattle.serve_answers.specs.Refusals.{name_of_head, name_at, holder_of, procedure_at, procedure_edited, refusal_of};

use base_values::{Memory, Text};
use batch_meaning::QueryRefusal as QueryRefusal;
use imp_check::ProcHeader;
use imp_edit::EditError;
use imp_syntax::{Edit, Place, ProcId, StmtId};
use imp_table::Table;
use request_json::{ProgramFault, Refusal};
use serve_replies::fault_refusal;
use std::alloc::Global;

/// The name of a procedure; no name where there is none.
fn name_of_head(alloc: Global, head: Option<&ProcHeader>) -> Result<Text, Memory>
    ensures name { IfOk result (λ name. name ≡ name_of_head (option_copied head.entry)) }
{
    match head {
        Some(head) => Ok(head.bare.name().clone()?),
        None => Ok(Text::new(alloc)),
    }
}

/// The procedure at a place of the program, if there is one.
fn head_at(table: &Table, place: ProcId) -> Option<&ProcHeader>
    ensures head { option_copied result ≡ slice_get (heads_of table.now.program) place }
{
    table.procs().get(place.place() as usize)
}

/// The name of the procedure at a place of the program; no name where there is none.
fn name_at(alloc: Global, table: &Table, place: ProcId) -> Result<Text, Memory>
    ensures name { IfOk result (λ name. name ≡ name_at table.now.program place) }
{
    name_of_head(alloc, head_at(table, place))
}

/// The name of the procedure that holds a statement; no name where there is no such statement.
fn holder_of(alloc: Global, table: &Table, statement: StmtId) -> Result<Text, Memory>
    ensures name { IfOk result (λ name. name ≡ holder_of table.now.program statement) }
{
    match table.entry(statement) {
        Some(entry) => name_at(alloc, table, entry.context.proc),
        None => Ok(Text::new(alloc)),
    }
}

/// The name of the procedure that has a place for statements.
fn procedure_at(alloc: Global, table: &Table, place: &Place) -> Result<Text, Memory>
    ensures name { IfOk result (λ name. name ≡ procedure_at table.now.program place.now) }
{
    match place {
        Place::After(n) => holder_of(alloc, table, *n),
        Place::ThenStart(n) => holder_of(alloc, table, *n),
        Place::ElseStart(n) => holder_of(alloc, table, *n),
        Place::BodyStart(n) => holder_of(alloc, table, *n),
        Place::ProcStart(name) => Ok(name.clone()?),
    }
}

/// The name of the procedure that an edit changes; of a new procedure that of the one that it is put before.
fn procedure_edited(alloc: Global, table: &Table, edit: &Edit) -> Result<Text, Memory>
    ensures name { IfOk result (λ name. name ≡ procedure_edited table.now.program edit.now) }
{
    match edit {
        Edit::Replace(n, _) => holder_of(alloc, table, *n),
        Edit::Insert(at, _) => procedure_at(alloc, table, at),
        Edit::Delete(n) => holder_of(alloc, table, *n),
        Edit::Guard(n, _) => holder_of(alloc, table, *n),
        Edit::Declare(name, _) => Ok(name.clone()?),
        Edit::AddProc { before, proc: _ } => Ok(before.clone()?),
        Edit::DropProc(name) => Ok(name.clone()?),
    }
}

/// The limit of statement numbers, at the procedure that an edit changes.
fn numbers_refusal(alloc: Global, table: &Table, edit: &Edit) -> Result<Refusal, Memory>
    ensures refusal { IfOk result (λ r. r ≡ refusal_of table.now.program edit.now
        EditError.Numbers) }
{
    Ok(Refusal::Limit(ProgramFault {
        at: StmtId::new(0),
        name: Text::from_slice(alloc, b"Numbers")?,
        proc: procedure_edited(alloc, table, edit)?,
    }))
}

/// The refusal of an edit of a program, by its cause. It fails only when memory runs out, also where that is the cause.
pub fn refusal_of(
    alloc: Global,
    table: &Table,
    edit: &Edit,
    error: EditError,
) -> Result<Refusal, Memory>
    ensures refusal { IfOk result (λ r. r ≡ refusal_of table.now.program edit.now error) }
    ensures no_memory { IfOk result (λ _. error ≡ EditError.Memory → ⊥) }
{
    match error {
        EditError::NoProcedure => Ok(Refusal::Query(QueryRefusal::NoProcedure)),
        EditError::NoStatement => Ok(Refusal::Query(QueryRefusal::NoStatement)),
        EditError::WrongStatement => Ok(Refusal::Query(QueryRefusal::WrongStatement)),
        EditError::IsMain => Ok(Refusal::StillCalled),
        EditError::StillCalled => Ok(Refusal::StillCalled),
        EditError::Numbers => numbers_refusal(alloc, table, edit),
        EditError::Fault(found) => fault_refusal(alloc, found),
        EditError::Memory => Err(Memory),
    }
}

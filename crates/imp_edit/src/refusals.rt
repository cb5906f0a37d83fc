//! Why an edit is refused before the new program is made.
ghost use Rattle.std.specs.Prelude.{◌≡◌, Some};
ghost use Rattle.imp_edit.specs.Refusals.{called_refusal, drop_refusal, entry_refusal, fits, is_if, is_while, main_refusal, place_refusal, procedure_refusal, site_refusal, statement_refusal};

use crate::error::EditError;
use base_values::Text;
use imp_check::Entry;
use imp_syntax::{Edit, Place, Stmt, StmtId, StmtNode};
use imp_table::Table;

/// What an edit asks of the statement that it changes.
#[derive(Clone, Copy)]
pub(crate) enum Needed {
    /// Any statement.
    Any,
    /// Neither an if nor a while.
    Simple,
    /// An if.
    If,
    /// A while.
    While,
    /// An if or a while.
    Conditional,
}

/// Why the edit does not fit where it goes. It takes constant time, except names of procedures, which take time linear
/// in the procedures.
pub(crate) fn site_refusal(table: &Table, edit: &Edit) -> Option<EditError>
    ensures is { result ≡ site_refusal edit.now table.now.program }
{
    match edit {
        Edit::Replace(stmt, _) => statement_refusal(table, Needed::Simple, *stmt),
        Edit::Insert(place, _) => place_refusal(table, place),
        Edit::Delete(stmt) => statement_refusal(table, Needed::Any, *stmt),
        Edit::Guard(stmt, _) => statement_refusal(table, Needed::Conditional, *stmt),
        Edit::Declare(name, _) => procedure_refusal(table, name),
        Edit::AddProc { before, proc: _ } => procedure_refusal(table, before),
        Edit::DropProc(name) => drop_refusal(table, name),
    }
}

fn is_if(stmt: &Stmt) -> bool
    ensures is { result ≡ is_if stmt.now }
{
    match stmt.node() {
        StmtNode::If(_, _, _) => true,
        StmtNode::Simple(_) | StmtNode::Break | StmtNode::Call(_) | StmtNode::While(_, _) => false,
    }
}

fn is_while(stmt: &Stmt) -> bool
    ensures is { result ≡ is_while stmt.now }
{
    match stmt.node() {
        StmtNode::While(_, _) => true,
        StmtNode::Simple(_) | StmtNode::Break | StmtNode::Call(_) | StmtNode::If(_, _, _) => false,
    }
}

fn fits(needed: Needed, stmt: &Stmt) -> bool
    ensures is { result ≡ fits needed stmt.now }
{
    match needed {
        Needed::Any => true,
        Needed::Simple => !(is_if(stmt) || is_while(stmt)),
        Needed::If => is_if(stmt),
        Needed::While => is_while(stmt),
        Needed::Conditional => is_if(stmt) || is_while(stmt),
    }
}

fn entry_refusal(needed: Needed, entry: &Entry) -> Option<EditError>
    ensures is { result ≡ entry_refusal needed (Some entry.now) }
{
    if fits(needed, &entry.part) {
        None
    } else {
        Some(EditError::WrongStatement)
    }
}

fn statement_refusal(table: &Table, needed: Needed, stmt: StmtId) -> Option<EditError>
    ensures is { result ≡ statement_refusal needed stmt table.now.program }
{
    match table.entry(stmt) {
        None => Some(EditError::NoStatement),
        Some(entry) => entry_refusal(needed, entry),
    }
}

#[tactic(auto, using(crate::proofs::RefusalLemmas::found, crate::proofs::RefusalLemmas::missing))]
fn procedure_refusal(table: &Table, name: &Text) -> Option<EditError>
    ensures is { result ≡ procedure_refusal name.now table.now.program }
{
    match table.proc_named(name) {
        Some(_) => None,
        None => Some(EditError::NoProcedure),
    }
}

fn place_refusal(table: &Table, place: &Place) -> Option<EditError>
    ensures is { result ≡ place_refusal place.now table.now.program }
{
    match place {
        Place::After(stmt) => statement_refusal(table, Needed::Any, *stmt),
        Place::ThenStart(stmt) => statement_refusal(table, Needed::If, *stmt),
        Place::ElseStart(stmt) => statement_refusal(table, Needed::If, *stmt),
        Place::BodyStart(stmt) => statement_refusal(table, Needed::While, *stmt),
        Place::ProcStart(name) => procedure_refusal(table, name),
    }
}

fn main_refusal(name: &Text) -> Option<EditError>
    ensures is { result ≡ main_refusal name.now }
{
    if name.as_slice() == b"main".as_slice() {
        Some(EditError::IsMain)
    } else {
        None
    }
}

fn called_refusal(sites: &[StmtId]) -> Option<EditError>
    ensures is { result ≡ called_refusal sites.now }
{
    if sites.is_empty() {
        None
    } else {
        Some(EditError::StillCalled)
    }
}

#[tactic(auto, using(crate::proofs::RefusalLemmas::found, crate::proofs::RefusalLemmas::missing, crate::proofs::RefusalLemmas::found_at, crate::proofs::RefusalLemmas::found_within))]
fn drop_refusal(table: &Table, name: &Text) -> Option<EditError>
    ensures is { result ≡ drop_refusal name.now table.now.program }
{
    let Some(proc) = table.proc_named(name) else {
        return Some(EditError::NoProcedure);
    };
    match main_refusal(name) {
        None => called_refusal(table.sites(proc)),
        refusal => refusal,
    }
}

//! The places where edits put statements, or from which one goes.
ghost use Rattle.std.specs.Prelude.{◌≡◌, ◌++◌, ◌&&◌, IfOk, Some, true};
ghost use Rattle.imp_check.specs.Entries.{entries_of, entry_of, heads_of};
ghost use Rattle.imp_check.specs.Walks.{walk};
ghost use Rattle.imp_edit.specs.Gaps.{gap_of, part_gap, place_gap, behind_gap, first_gap, then_gap, else_gap, body_gap, of_entry, of_place};
ghost use Rattle.imp_edit.specs.CallFreeParts.{quiet_from};

use crate::call_free_parts::{add_quiet, is_call};
use base_values::{Items, Memory};
use edit_breaks::Gap;
use imp_check::{Context, Entry, Which};
use imp_syntax::{Edit, Place, ProcId, StmtId};
use imp_table::Table;
use std::alloc::Global;

/// Where an edit puts statements or takes one away in which no call stands; `None` for other edits. It takes time in
/// proportion to the statements that go, or, for the place of a procedure's name, to the procedures.
pub(crate) fn gap_of(alloc: Global, table: &Table, edit: &Edit) -> Result<Option<Gap>, Memory>
    ensures is { IfOk result (λ gap. gap ≡ gap_of edit.now table.now.program) }
{
    match edit {
        Edit::Replace(stmt, _) => part_gap(alloc, table, *stmt),
        Edit::Insert(place, _) => Ok(place_gap(alloc, table, place)),
        Edit::Delete(stmt) => part_gap(alloc, table, *stmt),
        Edit::Guard(_, _) => Ok(None),
        Edit::Declare(_, _) => Ok(None),
        Edit::AddProc { before: _, proc: _ } => Ok(None),
        Edit::DropProc(_) => Ok(None),
    }
}

/// In the place of a statement in which no call stands.
#[tactic(auto, using(imp_check::proofs::FewLemmas::few_statements))]
fn part_gap(alloc: Global, table: &Table, stmt: StmtId) -> Result<Option<Gap>, Memory>
    ensures is { IfOk result (λ gap. gap ≡ part_gap stmt table.now.program) }
{
    table.procs();
    let most = table.view().count() + 1;
    let Some(entry) = table.entry(stmt) else {
        return Ok(None);
    };
    let mut gone = Items::new(alloc);
    gone.push(entry.number)?;
    if is_call(&entry.part) || !add_blocks(table, most, entry, &mut gone)? {
        return Ok(None);
    }
    Ok(Some(Gap {
        context: entry.context,
        front: entry.front,
        next: entry.next,
        gone,
    }))
}

/// Whether no call stands in the blocks of a statement. It adds their numbers, up to the first call.
fn add_blocks(
    table: &Table,
    most: u32,
    entry: &Entry,
    found: &mut Items<StmtId>,
) -> Result<bool, Memory>
    ensures is { IfOk result (λ quiet. quiet ≡ (quiet_from (entry_of (entries_of table.now.program))
        most entry.now.inner.first && quiet_from (entry_of (entries_of table.now.program)) most
        entry.now.other.first)) }
    ensures added { IfOk result (λ quiet. quiet ≡ true →
        found.new ≡ found.old ++ (walk (entry_of (entries_of table.now.program)) most
        entry.now.inner.first ++ walk (entry_of (entries_of table.now.program)) most
        entry.now.other.first)) }
{
    if !add_quiet(table, most, entry.inner.first, found)? {
        return Ok(false);
    }
    add_quiet(table, most, entry.other.first, found)
}

fn place_gap(alloc: Global, table: &Table, place: &Place) -> Option<Gap>
    ensures is { result ≡ place_gap place.now table.now.program }
{
    match place {
        Place::After(stmt) => behind_gap(alloc, table, *stmt),
        Place::ThenStart(stmt) => then_gap(alloc, table, *stmt),
        Place::ElseStart(stmt) => else_gap(alloc, table, *stmt),
        Place::BodyStart(stmt) => body_gap(alloc, table, *stmt),
        Place::ProcStart(name) => start_gap(alloc, table, table.proc_named(name)?),
    }
}

/// After a statement.
fn behind_gap(alloc: Global, table: &Table, stmt: StmtId) -> Option<Gap>
    ensures is { result ≡ of_entry behind_gap (entry_of (entries_of table.now.program) stmt) }
{
    let entry = table.entry(stmt)?;
    Some(Gap {
        context: entry.context,
        front: Some(entry.number),
        next: entry.next,
        gone: Items::new(alloc),
    })
}

/// Before the first block of an if.
#[tactic(auto, using(crate::proofs::GapLemmas::shallow))]
fn then_gap(alloc: Global, table: &Table, stmt: StmtId) -> Option<Gap>
    ensures is { result ≡ of_entry then_gap (entry_of (entries_of table.now.program) stmt) }
{
    table.procs();
    let entry = table.entry(stmt)?;
    let context = entry.context.inside(entry.number, Which::Then);
    Some(first_gap(alloc, context, entry.inner.first))
}

/// Before the second block of an if.
#[tactic(auto, using(crate::proofs::GapLemmas::shallow))]
fn else_gap(alloc: Global, table: &Table, stmt: StmtId) -> Option<Gap>
    ensures is { result ≡ of_entry else_gap (entry_of (entries_of table.now.program) stmt) }
{
    table.procs();
    let entry = table.entry(stmt)?;
    let context = entry.context.inside(entry.number, Which::Else);
    Some(first_gap(alloc, context, entry.other.first))
}

/// Before the body of a while.
#[tactic(auto, using(crate::proofs::GapLemmas::shallow))]
fn body_gap(alloc: Global, table: &Table, stmt: StmtId) -> Option<Gap>
    ensures is { result ≡ of_entry body_gap (entry_of (entries_of table.now.program) stmt) }
{
    table.procs();
    let entry = table.entry(stmt)?;
    let context = entry.context.inside_loop(entry.number);
    Some(first_gap(alloc, context, entry.inner.first))
}

/// Before the body of a procedure.
fn start_gap(alloc: Global, table: &Table, proc: ProcId) -> Option<Gap>
    ensures is { result ≡ of_place (heads_of table.now.program) (Some proc) }
{
    let head = table.view().head(proc)?;
    let context = Context {
        proc,
        around: None,
        head: None,
        depth: 0,
    };
    Some(first_gap(alloc, context, head.body.first))
}

/// Before a block, whose first statement is this one.
fn first_gap(alloc: Global, context: Context, first: Option<StmtId>) -> Gap
    ensures is { result ≡ first_gap context first }
{
    Gap {
        context,
        front: None,
        next: first,
        gone: Items::new(alloc),
    }
}

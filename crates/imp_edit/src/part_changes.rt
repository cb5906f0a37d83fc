//! Edits whose change is found from their own parts and from what is known beside them.
ghost use Rattle.std.specs.Prelude.{ℕ, ◌≡◌, ◌<◌, ◌∷◌, [], IfOk, IfErr, MatchOption, None, Some, true, ⊤};
ghost use Rattle.std.specs.List.{All};
ghost use Rattle.std.specs.Option.{option_map};
ghost use Rattle.imp_syntax.specs.Plain.{Ends, Starts, program_numbers};
ghost use Rattle.imp_check.specs.Programs.{AreNumbered, check_fault};
ghost use Rattle.imp_check.specs.Entries.{entries_of, entry_of};
ghost use Rattle.imp_edit.specs.declared.error.EditError.TheVariants.{Fault};
ghost use Rattle.imp_edit.specs.declared.refusals.Needed.TheVariants.{Conditional};
ghost use Rattle.imp_edit.specs.Changes.{guarded, in_program};
ghost use Rattle.imp_edit.specs.Edited.{Continues, brought, edited, next_after};
ghost use Rattle.imp_edit.specs.Gaps.{gap_of};
ghost use Rattle.imp_edit.specs.Refusals.{IsRefusal, fits, site_refusal};
ghost use Rattle.imp_edit.specs.EditChange.{IsMade};

use crate::error::EditError;
use crate::gap::gap_of;
use crate::single_statements::form_alone;
use crate::splicing::splice;
use base_values::{Items, Memory};
use edit_breaks::{Gap, closed_at};
use imp_check::{Entry, SlotForm, TableSlot};
use imp_syntax::{Block, Cond, Edit, Stmt, StmtId};
use imp_table::{Change, Put, Table};
use std::alloc::Global;

/// The change of an edit that gives a statement another condition, puts statements at a place in which no call stands, or
/// takes a statement away in which no call stands; `None` for other edits, and where a break that comes has no loop: then
/// the change is found from the whole program.
///
/// Another condition takes time in proportion to the condition, times the procedure's variables, and to the breaks of the
/// statement. Statements take time in proportion to the statements that come, with those inside them, times the
/// procedure's variables, to those that go and to the breaks of the loop around them for each, to the statements of that
/// loop before the place where a break comes to it and it keeps others, and, at the start or the end of a procedure, to
/// the number of procedures.
///
/// # Errors
///
/// [`EditError::Fault`] with the first fault of the new program.
pub(crate) fn short_change(
    alloc: Global,
    table: &Table,
    edit: &Edit,
    next: u32,
) -> Result<Option<Change>, EditError>
    requires site { site_refusal edit.now table.now.program ≡ None }
    requires below { All (λ (n : ℕ). n < next) (program_numbers table.now.program) }
    requires continues { Continues edit.now next }
    requires numbered { AreNumbered (edited edit.now table.now.program) }
    ensures made { IfOk result (λ change. MatchOption change ⊤
        (IsMade table.now.program (edited edit.now table.now.program)
        (next_after edit.now next))) }
    ensures refused { IfErr result (IsRefusal (option_map Fault
        (check_fault (edited edit.now table.now.program)))) }
{
    match edit {
        Edit::Guard(stmt, cond) => match table.entry(*stmt) {
            Some(entry) => guard_change(alloc, table, entry, *stmt, cond, next),
            None => Ok(None),
        },
        _ => match gap_of(alloc, table, edit)? {
            Some(gap) => gap_change(alloc, table, edit, &gap, next),
            None => Ok(None),
        },
    }
}

/// The change of an edit that puts statements at this place, and takes away what goes; `None` where a call stands in what
/// comes, or a break that has no loop there.
fn gap_change(
    alloc: Global,
    table: &Table,
    edit: &Edit,
    gap: &Gap,
    next: u32,
) -> Result<Option<Change>, EditError>
    requires site { site_refusal edit.now table.now.program ≡ None }
    requires here { gap_of edit.now table.now.program ≡ Some gap.now }
    requires below { All (λ (n : ℕ). n < next) (program_numbers table.now.program) }
    requires continues { Continues edit.now next }
    requires numbered { AreNumbered (edited edit.now table.now.program) }
    ensures made { IfOk result (λ change. MatchOption change ⊤
        (IsMade table.now.program (edited edit.now table.now.program)
        (next_after edit.now next))) }
    ensures refused { IfErr result (IsRefusal (option_map Fault
        (check_fault (edited edit.now table.now.program)))) }
{
    table.procs();
    let news = brought(alloc, edit)?;
    if !closed_at(gap.context.head, &news) {
        return Ok(None);
    }
    let Some(head) = table.view().head(gap.context.proc) else {
        return Ok(None);
    };
    match splice(alloc, table, head, gap, &news) {
        Ok(change) => Ok(Some(change)),
        Err(error) => Err(error),
    }
}

/// The statements that an edit brings.
fn brought(alloc: Global, edit: &Edit) -> Result<Block, Memory>
    ensures is { IfOk result (λ block. block ≡ brought edit.now) }
{
    match edit {
        Edit::Replace(_, stmt) => block_of_one(alloc, stmt),
        Edit::Insert(_, more) => Ok(more.clone()?),
        Edit::AddProc { before: _, proc } => Ok(proc.body().clone()?),
        Edit::Delete(_) | Edit::Guard(_, _) | Edit::Declare(_, _) | Edit::DropProc(_) => {
            Ok(Block::empty())
        }
    }
}

/// A block of one statement.
fn block_of_one(alloc: Global, stmt: &Stmt) -> Result<Block, Memory>
    ensures is { IfOk result (λ block. block ≡ Starts stmt.now Ends) }
{
    let mut stmts = Items::new(alloc);
    stmts.push(stmt.clone()?)?;
    Block::new(alloc, stmts)
}

/// The change that gives an if or while another condition.
fn guard_change(
    alloc: Global,
    table: &Table,
    entry: &Entry,
    stmt: StmtId,
    cond: &Cond,
    next: u32,
) -> Result<Option<Change>, EditError>
    requires known { entry_of (entries_of table.now.program) stmt ≡ Some entry.now }
    requires fits { fits Conditional entry.now.part ≡ true }
    requires below { All (λ (n : ℕ). n < next) (program_numbers table.now.program) }
    requires numbered { AreNumbered (in_program stmt (guarded cond.now) table.now.program) }
    ensures made { IfOk result (λ change. MatchOption change ⊤
        (IsMade table.now.program (in_program stmt (guarded cond.now) table.now.program)
        next)) }
    ensures refused { IfErr result (IsRefusal (option_map Fault
        (check_fault (in_program stmt (guarded cond.now) table.now.program)))) }
{
    table.procs();
    let Some(head) = table.view().head(entry.context.proc) else {
        return Ok(None);
    };
    let breaks = entry.breaks.clone()?;
    let part = entry.part.with_condition(alloc, cond.clone()?)?;
    let form = form_alone(alloc, head, stmt, &part)?;
    let entries = one_put(alloc, stmt, changed_entry(entry, part, form, breaks))?;
    Ok(Some(Change {
        entries,
        heads: None,
        count: table.view().count(),
        sites: None,
    }))
}

/// One entry at a number.
fn one_put(alloc: Global, number: StmtId, entry: Entry) -> Result<Vec<Put>, Memory>
    ensures is { IfOk result (λ puts. puts.items ≡ record { number = number; entry = Some entry }
        ∷ []) }
{
    let number = number.number();
    let entry = TableSlot::of(alloc, entry)?;
    let mut puts = Vec::new(alloc);
    puts.push(Put { number, entry })?;
    Ok(puts)
}

/// What is known of a statement with another condition: as this one, except the statement itself and for what it does
/// over slots.
fn changed_entry(entry: &Entry, part: Stmt, form: SlotForm, breaks: Items<StmtId>) -> Entry
    requires same { breaks ≡ entry.now.breaks }
    ensures is { result ≡ record entry.now { part = part; form = form } }
{
    Entry {
        number: entry.number,
        part,
        form,
        context: entry.context,
        front: entry.front,
        next: entry.next,
        inner: entry.inner,
        other: entry.other,
        breaks,
    }
}

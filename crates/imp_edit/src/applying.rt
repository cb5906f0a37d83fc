//! Edits of a program.
ghost use Rattle.std.specs.Prelude.{◌≡◌, ℕ, ◌<◌, IfOk, IfErr, None};
ghost use Rattle.std.specs.List.{All};
ghost use Rattle.std.specs.Option.{option_map};
ghost use Rattle.imp_syntax.specs.Plain.{program_numbers};
ghost use Rattle.imp_check.specs.Programs.{AreNumbered, check_fault};
ghost use Rattle.imp_check.specs.Fine.{IsFine};
ghost use Rattle.imp_table.specs.Changes.{AreWithin, Makes};
ghost use Rattle.imp_edit.specs.declared.error.EditError.TheVariants.{Fault};
ghost use Rattle.imp_edit.specs.Edited.{Continues, edited, next_after};
ghost use Rattle.imp_edit.specs.Refusals.{IsRefusal, edit_refusal};

use crate::error::EditError;
use crate::numbers::next_after;
use crate::part_changes::short_change;
use crate::procedures::at_named;
use crate::refusals::site_refusal;
use crate::trees::in_program;
use base_values::Memory;
use imp_check::CheckError;
use imp_syntax::{Edit, Place, Proc, Program};
use imp_table::{Change, Table, check_table};
use std::alloc::Global;

/// What an accepted edit changes.
#[derive(Drop)]
pub struct Edited {
    /// The change of the program.
    pub change: Change,
    /// The number after all those of the new program: that of the next new statement.
    pub next: u32,
}

/// What an edit changes of a program without faults, whose statements have numbers below `next`. The statements of the
/// edit carry the numbers from `next` on, in the order of the text. The table stays as it is: `Table::exchange` puts the
/// change in, once there is room below the next number.
///
/// A refusal that speaks of the program as it is takes time linear in the procedures and in the edit. Another condition
/// takes time in proportion to the condition, times the variables of its procedure, and to the breaks of its statement.
/// Where no call stands in the statements that come or in the one that goes, and each break that comes has a loop, it
/// takes time in proportion to those that come, with those inside them, times the variables of the procedure, and to
/// those that go and, for each of them, to the breaks of the loop around it; where a break comes to a loop that keeps
/// others, to the statements of that loop before it; at the start or the end of a procedure's body, time linear in the
/// procedures too. All else takes time linear in the program and in `next`.
///
/// # Errors
///
/// The first refusal by `edit_refusal`: where the edit goes, then whether the numbers suffice, then the first fault of
/// the new program. [`EditError::Memory`] when memory runs out.
#[tactic(auto, using(crate::proofs::Numbered::numbered_again, crate::proofs::Numbered::below_again, crate::proofs::ApplyLemmas::site_refused, crate::proofs::ApplyLemmas::numbers_refused, crate::proofs::ApplyLemmas::fault_left, crate::proofs::ApplyLemmas::next_is, crate::proofs::ApplyLemmas::no_fault))]
pub fn apply(alloc: Global, table: &Table, edit: &Edit, next: u32) -> Result<Edited, EditError>
    requires positive { 0 < next }
    requires below { All (λ (n : ℕ). n < next) (program_numbers table.now.program) }
    requires continues { Continues edit.now next }
    ensures accepted { IfOk result (λ _. edit_refusal edit.now table.now.program next ≡ None) }
    ensures makes { IfOk result (λ e. Makes table.now.program e.change
        (edited edit.now table.now.program)) }
    ensures fine { IfOk result (λ _. IsFine (edited edit.now table.now.program)) }
    ensures numbers { IfOk result (λ e. e.next ≡ next_after edit.now next) }
    ensures within { IfOk result (λ e. AreWithin e.next e.change.entries.items) }
    ensures still_below { IfOk result (λ e. All (λ (n : ℕ). n < e.next)
        (program_numbers (edited edit.now table.now.program))) }
    ensures refused { IfErr result (IsRefusal (edit_refusal edit.now table.now.program next)) }
{
    if let Some(refusal) = site_refusal(table, edit) {
        return Err(refusal);
    }
    let Some(after) = next_after(edit, next) else {
        return Err(EditError::Numbers);
    };
    table.procs();
    if let Some(change) = short_change(alloc, table, edit, next)? {
        let next = after;
        return Ok(Edited { change, next });
    }
    let program = table.tree(alloc)?;
    let program = program_after(alloc, edit, program.procs())?;
    let made = checked(alloc, &program)?;
    let change = made.into_change(alloc, table, after)?;
    Ok(Edited {
        change,
        next: after,
    })
}

/// The program after an edit.
fn program_after(alloc: Global, edit: &Edit, procs: &[Proc]) -> Result<Program, Memory>
    ensures is { IfOk result (λ p. p ≡ edited edit.now procs.now) }
{
    match edit {
        Edit::Replace(stmt, _) => in_program(alloc, *stmt, edit, procs),
        Edit::Insert(Place::After(stmt), _) => in_program(alloc, *stmt, edit, procs),
        Edit::Insert(Place::ThenStart(stmt), _) => in_program(alloc, *stmt, edit, procs),
        Edit::Insert(Place::ElseStart(stmt), _) => in_program(alloc, *stmt, edit, procs),
        Edit::Insert(Place::BodyStart(stmt), _) => in_program(alloc, *stmt, edit, procs),
        Edit::Insert(Place::ProcStart(name), _) => at_named(alloc, name, edit, procs),
        Edit::Delete(stmt) => in_program(alloc, *stmt, edit, procs),
        Edit::Guard(stmt, _) => in_program(alloc, *stmt, edit, procs),
        Edit::Declare(name, _) => at_named(alloc, name, edit, procs),
        Edit::AddProc { before, proc: _ } => at_named(alloc, before, edit, procs),
        Edit::DropProc(name) => at_named(alloc, name, edit, procs),
    }
}

/// The table of a program, or its first fault.
#[tactic(auto, using(crate::proofs::ApplyLemmas::fault_is))]
fn checked(alloc: Global, program: &Program) -> Result<Table, EditError>
    requires numbered { AreNumbered program.now }
    ensures is { IfOk result (λ table. table.program ≡ program.now) }
    ensures fine { IfOk result (λ _. IsFine program.now) }
    ensures refused { IfErr result (IsRefusal (option_map Fault (check_fault program.now))) }
{
    match check_table(alloc, program) {
        Ok(table) => Ok(table),
        Err(CheckError::Fault(found)) => Err(EditError::Fault(found)),
        Err(CheckError::Memory) => Err(EditError::Memory),
    }
}

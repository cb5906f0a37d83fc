//! Statements by themselves, without those inside them.
ghost use Rattle.std.specs.Prelude.{◌≡◌, [], IfOk, IfErr, None};
ghost use Rattle.std.specs.Option.{option_map};
ghost use Rattle.imp_check.specs.Names.{variables};
ghost use Rattle.imp_check.specs.Programs.{variables_fault};
ghost use Rattle.imp_check.specs.Faults.{at, in_procedure};
ghost use Rattle.imp_check.specs.Entries.{form_in, resolver_at};
ghost use Rattle.imp_check.specs.Single.{FitsAlone, own_fault};
ghost use Rattle.imp_check.specs.Slots.{layout_in};
ghost use Rattle.imp_edit.specs.declared.error.EditError.TheVariants.{Fault as refused_by};
ghost use Rattle.imp_edit.specs.Refusals.{IsRefusal};

use crate::error::EditError;
use base_values::Memory;
use imp_check::{Fault, LocatedFault, ProcHeader, SlotForm, own_fault, own_form};
use imp_syntax::{Proc, Stmt, StmtId};
use std::alloc::Global;

/// What a statement does over slots in the procedure of this head, without those inside it. It takes time in proportion to
/// what it says itself, times the procedure's variables.
///
/// # Errors
///
/// [`EditError::Fault`] with its own fault in that procedure, at this number.
pub(crate) fn form_alone(
    alloc: Global,
    head: &ProcHeader,
    number: StmtId,
    stmt: &Stmt,
) -> Result<SlotForm, EditError>
    requires fine { variables_fault [] (variables head.now.bare) ≡ None }
    requires layout { head.now.layout ≡ layout_in head.now.bare }
    ensures form { IfOk result (λ form. form ≡ form_in (resolver_at [] head.now.bare) stmt.now) }
    ensures fits { IfOk result (λ _. FitsAlone head.now.bare stmt.now) }
    ensures faultless { IfOk result (λ _. own_fault (variables head.now.bare) stmt.now ≡ None) }
    ensures refused { IfErr result (IsRefusal (option_map refused_by (in_procedure
        head.now.bare.name (at number (own_fault (variables head.now.bare) stmt.now))))) }
{
    match own_fault(&head.bare, stmt) {
        Some(fault) => Err(EditError::Fault(found_at(fault, &head.bare, number)?)),
        None => Ok(own_form(alloc, head, stmt)?),
    }
}

/// A fault of the statement of a number in a procedure.
fn found_at(fault: Fault, proc: &Proc, number: StmtId) -> Result<LocatedFault, Memory>
    ensures is { IfOk result (λ found. found ≡ record {
      fault = fault;
      proc = proc.now.name;
      at = number;
    }) }
{
    let proc = proc.name().clone()?;
    Ok(LocatedFault {
        fault,
        proc,
        at: number.number(),
    })
}

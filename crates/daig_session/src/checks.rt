//! The statements of a program that have a check.
ghost use Rattle.std.specs.Prelude.{◌≡◌, ◌++◌, ℕ, [], IfOk, IfSome, IsFalse, IsTrue, OnOk};
ghost use Rattle.std.specs.Option.{option_copied};
ghost use Rattle.imp_syntax.specs.Plain.{program_numbers};
ghost use Rattle.daig_session.specs.Reports.{checked_at, checked_form, checked_stmt, HasCheck, IsChecked};

use base_values::{Items, Memory};
use call_contexts::procedure_count;
use domain_laws::check_of;
use imp_check::SlotForm;
use imp_slots::SlotStmt;
use imp_syntax::{ProcId, StmtId};
use imp_table::View;
use std::alloc::Global;

/// Adds the numbers of some statements.
fn add_statements(stmts: &[StmtId], found: &mut Items<StmtId>) -> Result<(), Memory>
    ensures added { OnOk result (found.new ≡ found.old ++ stmts.now) }
{
    for stmt in stmts {
        found.push(*stmt)?;
    }
    Ok(())
}

/// The statements of a program, in the order of the text. It takes time linear in the program.
#[tactic(auto, using(crate::proofs::CheckLemmas::numbers_end))]
pub(crate) fn all_statements(alloc: Global, view: &View<'_>) -> Result<Items<StmtId>, Memory>
    ensures are { IfOk result (λ ns. ns ≡ program_numbers view.now) }
{
    let mut found = Items::new(alloc);
    for place in 0..procedure_count(view) {
        let stmts = view.statements(alloc, ProcId::new(place))?;
        add_statements(stmts.as_slice(), &mut found)?;
    }
    Ok(found)
}

/// What a statement does, if it has a check.
fn checked_in(form: &SlotForm) -> Option<&SlotStmt>
    ensures is { (n : ℕ) → checked_stmt n (option_copied result) ≡ checked_form n form.now }
    ensures asks { IfSome (option_copied result) IsChecked }
{
    let SlotForm::Stmt(stmt) = form else {
        return None;
    };
    match check_of(stmt) {
        Some(_) => Some(stmt),
        None => None,
    }
}

/// What the statement of a number does, if it has a check. It takes constant time.
pub(crate) fn checked_stmt<'a>(view: &View<'a>, id: StmtId) -> Option<&'a SlotStmt>
    ensures is { checked_stmt id (option_copied result) ≡ checked_at view.now id }
    ensures asks { IfSome (option_copied result) IsChecked }
{
    match view.entry(id) {
        Some(entry) => checked_in(&entry.form),
        None => None,
    }
}

/// Whether the statement of a number has a check. It takes constant time.
pub(crate) fn is_checked(view: &View<'_>, id: StmtId) -> bool
    ensures there { IsTrue result → HasCheck view.now id }
    ensures none { IsFalse result → checked_at view.now id ≡ [] }
{
    checked_stmt(view, id).is_some()
}

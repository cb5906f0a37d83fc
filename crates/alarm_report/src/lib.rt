//! What is found of the check of a statement.
//!
//! [`report`] gives the finding of one statement from what is known before it: dead where no chain
//! comes to its procedure, may where a loop used up its budget on the way, else what the domain says of
//! the state. It takes one check of the domain.
#![tactic(auto)]

ghost use Rattle.std.specs.Prelude.{◌≡◌, IfOk, IsSome, Some};
ghost use Rattle.imp_slots.specs.ActionViews.{act_of};
ghost use Rattle.domain_laws.specs.Checks.{kind_in};
ghost use Rattle.alarm_report.specs.Reporting.{verdict_for};

use base_values::Memory;
use domain_laws::{Check, Domain, Finding, Verdict, check_of};
use imp_slots::SlotStmt;
use imp_syntax::StmtId;
use std::alloc::Global;

/// What is known before a statement, under all chains to its procedure.
pub enum Found<'a, S> {
    /// No chain comes to its procedure.
    Absent,
    /// A loop used up its budget on the way.
    Over,
    /// The states of the chains, joined.
    State(&'a S),
}

/// What the check asks of a statement that has one.
fn check_there(stmt: &SlotStmt) -> Check
    requires checked { IsSome (kind_in (act_of stmt.now)) }
    ensures is { kind_in (act_of stmt.now) ≡ Some result }
{
    match check_of(stmt) {
        Some(check) => check,
        None => Check::Assert,
    }
}

fn verdict_for<D: Domain>(
    alloc: Global,
    dom: &D,
    stmt: &SlotStmt,
    found: Found<'_, D::State>,
) -> Result<Verdict, Memory>
    ensures is { IfOk result (λ v. v ≡ verdict_for (D.operations dom.now)
        (act_of stmt.now) found.entry) }
{
    match found {
        Found::Absent => Ok(Verdict::Dead),
        Found::Over => Ok(Verdict::May),
        Found::State(state) => dom.check(alloc, stmt, state),
    }
}

/// The finding of a statement that has a check, from its number and what is known before it.
/// Its only error is out of memory.
pub fn report<D: Domain>(
    alloc: Global,
    dom: &D,
    id: StmtId,
    stmt: &SlotStmt,
    found: Found<'_, D::State>,
) -> Result<Finding, Memory>
    requires checked { IsSome (kind_in (act_of stmt.now)) }
    ensures id { IfOk result (λ f. f.id ≡ id) }
    ensures check { IfOk result (λ f. kind_in (act_of stmt.now) ≡ Some f.check) }
    ensures verdict { IfOk result (λ f. f.verdict ≡ verdict_for (D.operations dom.now)
        (act_of stmt.now) found.entry) }
{
    let check = check_there(stmt);
    let verdict = verdict_for(alloc, dom, stmt, found)?;
    Ok(Finding { id, check, verdict })
}

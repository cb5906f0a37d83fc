//! Findings from what is known before statements.
ghost use Rattle.std.specs.Prelude.{◌≡◌, ◌++◌, map, Some, option_map, OnOk, IfOk};
ghost use Rattle.std.specs.Option.{option_copied};
ghost use Rattle.batch_meaning.specs.Batch.{LoopOptions};
ghost use Rattle.batch_meaning.specs.Report.{checked_in};
ghost use Rattle.batch_interp.specs.Answered.{value_of};
ghost use Rattle.batch_interp.specs.Reporting.{claim_of, claims};
ghost use Rattle.batch_interp.specs.Totalling.{IsFoundOf, found_from, all_found};

use crate::Answer;
use crate::befores::add_claims;
use crate::claim::Claim;
use alarm_report::{Found, report};
use base_values::{Items, Memory};
use domain_laws::{Domain, Finding};
use imp_slots::{SlotBlock, SlotStmt};
use imp_syntax::StmtId;
use std::alloc::Global;

/// What is known, as a report asks it.
fn found_in<S>(known: &Answer<S>) -> Found<'_, S>
    ensures is { IsFoundOf result (Some (value_of known.now)) }
{
    match known {
        Answer::State(state) => Found::State(state),
        Answer::Over { head: _, chain: _ } => Found::Over,
    }
}

/// What is known, if something is, as a report asks it.
fn found_of<S>(known: Option<&Answer<S>>) -> Found<'_, S>
    ensures is { IsFoundOf result (option_map value_of (option_copied known.entry)) }
{
    match known {
        None => Found::Absent,
        Some(answer) => found_in(answer),
    }
}

/// What is found of a statement, from what is known before it.
fn finding<D: Domain>(
    alloc: Global,
    dom: &D,
    claim: &Claim,
    known: Option<&Answer<D::State>>,
) -> Result<Finding, Memory>
    ensures is { IfOk result (λ f. (e : LoopOptions) → f ≡ found_from (D.operations dom.now) e
        (claim_of claim.now) (option_map value_of (option_copied known.entry))) }
{
    let id = StmtId::new(claim.number);
    let stmt = SlotStmt::Simple(claim.action.clone()?);
    report(alloc, dom, id, &stmt, found_of(known))
}

/// Adds what is found of each statement, from what is known before it, if something is.
fn add_findings<D: Domain>(
    alloc: Global,
    dom: &D,
    claims: &[Claim],
    totals: &Items<Answer<D::State>>,
    found: &mut Items<Finding>,
) -> Result<(), Memory>
    ensures added { OnOk result ((e : LoopOptions) → found.new ≡ found.old
        ++ all_found (D.operations dom.now) e (map claim_of claims.now)
        (map value_of totals.now)) }
{
    for (i, claim) in claims.iter().enumerate() {
        found.push(finding(alloc, dom, claim, totals.get(i))?)?;
    }
    Ok(())
}

/// What is found of the statements of a block that have a check, from what is known before each, if
/// something is.
pub(crate) fn findings_of<D: Domain>(
    alloc: Global,
    dom: &D,
    body: &SlotBlock,
    known: &Items<Answer<D::State>>,
) -> Result<Items<Finding>, Memory>
    ensures are { IfOk result (λ fs. (e : LoopOptions) →
        fs ≡ all_found (D.operations dom.now) e (claims (checked_in body.now))
        (map value_of known.now)) }
{
    let mut claims = Items::new(alloc);
    add_claims(body, &mut claims)?;
    let mut found = Items::new(alloc);
    add_findings(alloc, dom, claims.as_slice(), known, &mut found)?;
    Ok(found)
}

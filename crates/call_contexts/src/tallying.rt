//! In how many statements of a procedure each of its numbers stands.
ghost use Rattle.std.specs.Prelude.{◌≡◌, ◌+◌, ◌-◌, ◌<◌, ◌^◌, ℕ, length, slice_get, IfOk, OnOk, Some};
ghost use Rattle.imp_check.specs.Entries.{entries_of, entry_of};
ghost use Rattle.imp_check.specs.Slots.{routines_of};
ghost use Rattle.imp_check.specs.Walks.{numbers_at};
ghost use Rattle.imp_chains.specs.Chains.{has};
ghost use Rattle.call_contexts.specs.Literals.{literals_in};
ghost use Rattle.call_contexts.specs.Tallies.{one_if, times, Tells, capped, all_tallies};
ghost use Rattle.call_contexts.specs.Differences.{lists_by};

use crate::counts::Counts;
use crate::literals::add_form;
use base_values::{Items, Memory, Number};
use imp_chains::Widening;
use imp_syntax::{ProcId, StmtId};
use imp_table::View;
use std::alloc::Global;

/// Counts a statement, if it is there. `numbers` lends room for its numbers; what it held is lost.
fn count_statement(
    alloc: Global,
    prog: &View<'_>,
    stmt: StmtId,
    numbers: &mut Vec<Number>,
    counts: &mut Counts,
) -> Result<(), Memory>
    ensures more { OnOk result ((f : ℕ → ℕ) → Tells counts.old (λ n. capped (f n)) →
        Tells counts.new (λ n. capped (f n + one_if (has n
        (literals_in (entry_of (entries_of prog.now) stmt)))))) }
{
    if let Some(entry) = prog.entry(stmt) {
        numbers.clear();
        add_form(&entry.form, numbers)?;
        counts.add(alloc, numbers.as_slice())?;
    }
    Ok(())
}

/// Counts these statements.
fn count_statements(
    alloc: Global,
    prog: &View<'_>,
    stmts: &[StmtId],
    counts: &mut Counts,
) -> Result<(), Memory>
    ensures more { OnOk result ((f : ℕ → ℕ) → Tells counts.old (λ n. capped (f n)) →
        Tells counts.new (λ n. capped (f n + times n
        (lists_by (entry_of (entries_of prog.now)) stmts.now)))) }
{
    let mut numbers = Vec::new(alloc);
    for stmt in stmts {
        count_statement(alloc, prog, *stmt, &mut numbers, counts)?;
    }
    Ok(())
}

/// The counts of a procedure of these statements; none where there are no thresholds. It takes time linear in the statements,
/// times the logarithm of their numbers.
#[tactic(auto, using(crate::proofs::Parted::no_tally))]
pub(crate) fn tally(
    alloc: Global,
    widening: Widening,
    prog: &View<'_>,
    proc: ProcId,
    stmts: &[StmtId],
) -> Result<Counts, Memory>
    requires there { proc < length prog.now }
    requires stmts { stmts.now ≡ numbers_at prog.now proc }
    ensures is { IfOk result (λ counts. slice_get (all_tallies widening (routines_of prog.now))
        proc ≡ Some counts) }
{
    prog.procs();
    let mut counts = Counts::new(alloc);
    if !widening.thresholds {
        return Ok(counts);
    }
    count_statements(alloc, prog, stmts, &mut counts)?;
    Ok(counts)
}

/// One statement more for each of these.
fn add_all(alloc: Global, counts: &mut Counts, lists: &[Items<Number>]) -> Result<(), Memory>
    ensures more { OnOk result ((f : ℕ → ℕ) → Tells counts.old (λ n. capped (f n)) →
        Tells counts.new (λ n. capped (f n + times n lists.now))) }
{
    for numbers in lists {
        counts.add(alloc, numbers.as_slice())?;
    }
    Ok(())
}

/// One statement less for each of these.
fn take_all(alloc: Global, counts: &mut Counts, lists: &[Items<Number>]) -> Result<(), Memory>
    ensures less { OnOk result ((f : ℕ → ℕ) → Tells counts.old f →
        Tells counts.new (λ n. f n - times n lists.now)) }
{
    for numbers in lists {
        counts.take(alloc, numbers.as_slice())?;
    }
    Ok(())
}

/// The counts without these statements, and then with those.
pub(crate) fn changed(
    alloc: Global,
    counts: &Counts,
    lost: &[Items<Number>],
    gained: &[Items<Number>],
) -> Result<Counts, Memory>
    ensures told { IfOk result (λ after. (f : ℕ → ℕ) → Tells counts.now f →
        ((n : ℕ) → f n < 2 ^ 32) → Tells after (λ n.
        capped ((f n - times n lost.now) + times n gained.now))) }
{
    let mut after = counts.copy()?;
    take_all(alloc, &mut after, lost)?;
    add_all(alloc, &mut after, gained)?;
    Ok(after)
}

//! The statements that a change of a program touches.
ghost use Rattle.std.specs.Prelude.{◌≡◌, ℕ, List, ◌<◌, ◌≤◌, ◌⊎◌, length, ◌==◌, ◌||◌, ◌&&◌, not, IfOk, OnOk, Some, reverse};
ghost use Rattle.std.specs.Bool.{OnTrue};
ghost use Rattle.std.specs.BTreeSet.{contains};
ghost use Rattle.std.specs.Ordering.{nat_cmp};
ghost use Rattle.base_values.specs.Equal.{same};
ghost use Rattle.imp_syntax.specs.Plain.{Procedure};
ghost use Rattle.imp_slots.specs.Fits.{IsChecked};
ghost use Rattle.imp_slots.specs.PartCodes.{layout_code};
ghost use Rattle.imp_check.specs.Slots.{routines_of};
ghost use Rattle.imp_check.specs.Fine.{IsFine};
ghost use Rattle.imp_table.specs.Changes.{AreFalling, Makes};
ghost use Rattle.batch_meaning.specs.Places.{main_layout};
ghost use Rattle.call_contexts.specs.Settings.{setting_of};
ghost use Rattle.imp_flow.specs.Plans.{plan_of};
ghost use Rattle.imp_flow.specs.Changed.{AreChanged};
ghost use Rattle.imp_flow.specs.Searches.{left_by, EndsAlike, IsSearch, GoesOn, IsLooked, AllLooked, ArePutsLooked, AreCallersLooked, AreLoopsLooked};

use crate::changed::{ProcPair, pair_at, pair_of, stays};
use crate::flow::{Flow, main_layout};
use base_values::Memory;
use call_contexts::{Setting, procedure_count};
use imp_check::{SlotForm, TableSlot};
use imp_slots::SlotStmt;
use imp_syntax::{ProcId, StmtId};
use imp_table::{Change, Put, Table, View};
use std::alloc::Global;
use std::collections::BTreeSet;

/// The touched statements that are found so far, with the procedures whose thresholds were compared last.
#[derive(Drop)]
struct Search {
    pair: ProcPair,
    changed: BTreeSet<u32>,
}

/// Whether the start of main keeps its row: main, the last procedure, has the same variables.
fn same_start(old: &View<'_>, new: &View<'_>) -> bool
    ensures is { result ≡ same layout_code (main_layout (reverse (routines_of old.now)))
        (main_layout (reverse (routines_of new.now))) }
{
    main_layout(old) == main_layout(new)
}

/// Adds a number, unless what it stands for is kept.
fn add_changed(changed: &mut BTreeSet<u32>, number: u32, is_kept: bool) -> Result<(), Memory>
    ensures added { OnOk result ((n : ℕ) → contains nat_cmp changed.new n ≡
        (contains nat_cmp changed.old n || (not is_kept && (n == number)))) }
{
    if !is_kept {
        changed.insert(number)?;
    }
    Ok(())
}

/// A search that has looked at the start of main.
fn begin(alloc: Global, old: &Flow<'_>, new: &Flow<'_>) -> Result<Search, Memory>
    requires one { old.now.engine ≡ new.now.engine }
    ensures is { IfOk result (IsSearch old.now new.now) }
{
    old.program().procs();
    new.program().procs();
    let pair = pair_of(old, new, ProcId::new(0), ProcId::new(0));
    let mut changed = BTreeSet::new(alloc);
    add_changed(&mut changed, 0, same_start(old.program(), new.program()))?;
    Ok(Search { pair, changed })
}

/// Looks at a statement.
fn look(old: &Flow<'_>, new: &Flow<'_>, stmt: StmtId, search: &mut Search) -> Result<(), Memory>
    requires is { IsSearch old.now new.now search.old }
    ensures on { OnOk result (GoesOn old.now new.now search.old search.new) }
    ensures looked { OnOk result (IsLooked old.now new.now search.new stmt) }
{
    let mut pair = pair_at(old, new, search.pair, stmt);
    let is_kept = stays(old, new, pair, stmt);
    std::mem::swap(&mut search.pair, &mut pair);
    add_changed(&mut search.changed, stmt.number(), is_kept)?;
    Ok(())
}

/// Looks at these statements.
fn look_at_all(
    old: &Flow<'_>,
    new: &Flow<'_>,
    stmts: &[StmtId],
    search: &mut Search,
) -> Result<(), Memory>
    requires is { IsSearch old.now new.now search.old }
    ensures on { OnOk result (GoesOn old.now new.now search.old search.new) }
    ensures looked { OnOk result (AllLooked old.now new.now search.new stmts.now) }
{
    for stmt in stmts {
        look(old, new, *stmt, search)?;
    }
    Ok(())
}

/// The loop that a statement leaves, if it is a break.
fn left_by(place: &TableSlot) -> Option<StmtId>
    ensures is { result ≡ left_by place.now }
{
    match place.entry() {
        None => None,
        Some(entry) => match &entry.form {
            SlotForm::Stmt(SlotStmt::Break) => entry.context.head,
            _ => None,
        },
    }
}

/// Looks at a statement that comes or goes, and at the loop that it leaves.
fn look_at_put(old: &Flow<'_>, new: &Flow<'_>, put: &Put, search: &mut Search) -> Result<(), Memory>
    requires is { IsSearch old.now new.now search.old }
    ensures on { OnOk result (GoesOn old.now new.now search.old search.new) }
    ensures looked { OnOk result (IsLooked old.now new.now search.new put.now.number) }
    ensures left { OnOk result ((n : ℕ) → left_by put.now.entry ≡ Some n →
        IsLooked old.now new.now search.new n) }
{
    look(old, new, StmtId::new(put.number), search)?;
    match left_by(&put.entry) {
        None => Ok(()),
        Some(stmt) => {
            look(old, new, stmt, search)?;
            Ok(())
        }
    }
}

/// Looks at the statements that come or go.
fn look_at_puts(
    old: &Flow<'_>,
    new: &Flow<'_>,
    puts: &[Put],
    search: &mut Search,
) -> Result<(), Memory>
    requires is { IsSearch old.now new.now search.old }
    ensures on { OnOk result (GoesOn old.now new.now search.old search.new) }
    ensures looked { OnOk result (ArePutsLooked old.now new.now search.new puts.now) }
{
    for put in puts {
        look_at_put(old, new, put, search)?;
    }
    Ok(())
}

fn is_same(stmt: Option<StmtId>, other: Option<StmtId>) -> bool
    ensures same { OnTrue result (stmt ≡ other) }
{
    stmt == other
}

/// Whether a procedure ends with the same statement.
#[tactic(auto, using(crate::proofs::ChangedRest::ends))]
fn end_alike(before: &View<'_>, after: &View<'_>, proc: ProcId) -> bool
    ensures alike { OnTrue result (EndsAlike before.now after.now proc) }
{
    match (before.body(proc), after.body(proc)) {
        (Some(old), Some(new)) => is_same(old.last, new.last),
        _ => false,
    }
}

/// Looks at the calls of a procedure, where it ends with another statement.
fn look_at_callers_of(
    old: &Flow<'_>,
    new: &Flow<'_>,
    before: &View<'_>,
    after: &View<'_>,
    proc: ProcId,
    search: &mut Search,
) -> Result<(), Memory>
    requires is { IsSearch old.now new.now search.old }
    requires there { proc < length after.now }
    ensures on { OnOk result (GoesOn old.now new.now search.old search.new) }
    ensures looked { OnOk result (AreCallersLooked old.now new.now search.new before.now after.now
        proc) }
{
    if end_alike(before, after, proc) {
        return Ok(());
    }
    look_at_all(old, new, after.sites(proc), search)?;
    Ok(())
}

/// Looks at the calls of procedures that end with another statement.
fn look_at_callers(
    old: &Flow<'_>,
    new: &Flow<'_>,
    before: &View<'_>,
    after: &View<'_>,
    search: &mut Search,
) -> Result<(), Memory>
    requires is { IsSearch old.now new.now search.old }
    ensures on { OnOk result (GoesOn old.now new.now search.old search.new) }
    ensures looked { OnOk result ((k : ℕ) → k < length after.now →
        AreCallersLooked old.now new.now search.new before.now after.now k) }
{
    for place in 0..procedure_count(after) {
        look_at_callers_of(old, new, before, after, ProcId::new(place), search)?;
    }
    Ok(())
}

/// Looks at the loops of a procedure, where it has other thresholds.
fn look_at_loops_of(
    old: &Flow<'_>,
    new: &Flow<'_>,
    proc: ProcId,
    search: &mut Search,
) -> Result<(), Memory>
    requires is { IsSearch old.now new.now search.old }
    ensures on { OnOk result (GoesOn old.now new.now search.old search.new) }
    ensures looked { OnOk result (AreLoopsLooked old.now new.now search.new proc) }
{
    if old.thresholds(proc) == new.thresholds(proc) {
        return Ok(());
    }
    look_at_all(old, new, new.loops(proc), search)?;
    Ok(())
}

/// Looks at the loops of procedures that have other thresholds, where loops are widened.
fn look_at_loops(
    old: &Flow<'_>,
    new: &Flow<'_>,
    after: &View<'_>,
    search: &mut Search,
) -> Result<(), Memory>
    requires is { IsSearch old.now new.now search.old }
    ensures on { OnOk result (GoesOn old.now new.now search.old search.new) }
    ensures looked { OnOk result (old.now.engine.widening.delay < old.now.engine.budget → (k : ℕ) →
        k < length after.now → AreLoopsLooked old.now new.now search.new k) }
{
    if old.budget() <= old.widening().delay {
        return Ok(());
    }
    for place in 0..procedure_count(after) {
        look_at_loops_of(old, new, ProcId::new(place), search)?;
    }
    Ok(())
}

/// The statements that a change of a program touches, where these are the settings of the program and of that which the
/// change makes: the numbers of those that have a changed point, each once and rising, with 0 before where the start of
/// main is changed. A point is changed where it has a row in the old program, and the new one has none for it or another. A
/// statement is told by its number, so one that is gone is touched, and one that is new is not.
///
/// It looks at the statements that come or go, at the loops that breaks among them leave, at the calls of procedures that
/// end with another statement, and, where loops are widened, at the loops of procedures that have other thresholds. Each look
/// takes time linear in what the statement uses, as conditions and breaks, times the logarithms of the change and of how
/// many statements are touched. Beside these looks it takes time linear in the procedures and their thresholds.
///
/// # Errors
///
/// [`Memory`] alone.
pub fn points_changed(
    alloc: Global,
    table: &Table,
    change: &Change,
    before: &Setting,
    after: &Setting,
) -> Result<Vec<u32>, Memory>
    ghost program: { List Procedure }
    requires makes { Makes table.now.program change.now program }
    requires fine { IsFine program }
    requires falling { AreFalling change.now.entries.items }
    requires before { before.now ≡ setting_of before.now.engine (routines_of table.now.program) }
    requires after { after.now ≡ setting_of before.now.engine (routines_of program) }
    ensures are { IfOk result (λ ns. AreChanged (plan_of
        (routines_of table.now.program) before.now.engine)
        (plan_of (routines_of program) before.now.engine) ns.items) }
{
    table.procs();
    let old = Flow::new(table.view(), before);
    let new = Flow::new(table.changed(change), after);
    let mut search = begin(alloc, &old, &new)?;
    look_at_puts(&old, &new, change.entries.as_slice(), &mut search)?;
    let now = table.changed(change);
    look_at_callers(&old, &new, &table.view(), &now, &mut search)?;
    look_at_loops(&old, &new, &now, &mut search)?;
    Ok(search.changed.into_iter().collect(alloc)?)
}

//! The loops of a procedure.
ghost use Rattle.std.specs.Prelude.{◌≡◌, ◌||◌, ◌&&◌, ◌==◌, ◌<◌, ℕ, true, not, if◌then◌else◌, length, slice_get, IfOk, IfErr, OnOk, Some};
ghost use Rattle.std.specs.Bool.{OnTrue};
ghost use Rattle.std.specs.BTreeSet.{contains};
ghost use Rattle.std.specs.List.Sorted.{IsStrictlySortedBy};
ghost use Rattle.std.specs.Option.{option_copied};
ghost use Rattle.std.specs.Ordering.{nat_cmp};
ghost use Rattle.imp_check.specs.Entries.{entries_of, entry_of};
ghost use Rattle.imp_check.specs.Slots.{routines_of};
ghost use Rattle.imp_check.specs.Walks.{numbers_at};
ghost use Rattle.imp_chains.specs.Chains.{has};
ghost use Rattle.call_contexts.specs.Loops.{all_loops, loop_in, put_numbers, IsGap};
ghost use Rattle.call_contexts.specs.Touches.{Brings};

use crate::places::is_loop;
use base_values::{Items, Memory};
use imp_check::Entry;
use imp_syntax::{ProcId, StmtId};
use imp_table::{Put, View};
use std::alloc::{AllocError, Global};
use std::collections::BTreeSet;
use std::marker::Model;
use std::rc::Rc;

/// The loops of a procedure, their numbers rising. Copies share them.
#[derive(Drop)]
pub(crate) struct Loops {
    stmts: Rc<Items<StmtId>>,
}

impl Model for Loops {
    ghost use Rattle.std.specs.Prelude.{ℕ, List};
    ghost use Rattle.std.specs.Coded.{coded_list, coded_ℕ};

    ghost Value = { List ℕ };

    ghost coded = { coded_list coded_ℕ };

    ghost view = { λ a. a.stmts.value };
}

impl Clone for Loops {
    ghost is_clone = { λ m copy. copy ≡ m };

    fn clone(&self) -> Result<Loops, AllocError> {
        let stmts = self.stmts.clone()?;
        Ok(Loops { stmts })
    }
}

/// Whether a statement is a loop of a procedure.
fn is_loop_of(stmt: Option<&Entry>, proc: ProcId) -> bool
    ensures is { result ≡ loop_in proc (option_copied stmt.entry) }
{
    match stmt {
        Some(entry) => entry.context.proc == proc && is_loop(&entry.part),
        None => false,
    }
}

/// Adds a number, if it is that of a loop.
fn add_number(found: &mut BTreeSet<u32>, number: u32, is_loop: bool) -> Result<(), Memory>
    ensures added { OnOk result ((n : ℕ) → contains nat_cmp found.new n ≡
        (contains nat_cmp found.old n || (is_loop && (n == number)))) }
{
    if is_loop {
        found.insert(number)?;
    }
    Ok(())
}

/// Adds a statement, if it is a loop of the procedure.
fn add_loop(
    prog: &View<'_>,
    proc: ProcId,
    stmt: StmtId,
    found: &mut BTreeSet<u32>,
) -> Result<(), Memory>
    ensures added { OnOk result ((n : ℕ) → contains nat_cmp found.new n ≡
        (contains nat_cmp found.old n || (loop_in proc (entry_of (entries_of prog.now) stmt) &&
        (n == stmt)))) }
{
    let is_loop = is_loop_of(prog.entry(stmt), proc);
    add_number(found, stmt.number(), is_loop)
}

/// Adds those of these statements that are loops of the procedure.
fn add_loops(
    prog: &View<'_>,
    proc: ProcId,
    stmts: &[StmtId],
    found: &mut BTreeSet<u32>,
) -> Result<(), Memory>
    ensures added { OnOk result ((n : ℕ) → contains nat_cmp found.new n ≡
        (contains nat_cmp found.old n || (has n stmts.now && loop_in proc
        (entry_of (entries_of prog.now) n)))) }
{
    for stmt in stmts {
        add_loop(prog, proc, *stmt, found)?;
    }
    Ok(())
}

/// Where a statement stands among statements whose numbers rise, or where it belongs. It takes time logarithmic in how many
/// these are.
fn place_among(stmts: &[StmtId], stmt: StmtId) -> Result<usize, usize>
    requires rising { IsStrictlySortedBy nat_cmp stmts.now }
    ensures found { IfOk result (λ place. slice_get stmts.now place ≡ Some stmt) }
    ensures gap { IfErr result (IsGap stmts.now stmt) }
{
    stmts.binary_search_by_key(&stmt.number(), |other| other.number())
}

/// Puts a statement among statements whose numbers rise, unless it is there. Those after it move by one.
fn bring(stmts: &mut Vec<StmtId>, stmt: StmtId) -> Result<(), Memory>
    requires rising { IsStrictlySortedBy nat_cmp stmts.old.items }
    ensures rising { OnOk result (IsStrictlySortedBy nat_cmp stmts.new.items) }
    ensures brought { OnOk result ((n : ℕ) → has n stmts.new.items ≡
        ((n == stmt) || has n stmts.old.items)) }
{
    if let Err(place) = place_among(stmts.as_slice(), stmt) {
        stmts.insert(place, stmt)?;
    }
    Ok(())
}

/// Takes a statement from statements whose numbers rise, if it is there. Those after it move by one.
fn take(stmts: &mut Vec<StmtId>, stmt: StmtId)
    requires rising { IsStrictlySortedBy nat_cmp stmts.old.items }
    ensures rising { IsStrictlySortedBy nat_cmp stmts.new.items }
    ensures taken { (n : ℕ) → has n stmts.new.items ≡ (has n stmts.old.items && not (n == stmt)) }
{
    if let Ok(place) = place_among(stmts.as_slice(), stmt) {
        stmts.remove(place);
    }
}

/// Sets whether a statement is among statements whose numbers rise.
fn set_loop(stmts: &mut Vec<StmtId>, stmt: StmtId, is_loop: bool) -> Result<(), Memory>
    requires rising { IsStrictlySortedBy nat_cmp stmts.old.items }
    ensures rising { OnOk result (IsStrictlySortedBy nat_cmp stmts.new.items) }
    ensures set { OnOk result ((n : ℕ) → has n stmts.new.items ≡
        (if n == stmt then is_loop else has n stmts.old.items)) }
{
    if is_loop {
        bring(stmts, stmt)
    } else {
        take(stmts, stmt);
        Ok(())
    }
}

/// Makes the loops of the procedure before a change those after it: of the statements of the change those that are loops
/// then, and all others as before.
fn set_loops(
    prog: &View<'_>,
    proc: ProcId,
    puts: &[Put],
    stmts: &mut Vec<StmtId>,
) -> Result<(), Memory>
    requires rising { IsStrictlySortedBy nat_cmp stmts.old.items }
    ensures rising { OnOk result (IsStrictlySortedBy nat_cmp stmts.new.items) }
    ensures set { OnOk result ((n : ℕ) → has n stmts.new.items ≡
        (if has n (put_numbers puts.now) then loop_in proc (entry_of (entries_of prog.now) n)
        else has n stmts.old.items)) }
{
    for put in puts {
        let stmt = StmtId::new(put.number);
        let is_loop = is_loop_of(prog.entry(stmt), proc);
        set_loop(stmts, stmt, is_loop)?;
    }
    Ok(())
}

/// Whether a statement is a loop of a procedure in both programs or in none.
fn is_alike(old: &View<'_>, new: &View<'_>, stmt: StmtId, proc: ProcId) -> bool
    ensures alike { OnTrue result (loop_in proc (entry_of (entries_of old.now) stmt) ≡
        loop_in proc (entry_of (entries_of new.now) stmt)) }
{
    is_loop_of(old.entry(stmt), proc) == is_loop_of(new.entry(stmt), proc)
}

/// Whether a change neither takes loops from a procedure nor brings some to it.
fn keeps_loops(old: &View<'_>, new: &View<'_>, puts: &[Put], proc: ProcId) -> bool
    ensures kept { OnTrue result ((n : ℕ) → has n (put_numbers puts.now) ≡ true →
        loop_in proc (entry_of (entries_of old.now) n) ≡
        loop_in proc (entry_of (entries_of new.now) n)) }
{
    for put in puts {
        if !is_alike(old, new, StmtId::new(put.number), proc) {
            return false;
        }
    }
    true
}

/// The statements of these numbers.
fn stmts_of(alloc: Global, numbers: &[u32]) -> Result<Items<StmtId>, Memory>
    ensures are { IfOk result (λ stmts. stmts ≡ numbers.now) }
{
    let mut stmts = Items::with_capacity(alloc, numbers.len())?;
    for number in numbers {
        stmts.push(StmtId::new(*number))?;
    }
    Ok(stmts)
}

impl Loops {
    /// Loops of these numbers.
    fn of(alloc: Global, found: BTreeSet<u32>) -> Result<Loops, Memory>
        ensures are { IfOk result (λ loops. (n : ℕ) → has n loops ≡ contains nat_cmp found n) }
        ensures rising { IfOk result (λ loops. IsStrictlySortedBy nat_cmp loops) }
    {
        let numbers: Vec<u32> = found.into_iter().collect(alloc)?;
        let stmts = Rc::new(alloc, stmts_of(alloc, numbers.as_slice())?)?;
        Ok(Loops { stmts })
    }

    /// The loops of a procedure, found among its statements, which are these. It takes time linear in the statements, and in
    /// the loops times their logarithm.
    pub(crate) fn new(
        alloc: Global,
        prog: &View<'_>,
        proc: ProcId,
        stmts: &[StmtId],
    ) -> Result<Loops, Memory>
        requires there { proc < length prog.now }
        requires stmts { stmts.now ≡ numbers_at prog.now proc }
        ensures are { IfOk result (λ loops. slice_get (all_loops (routines_of prog.now)) proc ≡
            Some loops) }
    {
        prog.procs();
        let mut found = BTreeSet::new(alloc);
        add_loops(prog, proc, stmts, &mut found)?;
        let loops = Loops::of(alloc, found)?;
        Ok(loops)
    }

    /// The loops, their numbers rising.
    pub(crate) fn as_slice(&self) -> &[StmtId]
        ensures is { result.now ≡ self.now }
    {
        self.stmts.as_slice()
    }

    /// The loops of the procedure after a change, where these are those before it. They are shared unless the change takes
    /// loops or brings some. It takes time linear in the change. Where it does not share them, it also copies them once, and
    /// looks for each statement of the change among them by halves; each that comes or goes moves those after it.
    pub(crate) fn after(
        &self,
        alloc: Global,
        old: &View<'_>,
        new: &View<'_>,
        puts: &[Put],
        proc: ProcId,
    ) -> Result<Loops, Memory>
        requires brings { Brings old.now new.now puts.now }
        requires before { slice_get (all_loops (routines_of old.now)) proc ≡ Some self.now }
        requires there { proc < length new.now }
        ensures are { IfOk result (λ loops. slice_get (all_loops (routines_of new.now)) proc ≡
            Some loops) }
    {
        if keeps_loops(old, new, puts, proc) {
            return Ok(self.clone()?);
        }
        let mut stmts = Vec::from_slice(alloc, self.as_slice())?;
        set_loops(new, proc, puts, &mut stmts)?;
        let stmts = Rc::new(alloc, Items::from_vec(stmts))?;
        Ok(Loops { stmts })
    }
}

//! What a change takes from a procedure and brings to it.
ghost use Rattle.std.specs.Prelude.{◌≡◌, [], IfOk, OnOk};
ghost use Rattle.std.specs.Bool.{OnTrue};
ghost use Rattle.std.specs.Option.{option_copied};
ghost use Rattle.imp_check.specs.Entries.{entries_of, entry_of};
ghost use Rattle.call_contexts.specs.Differences.{numbers_in, lost, gained, AreDifferent, AreMore};

use crate::literals::numbers_of;
use base_values::{Items, Memory, Number};
use imp_check::Entry;
use imp_syntax::{ProcId, StmtId};
use imp_table::{Put, View};
use std::alloc::Global;

/// The numbers of each statement of a procedure that a change takes away, and of each that it brings, except those at a
/// statement's number where it brings the same ones as it takes away.
#[derive(Drop)]
pub(crate) struct Differences {
    lost: Items<Items<Number>>,
    gained: Items<Items<Number>>,
}

/// The numbers of a statement; none if it is not one of the procedure.
fn numbers_in(alloc: Global, stmt: Option<&Entry>, proc: ProcId) -> Result<Items<Number>, Memory>
    ensures are { IfOk result (λ numbers. numbers ≡ numbers_in proc (option_copied stmt.entry)) }
{
    if let Some(entry) = stmt {
        if entry.context.proc == proc {
            return numbers_of(alloc, &entry.form);
        }
    }
    Ok(Items::new(alloc))
}

/// Whether these are the same numbers, in the same order.
fn are_same(numbers: &[Number], others: &[Number]) -> bool
    ensures same { OnTrue result (numbers.now ≡ others.now) }
{
    if numbers.len() != others.len() {
        return false;
    }
    for i in 0..numbers.len() {
        if numbers[i].value() != others[i].value() {
            return false;
        }
    }
    true
}

/// Whether these are the same numbers, list by list.
fn are_alike(lists: &[Items<Number>], others: &[Items<Number>]) -> bool
    ensures same { OnTrue result (lists.now ≡ others.now) }
{
    if lists.len() != others.len() {
        return false;
    }
    for i in 0..lists.len() {
        if !are_same(lists[i].as_slice(), others[i].as_slice()) {
            return false;
        }
    }
    true
}

impl Differences {
    /// Nothing goes or comes.
    fn none(alloc: Global) -> Differences
        ensures lost { result.lost ≡ [] }
        ensures gained { result.gained ≡ [] }
    {
        Differences {
            lost: Items::new(alloc),
            gained: Items::new(alloc),
        }
    }

    /// One statement goes, and one comes in its place.
    fn add(&mut self, goes: Items<Number>, comes: Items<Number>) -> Result<(), Memory>
        ensures more { OnOk result (AreMore self.old.lost self.old.gained goes comes self.new.lost
            self.new.gained) }
    {
        if are_same(goes.as_slice(), comes.as_slice()) {
            return Ok(());
        }
        self.lost.push(goes)?;
        self.gained.push(comes)?;
        Ok(())
    }

    /// Adds what a change does at one number.
    fn add_put(
        &mut self,
        alloc: Global,
        old: &View<'_>,
        put: &Put,
        proc: ProcId,
    ) -> Result<(), Memory>
        ensures more { OnOk result (AreMore self.old.lost self.old.gained
            (numbers_in proc (entry_of (entries_of old.now) put.now.number))
            (numbers_in proc put.now.entry) self.new.lost self.new.gained) }
    {
        let goes = numbers_in(alloc, old.entry(StmtId::new(put.number)), proc)?;
        let comes = numbers_in(alloc, put.entry.entry(), proc)?;
        self.add(goes, comes)?;
        Ok(())
    }

    /// Those of a change in a procedure. It takes time linear in the change.
    pub(crate) fn new(
        alloc: Global,
        old: &View<'_>,
        puts: &[Put],
        proc: ProcId,
    ) -> Result<Differences, Memory>
        ensures are { IfOk result (λ d. AreDifferent (lost proc
            (entry_of (entries_of old.now)) puts.now) (gained proc puts.now) d.lost d.gained) }
    {
        let mut found = Differences::none(alloc);
        for put in puts {
            found.add_put(alloc, old, put, proc)?;
        }
        Ok(found)
    }

    /// Whether the same numbers come as go.
    pub(crate) fn are_none(&self) -> bool
        ensures none { OnTrue result (self.now.lost ≡ self.now.gained) }
    {
        are_alike(self.lost.as_slice(), self.gained.as_slice())
    }

    /// The numbers of the statements that go.
    pub(crate) fn lost(&self) -> &[Items<Number>]
        ensures are { result.now ≡ self.now.lost }
    {
        self.lost.as_slice()
    }

    /// The numbers of the statements that come.
    pub(crate) fn gained(&self) -> &[Items<Number>]
        ensures are { result.now ≡ self.now.gained }
    {
        self.gained.as_slice()
    }
}

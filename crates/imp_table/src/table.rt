//! Programs as tables of their statements.
ghost use Rattle.std.specs.Prelude.{◌≡◌, ℕ, ◌<◌, ◌≤◌, [], List, length, false, IfOk, OnOk, None};
ghost use Rattle.std.specs.List.{All};
ghost use Rattle.std.specs.Option.{option_copied};
ghost use Rattle.imp_syntax.specs.Plain.{Procedure, program_numbers};
ghost use Rattle.imp_slots.specs.Fits.{IsChecked};
ghost use Rattle.imp_check.specs.Names.{named_in};
ghost use Rattle.imp_check.specs.Programs.{AreNumbered, check_fault};
ghost use Rattle.imp_check.specs.Slots.{routines_of};
ghost use Rattle.imp_check.specs.Entries.{entries_of, entry_of, heads_of, sites_in};
ghost use Rattle.imp_check.specs.Fine.{IsFine};
ghost use Rattle.imp_table.specs.Changes.{AreFalling, AreWithin, Makes, overlay};
ghost use Rattle.imp_table.specs.Pages.{entry_at, HasPlace, HavePlaces, IsNeeded};
ghost use Rattle.imp_table.specs.declared.change.Put.{Put};

use crate::change::{Change, Put, exchange_list, list_or};
use crate::needed::NeededPages;
use crate::page::Page;
use crate::pages::{drop_pages, entry_at, make_places, pages_of, take_at};
use crate::places::put_all;
use crate::rebuilt::procedures_from;
use crate::view::View;
use base_values::{Items, Memory, Text};
use imp_check::{Entry, ProcHeader, TableParts, TableSlot, routines_of, table_parts};
use imp_slots::Routine;
use imp_syntax::{ProcId, Program, StmtId};
use std::alloc::Global;
use std::marker::Model;

/// A program without faults as the table of its statements by number, seen as its procedures and as the numbers for which
/// the table has places.
#[derive(Drop)]
pub struct Table {
    heads: Items<ProcHeader>,
    pages: Vec<Page>,
    /// With more pages than this the table is crowded. It is a hint: no answer rests on it.
    due: usize,
    count: u32,
    sites: Items<Items<StmtId>>,
}

impl Model for Table {
    ghost use Rattle.imp_check.specs.Tables.{AreOf};
    ghost use Rattle.imp_table.specs.Pages.{entry_at, lengths};
    ghost use Rattle.imp_table.specs.Tabled.{Tabled, tabled_code};
    ghost use Rattle.imp_check.specs.Rebuilt.{program_by};

    ghost Value = { Tabled };

    ghost coded = { tabled_code };

    ghost view = { λ a. record {
      program = program_by (entry_at a.pages.items) a.count a.heads;
      places = lengths a.pages.items;
    } };

    ghost invariant = { λ a. AreOf (program_by (entry_at a.pages.items) a.count a.heads)
        (entry_at a.pages.items) a.count a.heads a.sites };
}

impl Table {
    /// The table of a program without faults.
    #[tactic(auto, using(imp_check::proofs::TableLemmas::table_is))]
    pub(crate) fn of(alloc: Global, program: &Program) -> Result<Table, Memory>
        requires fine { IsFine program.now }
        ensures is { IfOk result (λ table. table.program ≡ program.now) }
    {
        let TableParts {
            heads,
            places,
            count,
            sites,
        } = table_parts(alloc, program.procs())?;
        let pages = pages_of(alloc, places)?;
        let due = due_after(pages.len(), pages.len());
        Ok(Table {
            heads,
            pages,
            due,
            count,
            sites,
        })
    }

    /// The statement of a number, with where it stands and with its slots, or `None` where the program has no such
    /// statement. It takes constant time.
    #[inline]
    pub fn entry(&self, id: StmtId) -> Option<&Entry>
        ensures is { option_copied result ≡ entry_of (entries_of self.now.program) id }
    {
        entry_at(self.pages.as_slice(), id.number() as usize)
    }

    /// The procedures without their statements, in the order of the text. They have no fault, their numbers stand once,
    /// and over slots they fit.
    pub fn procs(&self) -> &[ProcHeader]
        ensures are { result.now ≡ heads_of self.now.program }
        ensures faultless { check_fault self.now.program ≡ None }
        ensures numbered { AreNumbered self.now.program }
        ensures fit { IsChecked (routines_of self.now.program) }
    {
        self.heads.as_slice()
    }

    /// The program as it is read. It takes constant time.
    #[inline]
    pub fn view(&self) -> View<'_>
        ensures is { result ≡ self.now.program }
    {
        let heads = self.heads.as_slice();
        View::new(self, &[], heads, self.count, self.sites.as_slice())
    }

    /// The program that a change makes, as it is read. It takes constant time, and leaves the table.
    pub fn changed<'a>(&'a self, change: &'a Change) -> View<'a>
        ghost program: { List Procedure }
        requires makes { Makes self.now.program change.now program }
        requires fine { IsFine program }
        requires falling { AreFalling change.now.entries.items }
        ensures is { result ≡ program }
    {
        let heads = list_or(&change.heads, self.heads.as_slice());
        let sites = list_or(&change.sites, self.sites.as_slice());
        View::new(self, change.entries.as_slice(), heads, change.count, sites)
    }

    /// The call statements of a procedure, in the order of the text; none for a procedure that is not there. It takes
    /// constant time.
    pub fn sites(&self, proc: ProcId) -> &[StmtId]
        ensures is { proc < length self.now.program → result.now ≡
            sites_in (entries_of self.now.program) proc }
        ensures none { length self.now.program ≤ proc → result.now ≡ [] }
    {
        self.view().sites(proc)
    }

    /// The first procedure of a name, or `None` where there is none. It takes time linear in the procedures.
    pub fn proc_named(&self, name: &Text) -> Option<ProcId>
        ensures is { result ≡ named_in self.now.program name.now }
    {
        self.view().proc_named(name)
    }

    /// The program as a tree, made anew. It takes time linear in the program, and fails only when memory runs out.
    #[tactic(auto, using(imp_check::proofs::FewLemmas::few_statements))]
    pub fn tree(&self, alloc: Global) -> Result<Program, Memory>
        ensures is { IfOk result (λ program. program ≡ self.now.program) }
    {
        let heads = self.heads.as_slice();
        let procs = procedures_from(alloc, self.pages.as_slice(), self.count + 1, heads)?;
        Program::new(alloc, procs)
    }

    /// The procedures over slots, made anew, in the order of the text. Slots are of the layouts with their kinds, callees
    /// stand earlier and take their arguments, numbers stand once, and each break has a loop around it. It takes time
    /// linear in the program, and fails only when memory runs out.
    #[tactic(auto, using(imp_check::proofs::FewLemmas::few_checked))]
    pub fn routines(&self, alloc: Global) -> Result<Items<Routine>, Memory>
        ensures is { IfOk result (λ routines. routines ≡ routines_of self.now.program) }
        ensures fit { IsChecked (routines_of self.now.program) }
    {
        let _ = &self.heads;
        let program = self.tree(alloc)?;
        routines_of(alloc, program.procs())
    }

    /// Makes the places that a change needs. When memory runs out the table keeps those that it has.
    pub fn make_room(&mut self, alloc: Global, change: &Change) -> Result<(), Memory>
        ensures places { OnOk result
            (All (λ (p : Put). HasPlace self.new.places p.number) change.now.entries.items) }
        ensures no_less { (n : ℕ) → HasPlace self.old.places n → HasPlace self.new.places n }
        ensures kept { self.new.program ≡ self.old.program }
    {
        make_places(alloc, &mut self.pages, change.entries.as_slice())
    }

    /// Whether the table got so many pages since [`Table::drop_pages`] that it is time to call that again.
    pub fn is_crowded(&self) -> bool {
        self.due < self.pages.len()
    }

    /// Gives back the memory of the pages that are not needed and where nothing stands. It takes time linear in the pages
    /// that there ever were and in the entries.
    pub fn drop_pages(&mut self, alloc: Global, needed: &NeededPages)
        ensures kept { self.new.program ≡ self.old.program }
        ensures needed { (n : ℕ) → IsNeeded needed.now n → HasPlace self.old.places n →
            HasPlace self.new.places n }
    {
        let left = drop_pages(alloc, &mut self.pages, needed.flags());
        self.due = due_after(self.pages.len(), left);
    }

    /// Puts a change in, and leaves in its place the change back. It takes no memory and cannot fail.
    pub fn exchange(&mut self, change: &mut Change)
        ghost program: { List Procedure }
        requires makes { Makes self.old.program change.old program }
        requires fine { IsFine program }
        requires there { HavePlaces self.old.places change.old.entries.items }
        ensures is { self.new.program ≡ program }
        ensures places { self.new.places ≡ self.old.places }
        ensures back { Makes program change.new self.old.program }
        ensures back_there { HavePlaces self.old.places change.new.entries.items }
    {
        put_all(&mut self.pages, change.entries.as_mut_slice());
        std::mem::swap(&mut self.count, &mut change.count);
        exchange_list(&mut self.heads, &mut change.heads);
        exchange_list(&mut self.sites, &mut change.sites);
    }

    /// The change that makes this program of another table's. It has the numbers below this one at which either program
    /// has a statement. It takes time linear in that number, and fails only when memory runs out.
    pub fn into_change(self, alloc: Global, from: &Table, below: u32) -> Result<Change, Memory>
        requires old { All (λ (n : ℕ). n < below) (program_numbers from.now.program) }
        requires new { All (λ (n : ℕ). n < below) (program_numbers self.program) }
        ensures makes { IfOk result (λ change. Makes from.now.program change self.program) }
        ensures within { IfOk result (λ change. AreWithin below change.entries.items) }
    {
        let entries = changed_places(alloc, from, self.pages, below)?;
        Ok(Change {
            entries,
            heads: Some(self.heads),
            count: self.count,
            sites: Some(self.sites),
        })
    }
}

/// What comes below a number where a table gets what stands on these pages.
fn changed_places(
    alloc: Global,
    from: &Table,
    mut pages: Vec<Page>,
    below: u32,
) -> Result<Vec<Put>, Memory>
    ensures comes { IfOk result (λ puts. (n : ℕ) → n < below →
        overlay puts.items (entry_of (entries_of from.now.program)) n ≡
        entry_at pages.items n) }
    ensures within { IfOk result (λ puts. AreWithin below puts.items) }
{
    let mut puts = Vec::new(alloc);
    let mut number = below;
    while number > 0 {
        number -= 1;
        let entry = take_at(&mut pages, number as usize);
        if stands(from, number, &entry) {
            puts.push(Put { number, entry })?;
        }
    }
    Ok(puts)
}

/// Whether something stands at a place, or at its number in a table.
fn stands(table: &Table, number: u32, place: &TableSlot) -> bool
    ensures neither { result ≡ false → (place.now ≡ None) ×
        (entry_of (entries_of table.now.program) number ≡ None) }
{
    place.entry().is_some() || table.entry(StmtId::new(number)).is_some()
}

/// How many pages a table may get after it had so many, of which so many were left.
fn due_after(pages: usize, left: usize) -> usize {
    pages.saturating_add(left).saturating_add(16)
}

//! Histories of programs.
ghost use Rattle.std.specs.Prelude.{ℕ, ◌≡◌, ◌+◌, ◌<◌, ◌≤◌, [], ◌∷◌, List, length, take, IfOk, OnOk, MatchOption, IsSome, ◌↔◌};
ghost use Rattle.std.specs.List.{All};
ghost use Rattle.std.specs.VecDeque.{deque_capacity};
ghost use Rattle.imp_syntax.specs.Plain.{Procedure};
ghost use Rattle.imp_check.specs.Fine.{IsFine};
ghost use Rattle.imp_table.specs.Changes.{Makes};
ghost use Rattle.imp_table.specs.Pages.{HasPlace, HavePlaces, IsNeeded};
ghost use Rattle.imp_table.specs.declared.change.Put.{Put};
ghost use Rattle.edit_history.specs.After.{LeadsOn, programs_by};
ghost use Rattle.edit_history.specs.History.{AllNeeded, AreKept};

use base_values::Memory;
use imp_table::{Change, NeededPages, Table};
use std::alloc::Global;
use std::collections::VecDeque;
use std::marker::Model;

/// How many programs can be gone back to.
const MOST: usize = 64;

/// The table of a program with the changes that lead to the programs before it and after it, seen as the programs, the
/// nearest first.
#[derive(Drop)]
pub struct History {
    table: Table,
    past: VecDeque<Change>,
    future: VecDeque<Change>,
}

impl Model for History {
    ghost use Rattle.std.specs.VecDeque.{deque_capacity};
    ghost use Rattle.edit_history.specs.After.{programs_by};
    ghost use Rattle.edit_history.specs.History.{AreKept, Times, times_code};

    ghost Value = { Times };

    ghost coded = { times_code };

    ghost view = { λ a. record {
      now = a.table.program;
      places = a.table.places;
      past = programs_by a.table.program a.past.items;
      future = programs_by a.table.program a.future.items;
    } };

    ghost invariant = { λ a. AreKept a.table.program a.table.places a.past.items a.future.items
        (deque_capacity a.past) (deque_capacity a.future) };
}

impl History {
    /// The history of a program at first: nothing is before it or after it. It takes all the memory that going back
    /// and forth needs.
    pub fn new(alloc: Global, table: Table) -> Result<History, Memory>
        ensures now { IfOk result (λ h. h.now ≡ table.program) }
        ensures places { IfOk result (λ h. h.places ≡ table.places) }
        ensures past { IfOk result (λ h. h.past ≡ []) }
        ensures future { IfOk result (λ h. h.future ≡ []) }
    {
        table.procs();
        let past = VecDeque::with_capacity(alloc, MOST)?;
        let future = VecDeque::with_capacity(alloc, MOST)?;
        Ok(History {
            table,
            past,
            future,
        })
    }

    /// The table of the present program.
    pub fn table(&self) -> &Table
        ensures is { result.now.program ≡ self.now.now }
        ensures places { result.now.places ≡ self.now.places }
    {
        &self.table
    }

    /// Makes the places of the table that a change needs. Where many pages were made, it gives back those first that neither
    /// a statement nor a change of this history needs. When memory runs out the history can do all that it could.
    pub fn make_room(&mut self, alloc: Global, change: &Change) -> Result<(), Memory>
        ensures places { OnOk result
            (All (λ (p : Put). HasPlace self.new.places p.number) change.now.entries.items) }
        ensures now { self.new.now ≡ self.old.now }
        ensures past { self.new.past ≡ self.old.past }
        ensures future { self.new.future ≡ self.old.future }
    {
        if self.table.is_crowded() {
            // Where there is no memory to find the pages, they stay.
            let _ = self.drop_pages(alloc);
        }
        self.make_places(alloc, change)
    }

    /// Makes the places of the table that a change needs.
    fn make_places(&mut self, alloc: Global, change: &Change) -> Result<(), Memory>
        ensures places { OnOk result
            (All (λ (p : Put). HasPlace self.new.places p.number) change.now.entries.items) }
        ensures now { self.new.now ≡ self.old.now }
        ensures past { self.new.past ≡ self.old.past }
        ensures future { self.new.future ≡ self.old.future }
    {
        self.table.make_room(alloc, change)
    }

    /// Gives back the pages of the table that neither a statement nor a change of this history needs.
    fn drop_pages(&mut self, alloc: Global) -> Result<(), Memory>
        ensures now { self.new.now ≡ self.old.now }
        ensures past { self.new.past ≡ self.old.past }
        ensures future { self.new.future ≡ self.old.future }
    {
        let mut needed = NeededPages::none(alloc);
        add_all(&self.past, &mut needed)?;
        add_all(&self.future, &mut needed)?;
        self.table.drop_pages(alloc, &needed);
        Ok(())
    }

    /// The change that leads to the program before, or `None` where there is none.
    pub fn behind(&self) -> Option<&Change>
        ensures there { IsSome result ↔ (0 < length self.now.past) }
        ensures is { MatchOption result (self.now.past ≡ [])
            (λ change. LeadsOn self.now.places self.now.now change.now self.now.past) }
    {
        self.past.front()
    }

    /// The change that leads to the program after, or `None` where there is none.
    pub fn ahead(&self) -> Option<&Change>
        ensures there { IsSome result ↔ (0 < length self.now.future) }
        ensures is { MatchOption result (self.now.future ≡ [])
            (λ change. LeadsOn self.now.places self.now.now change.now self.now.future) }
    {
        self.future.front()
    }

    /// Puts a change in. The program until then is the nearest one before, the one furthest before goes where there
    /// would be 65, and none is after. It takes no memory and cannot fail.
    pub fn remember(&mut self, mut change: Change)
        ghost program: { List Procedure }
        requires makes { Makes self.old.now change program }
        requires fine { IsFine program }
        requires there { HavePlaces self.old.places change.entries.items }
        ensures now { self.new.now ≡ program }
        ensures past { self.new.past ≡ take 64 (self.old.now ∷ self.old.past) }
        ensures future { self.new.future ≡ [] }
        ensures places { self.new.places ≡ self.old.places }
    {
        self.table.exchange(&mut change);
        self.future.clear();
        leave_room(&mut self.past);
        self.past.push_front_reserved(change);
    }

    /// Goes back to the program before, which then has the present one after it. It takes no memory and cannot fail.
    pub fn back(&mut self)
        requires there { 0 < length self.old.past }
        ensures now { self.new.now ∷ self.new.past ≡ self.old.past }
        ensures future { self.new.future ≡ self.old.now ∷ self.old.future }
        ensures places { self.new.places ≡ self.old.places }
    {
        go(&mut self.table, &mut self.past, &mut self.future);
    }

    /// Goes on to the program after it, which then has the present one before it. It takes no memory and cannot fail.
    pub fn forth(&mut self)
        requires there { 0 < length self.old.future }
        ensures now { self.new.now ∷ self.new.future ≡ self.old.future }
        ensures past { self.new.past ≡ self.old.now ∷ self.old.past }
        ensures places { self.new.places ≡ self.old.places }
    {
        go(&mut self.table, &mut self.future, &mut self.past);
    }
}

/// Adds the pages that these changes need.
fn add_all(changes: &VecDeque<Change>, needed: &mut NeededPages) -> Result<(), Memory>
    ensures added { OnOk result (AllNeeded needed.new changes.now.items) }
    ensures still { (n : ℕ) → IsNeeded needed.old n → IsNeeded needed.new n }
{
    let mut place = 0;
    while let Some(change) = changes.get(place) {
        needed.add(change)?;
        place += 1;
    }
    Ok(())
}

/// Removes the change furthest away where there are 64.
fn leave_room(past: &mut VecDeque<Change>)
    requires few { length past.old.items ≤ 64 }
    ensures is { past.new.items ≡ take 63 past.old.items }
    ensures capacity { deque_capacity past.new ≡ deque_capacity past.old }
{
    if past.len() == MOST {
        past.pop_back();
    }
}

/// Exchanges the nearest change of one side with the table; what is left is then the nearest of the other side.
fn go(table: &mut Table, from: &mut VecDeque<Change>, onto: &mut VecDeque<Change>)
    requires there { 0 < length from.old.items }
    requires kept { AreKept table.old.program table.old.places from.old.items onto.old.items
        (deque_capacity from.old) (deque_capacity onto.old) }
    ensures now { table.new.program ∷ programs_by table.new.program from.new.items ≡
        programs_by table.old.program from.old.items }
    ensures onto { programs_by table.new.program onto.new.items ≡ table.old.program
        ∷ programs_by table.old.program onto.old.items }
    ensures places { table.new.places ≡ table.old.places }
    ensures still { AreKept table.new.program table.new.places from.new.items onto.new.items
        (deque_capacity from.new) (deque_capacity onto.new) }
{
    let Some(mut change) = from.pop_front() else {
        return;
    };
    table.exchange(&mut change);
    onto.push_front_reserved(change);
}

//! Giving states back that are not in use any more.
ghost use Rattle.std.specs.Prelude.{◌≡◌, ℕ, ◌+◌, ◌≤◌, ◌<◌, ◌↔◌, [], Some, length, slice_get};
ghost use Rattle.indexmap.specs.IndexMap.{index_map_len, set_value_at};
ghost use Rattle.state_table.specs.Numbers.{AreOnce};
ghost use Rattle.state_table.specs.Marks.{is_mark, mark_count, marked_states, rank, states_in, AreNumbered, IsMarked};

use crate::table::StateTable;
use base_hash::NumberHashing;
use indexmap::IndexMap;
use std::hash::Hash;
use std::marker::Model;
use std::mem::replace;

/// The states of a table from which only those in use are to be left, each with a mark: 0 for none.
///
/// First each state in use is marked, then the marked ones are numbered, then all that holds a number takes the new
/// one, and then the table is made of the marked states, in their order. All of it happens in the memory of the table.
#[derive(Drop)]
pub struct Sweep<T: Eq + Hash> {
    states: IndexMap<T, usize, NumberHashing>,
}

impl<T: Eq + Hash> Model for Sweep<T> {
    ghost use Rattle.std.specs.Prelude.{List, ℕ};

    ghost Value = { List (T × ℕ) };

    ghost view = { λ s. s.states.entries };
}

impl<T: Eq + Hash + Drop> StateTable<T> {
    /// Takes all states out, to sweep them. None is marked.
    pub fn begin_sweep(&mut self) -> Sweep<T>
        ensures states { states_in result ≡ self.old }
        ensures unmarked { mark_count result ≡ 0 }
        ensures empty { self.new ≡ [] }
    {
        let none = IndexMap::with_hasher(*self.states.allocator(), NumberHashing::new());
        let mut states = replace(&mut self.states, none);
        unmark(&mut states);
        Sweep { states }
    }
}

impl<T: Eq + Hash + Drop> Sweep<T> {
    /// Marks a state: it is in use.
    pub fn mark(&mut self, number: usize)
        requires there { number < length self.old }
        ensures set { self.new ≡ set_value_at self.old number 1 }
        ensures states { states_in self.new ≡ states_in self.old }
        ensures marked { IsMarked self.new number }
        ensures marks { (n : ℕ) → IsMarked self.old n → IsMarked self.new n }
        ensures few { mark_count self.new ≤ mark_count self.old + 1 }
    {
        set_mark(&mut self.states, number, 1);
    }

    /// Numbers the marked states, in their order.
    pub fn number(&mut self)
        ensures states { states_in self.new ≡ states_in self.old }
        ensures numbered { AreNumbered self.new }
        ensures marks { (n : ℕ) → IsMarked self.new n ↔ IsMarked self.old n }
        ensures same { mark_count self.new ≡ mark_count self.old }
    {
        number_marked(&mut self.states);
    }

    /// The number that a marked state will have, where the marked ones are numbered.
    pub fn renumbered(&self, number: usize) -> usize
        requires marked { IsMarked self.now number }
        requires numbered { AreNumbered self.now }
        ensures is { result ≡ rank self.now number }
    {
        match self.states.get_index(number) {
            Some((_, mark)) => *mark - 1,
            None => unreachable!(),
        }
    }

    /// The table of the marked states alone, in their order.
    pub fn finish(mut self) -> StateTable<T>
        ensures states { result ≡ marked_states self }
        ensures count { length result ≡ mark_count self }
        ensures once { AreOnce T.eq result }
    {
        keep_marked(&mut self.states);
        let Sweep { states } = self;
        StateTable { states }
    }
}

/// Another mark for the state at a place.
#[inline]
fn set_mark<T: Eq + Hash>(states: &mut IndexMap<T, usize, NumberHashing>, place: usize, mark: usize)
    requires there { place < index_map_len states.old }
    ensures set { states.new.entries ≡ set_value_at states.old.entries place mark }
{
    let (_state, old) = states.pair_mut(place);
    *old = mark;
}

/// The mark of the state at a place.
#[inline]
fn mark_of<T: Eq + Hash>(states: &IndexMap<T, usize, NumberHashing>, place: usize) -> usize
    requires there { place < index_map_len states.now }
    ensures is { (s : T) (mark : ℕ) → slice_get states.now.entries place ≡ Some (s, mark) →
        result ≡ mark }
{
    match states.get_index(place) {
        Some((_, mark)) => *mark,
        None => unreachable!(),
    }
}

/// Takes all marks away.
fn unmark<T: Eq + Hash>(states: &mut IndexMap<T, usize, NumberHashing>)
    ensures states { states_in states.new.entries ≡ states_in states.old.entries }
    ensures unmarked { mark_count states.new.entries ≡ 0 }
{
    for place in 0..states.len() {
        set_mark(states, place, 0);
    }
}

/// Gives each marked state the number of marked ones up to it as its mark.
fn number_marked<T: Eq + Hash>(states: &mut IndexMap<T, usize, NumberHashing>)
    ensures states { states_in states.new.entries ≡ states_in states.old.entries }
    ensures numbered { AreNumbered states.new.entries }
    ensures marks { (n : ℕ) → IsMarked states.new.entries n ↔ IsMarked states.old.entries n }
    ensures same { mark_count states.new.entries ≡ mark_count states.old.entries }
{
    let mut next = 0;
    for place in 0..states.len() {
        if mark_of(states, place) > 0 {
            next += 1;
            set_mark(states, place, next);
        }
    }
}

/// Drops the states that are not marked.
fn keep_marked<T: Eq + Hash + Drop>(states: &mut IndexMap<T, usize, NumberHashing>)
    ensures states { states_in states.new.entries ≡ marked_states states.old.entries }
    ensures once { AreOnce T.eq (states_in states.new.entries) }
{
    states.retain(
        |_state: &T, mark: &mut usize| -> bool
            ensures is { (result ≡ is_mark mark.old) × (mark.new ≡ mark.old) }
        { *mark > 0 },
    );
}

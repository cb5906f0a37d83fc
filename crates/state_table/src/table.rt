//! The table: one number for a state, and one state for a number.

ghost use Rattle.std.specs.Prelude.{◌≡◌, ℕ, ◌+◌, ◌≤◌, ◌<◌, ◌^◌, ◌↔◌, true, List, [], length, Option, Some, slice_get, position, IfOk, IfSome, OnErr, OnOk, IsTrue};
ghost use Rattle.std.specs.List.{position_or_len};
ghost use Rattle.state_table.specs.Numbers.{with_state, IsNumberOf, KeepsNumbers, AreOnce, TellsApart, Adds};

use base_hash::NumberHashing;
use base_values::Memory;
use indexmap::IndexMap;
use std::alloc::Global;
use std::hash::Hash;
use std::marker::Model;

/// States under numbers, as a list: the state at place n has the number n.
#[derive(Drop)]
pub struct StateTable<T: Eq + Hash> {
    // beside each state a mark, which means nothing outside a sweep
    pub(crate) states: IndexMap<T, usize, NumberHashing>,
}

impl<T: Eq + Hash> Model for StateTable<T> {
    ghost use Rattle.std.specs.Prelude.{List};
    ghost use Rattle.state_table.specs.Marks.{states_in};

    ghost Value = { List T };

    ghost view = { λ t. states_in t.states.entries };
}

impl<T: Eq + Hash + Drop> StateTable<T> {
    /// A table with no states. It takes no memory yet.
    #[inline]
    pub fn new(alloc: Global) -> StateTable<T>
        ensures empty { result ≡ [] }
    {
        StateTable {
            states: IndexMap::with_hasher(alloc, NumberHashing::new()),
        }
    }

    /// Drops all states, and keeps the memory for as many.
    pub fn clear(&mut self)
        ensures empty { self.new ≡ [] }
    {
        self.states.clear();
    }

    /// How many states there are.
    #[inline]
    pub fn len(&self) -> usize
        ensures len { result ≡ length self.now }
        ensures once { AreOnce T.eq self.now }
    {
        self.states.len()
    }

    /// Whether there are none.
    #[inline]
    pub fn is_empty(&self) -> bool
        ensures empty { IsTrue result ↔ (length self.now ≡ 0) }
    {
        self.states.is_empty()
    }

    /// The number of a state: that of the equal state, or a new one where there is none.
    #[inline]
    pub fn intern(&mut self, state: T) -> Result<usize, Memory>
        ensures table { OnOk result (self.new ≡ with_state T.eq self.old state) }
        ensures number { IfOk result (λ n. n ≡ position_or_len (T.eq state) self.old) }
        ensures equal { IfOk result (IsNumberOf T.eq self.new state) }
        ensures same { TellsApart T.eq → IfOk result (λ n. slice_get self.new n ≡ Some state) }
        ensures adds { TellsApart T.eq → IfOk result (Adds self.old self.new state) }
        ensures small { IfOk result (λ n. n < 2 ^ 63) }
        ensures few { length self.new ≤ length self.old + 1 }
        ensures once { AreOnce T.eq self.new }
        ensures kept { KeepsNumbers self.old self.new }
        ensures err { OnErr result (self.new ≡ self.old) }
    {
        let (number, _old) = self.states.insert_full(state, 0)?;
        let _count = self.states.len();
        Ok(number)
    }

    /// The number of a state, or `None` where no equal one is there. It takes no memory.
    #[inline]
    pub fn find(&self, state: &T) -> Option<usize>
        ensures number { result ≡ position (T.eq state.now) self.now }
        ensures same { TellsApart T.eq → IfSome result (λ n. slice_get self.now n ≡
            Some state.now) }
        ensures small { IfSome result (λ n. n < 2 ^ 63) }
        ensures found { (n : ℕ) (s : T) → slice_get self.now n ≡ Some s → T.eq state.now s ≡ true →
            result ≡ Some n }
    {
        let _states = self.states.len();
        self.states.get_index_of(state)
    }

    /// The state under a number.
    #[inline]
    pub fn get(&self, number: usize) -> &T
        requires { number < length self.now }
        ensures state { slice_get self.now number ≡ Some result.now }
    {
        match self.states.get_index(number) {
            Some((state, _)) => state,
            None => unreachable!(),
        }
    }
}

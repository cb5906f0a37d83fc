//! Other numbers for the cells that are there.
ghost use Rattle.std.specs.Prelude.{◌≡◌, ℕ, suc, map, IsSome, count_by, is_some};
ghost use Rattle.std.specs.FinMap as map_of;
ghost use Rattle.daig_graph.specs.Agrees.{filled_at, value_at, Agrees};
ghost use Rattle.daig_graph.specs.Numbers.{renumbered, AreRising, AreBelow, EndsBy, Moves};
ghost use Rattle.daig_graph.specs.Renumbered.{renumbered_cell, Renumbers};

use crate::graph::Graph;
use crate::inputs::Inputs;
use crate::owned::Owned;
use crate::uses::Uses;
use crate::value::Value;
use std::alloc::Global;

impl<V> Graph<V> {
    /// Calls each cell, also as an input, by the number that stands in `new_of` at its own, and by its own beyond
    /// `new_of`. The new numbers rise with the old, and none is greater. Values, statements and the order of inputs
    /// stay. It takes as many steps as there is room for cells and inputs, and no memory, and gives back the places of
    /// numbers beyond the last cell's.
    pub fn renumber(&mut self, new_of: &[usize])
    where
        V: Drop,
        requires rising { AreRising (map_of.get self.old.cells) new_of.now }
        requires below { AreBelow (map_of.get self.old.cells) new_of.now }
        ensures renumbers { Renumbers new_of.now self.old.cells self.new.cells }
        ensures same_len { map_of.len self.new.cells ≡ map_of.len self.old.cells }
        ensures last { (n : ℕ) → self.new.places ≡ suc n → IsSome (map_of.get self.new.cells n) }
    {
        let room = move_cells(
            self.alloc,
            &mut self.values,
            &mut self.owned,
            &mut self.uses,
            new_of,
        );
        self.values.truncate(room);
        self.values.shrink_to_fit();
        self.owned.cut(room);
        self.uses.cut(room);
    }
}

/// Moves each cell to its new number, which is not greater, and gives the number after the last of those, or 0 where there is
/// no cell. The new numbers rise with the old.
fn move_cells<V: Drop>(
    alloc: Global,
    values: &mut Vec<Option<Value<V>>>,
    owned: &mut Owned,
    uses: &mut Uses,
    new_of: &[usize],
) -> usize
    requires agrees { Agrees values.old.items owned.old.of uses.old
        (count_by is_some values.old.items) }
    requires rising { AreRising (filled_at values.old.items owned.old.of uses.old) new_of.now }
    requires below { AreBelow (filled_at values.old.items owned.old.of uses.old) new_of.now }
    ensures moves { Moves (renumbered_cell new_of.now)
        (filled_at values.old.items owned.old.of uses.old)
        (filled_at values.new.items owned.new.of uses.new) new_of.now }
    ensures room { EndsBy (filled_at values.new.items owned.new.of uses.new) result }
    ensures last { (n : ℕ) → result ≡ suc n → IsSome (value_at values.new.items n) }
    ensures agrees { Agrees values.new.items owned.new.of uses.new
        (count_by is_some values.old.items) }
{
    let mut room = 0;
    for number in 0..values.len() {
        if values[number].is_some() {
            let new = new_number(new_of, number);
            values.swap(number, new);
            owned.move_cell(number, new);
            uses.move_inputs(alloc, number, new, new_of);
            room = new + 1;
        }
    }
    room
}

/// The new number of a number.
#[inline]
fn new_number(new_of: &[usize], number: usize) -> usize
    ensures new { result ≡ renumbered new_of.now number }
{
    match new_of.get(number) {
        Some(new) => *new,
        None => number,
    }
}

/// New numbers in place of these.
fn renumber_all(numbers: &mut [usize], new_of: &[usize])
    ensures new { numbers.new ≡ map (renumbered new_of.now) numbers.old }
{
    for place in 0..numbers.len() {
        numbers[place] = new_number(new_of, numbers[place]);
    }
}

impl Inputs {
    /// New numbers in place of these.
    pub(crate) fn renumber(&mut self, new_of: &[usize])
        ensures new { self.new ≡ map (renumbered new_of.now) self.old }
    {
        renumber_all(self.cells.as_mut_slice(), new_of);
    }
}

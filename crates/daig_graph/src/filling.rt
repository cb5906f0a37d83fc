//! Filling cells and taking them away.
ghost use Rattle.std.specs.Prelude.{◌≡◌, ℕ, ◌<◌, ◌≤◌, None, IsSome, OnOk, OnErr, length, max, suc};
ghost use Rattle.std.specs.FinMap as map;
ghost use Rattle.daig_graph.specs.Agrees.{filled_at, Agrees};
ghost use Rattle.daig_graph.specs.Cells.{AreCells, HoldsState, IsUnused, ReplacesHeld};

use crate::graph::Graph;
use crate::inputs::Inputs;
use crate::owned::{Owned, bucket};
use crate::room::make_room;
use crate::uses::Uses;
use crate::value::Value;
use base_values::Memory;
use std::alloc::{AllocError, Global};

impl<V> Graph<V> {
    /// No cells, and no places. It takes no memory yet.
    #[inline]
    pub fn new(alloc: Global) -> Graph<V>
        ensures empty { result.cells ≡ map.empty }
        ensures places { result.places ≡ 0 }
    {
        Graph {
            values: Vec::new(alloc),
            owned: Owned::new(alloc),
            uses: Uses::new(alloc),
            count: 0,
            alloc,
        }
    }

    /// Fills a cell that is not there: its number, the statement that it belongs to, its value and its inputs. It takes
    /// as many steps as the cell has inputs, and as many more as its number, or the list of the statement, lies beyond
    /// all before it. Its number and those below it get places, and no others do.
    ///
    /// # Errors
    ///
    /// [`Memory`] when memory runs out. The cells are what they were then; some of the places may be there.
    #[inline(always)]
    pub fn fill(
        &mut self,
        cell: usize,
        owner: u32,
        value: Value<V>,
        inputs: Inputs,
    ) -> Result<(), Memory>
    where
        V: Drop,
        requires absent { map.get self.old.cells cell ≡ None }
        requires inputs { AreCells self.old.cells inputs }
        ensures fills { OnOk result (self.new.cells ≡ map.insert self.old.cells cell
            (record { owner = owner; value = value; inputs = inputs })) }
        ensures err { OnErr result (self.new.cells ≡ self.old.cells) }
        ensures places { OnOk result (self.new.places ≡ max self.old.places (suc cell)) }
        ensures kept { self.old.places ≤ self.new.places }
        ensures most { self.new.places ≤ max self.old.places (suc cell) }
    {
        reserve(
            self.alloc,
            &mut self.values,
            &mut self.owned,
            &mut self.uses,
            cell,
            bucket(owner),
        )?;
        self.uses.set(cell, inputs)?;
        self.owned.put(cell, owner);
        self.values[cell] = Some(value);
        self.count += 1;
        Ok(())
    }

    /// Another value in place of the state that a cell holds. It takes constant time, and no memory.
    #[inline]
    pub fn replace_held(&mut self, cell: usize, held: V)
    where
        V: Drop,
        requires state { HoldsState self.old.cells cell }
        ensures replaces { ReplacesHeld self.old.cells cell held self.new.cells }
        ensures places { self.new.places ≡ self.old.places }
    {
        self.values[cell] = Some(Value::State(held));
    }

    /// Takes a cell away that is an input of no other; its place stays. It takes as many steps as the cell has inputs, and
    /// no memory.
    #[inline]
    pub fn remove(&mut self, cell: usize)
    where
        V: Drop,
        requires there { IsSome (map.get self.old.cells cell) }
        requires unused { IsUnused self.old.cells cell }
        ensures removes { self.new.cells ≡ map.remove self.old.cells cell }
        ensures places { self.new.places ≡ self.old.places }
    {
        self.uses.clear(self.alloc, cell);
        let _owner = self.owned.take(cell);
        self.values[cell] = None;
        self.count -= 1;
    }
}

/// A place for this number and this list. All that is held stays as it is.
#[inline]
fn reserve<V: Drop>(
    alloc: Global,
    values: &mut Vec<Option<Value<V>>>,
    owned: &mut Owned,
    uses: &mut Uses,
    cell: usize,
    list: usize,
) -> Result<(), AllocError>
    ensures place { OnOk result (cell < length values.new.items) }
    ensures list { OnOk result (list < owned.new.lists) }
    ensures kept { length values.old.items ≤ length values.new.items }
    ensures most { length values.new.items ≤ max (length values.old.items) (suc cell) }
    ensures same { (n : ℕ) → filled_at values.new.items owned.new.of uses.new n ≡
        filled_at values.old.items owned.old.of uses.old n }
    ensures agrees { (count : ℕ) → Agrees values.old.items owned.old.of uses.old count →
        Agrees values.new.items owned.new.of uses.new count }
{
    if cell < values.len() && list < owned.lists() {
        return Ok(());
    }
    make_places(alloc, values, owned, uses, cell, list)
}

/// Places for this number and this list, and for all below them. It takes as many steps as there are new places.
#[cold]
#[inline(never)]
fn make_places<V: Drop>(
    alloc: Global,
    values: &mut Vec<Option<Value<V>>>,
    owned: &mut Owned,
    uses: &mut Uses,
    cell: usize,
    list: usize,
) -> Result<(), AllocError>
    ensures place { OnOk result (cell < length values.new.items) }
    ensures list { OnOk result (list < owned.new.lists) }
    ensures kept { length values.old.items ≤ length values.new.items }
    ensures most { length values.new.items ≤ max (length values.old.items) (suc cell) }
    ensures same { (n : ℕ) → filled_at values.new.items owned.new.of uses.new n ≡
        filled_at values.old.items owned.old.of uses.old n }
    ensures agrees { (count : ℕ) → Agrees values.old.items owned.old.of uses.old count →
        Agrees values.new.items owned.new.of uses.new count }
{
    owned.reserve(cell, list)?;
    uses.reserve(alloc, cell)?;
    make_room(values, cell)?;
    while values.len() <= cell {
        values.push(None)?;
    }
    Ok(())
}

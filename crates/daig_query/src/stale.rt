//! Cells that an edit emptied: what each held, and what it read.
//!
//! After an edit most cells that it empties get the values that they had. A stale cell need not be computed again where each
//! input holds what it read: its row is that of the present program, so its value is what it held.
ghost use Rattle.std.specs.Prelude.{◌≡◌, ℕ, Some, IfSome, length, min, slice_set};
ghost use Rattle.std.specs.FinMap.{len};
ghost use Rattle.loop_unroll.specs.Iterates.{state_in, value_at};
ghost use Rattle.daig_query.specs.Stale.{stale_at, AreStaleOf, IsFresh, IsReadBy};

use crate::held::Held;
use crate::walk::held_in;
use base_values::Memory;
use daig_graph::Graph;
use std::alloc::Global;
use std::marker::Model;

/// An input of a cell, and what it held when the cell was computed.
#[derive(Clone, Copy)]
pub(crate) struct Read {
    pub(crate) cell: usize,
    pub(crate) held: Held,
}

/// What a cell was computed from, from left to right.
#[derive(Clone, Copy)]
pub(crate) enum Reads {
    Nothing,
    One(Read),
    Two(Read, Read),
}

/// What an emptied cell held, and what it read.
#[derive(Clone, Copy)]
pub(crate) struct StaleCell {
    pub(crate) held: Held,
    pub(crate) reads: Reads,
}

/// A stale cell, and the edit that emptied it.
#[derive(Clone, Copy)]
struct Dated {
    edit: u64,
    cell: StaleCell,
}

/// The cells that the last edit emptied, by the numbers of their names: those that held a state and read at most two.
#[derive(Drop)]
pub(crate) struct StaleCells {
    cells: Vec<Option<Dated>>,
    // the last edit; what an earlier one emptied counts for nothing
    edit: u64,
    // how many cells it emptied
    count: usize,
}

impl Model for StaleCells {
    ghost use Rattle.std.specs.Prelude.{map};
    ghost use Rattle.daig_query.specs.Stale.{Stale};
    ghost use Rattle.daig_query.specs.Dates.{AreDated, stale_by};

    ghost Value = { Stale };

    ghost view = { λ a. record { cells = map (stale_by a.edit) a.cells.items; count = a.count } };

    ghost invariant = { λ a. AreDated a.edit a.cells.items };
}

impl StaleCells {
    /// None is stale.
    pub(crate) fn new(alloc: Global) -> StaleCells
        ensures fresh { IsFresh result }
        ensures count { result.count ≡ 0 }
    {
        StaleCells {
            cells: Vec::new(alloc),
            edit: 0,
            count: 0,
        }
    }

    /// How many cells the last edit emptied: there are no more stale ones.
    #[inline]
    pub(crate) fn count(&self) -> usize
        ensures count { result ≡ self.now.count }
    {
        self.count
    }

    /// A stale cell, if this one is.
    #[inline(always)]
    pub(crate) fn get(&self, cell: usize) -> Option<StaleCell>
        ensures is { result ≡ stale_at self.now cell }
    {
        match self.cells.get(cell) {
            Some(Some(dated)) if dated.edit == self.edit => Some(dated.cell),
            _ => None,
        }
    }

    /// A place for this cell and those below it, where it may be stale later. The stale cells stay.
    #[inline(always)]
    pub(crate) fn make_place(&mut self, cell: usize) -> Result<(), Memory>
        ensures same { (n : ℕ) → stale_at self.new n ≡ stale_at self.old n }
        ensures count { self.new.count ≡ self.old.count }
    {
        if cell < self.cells.len() {
            return Ok(());
        }
        self.make_places(cell)
    }

    #[cold]
    #[inline(never)]
    fn make_places(&mut self, cell: usize) -> Result<(), Memory>
        ensures same { (n : ℕ) → stale_at self.new n ≡ stale_at self.old n }
        ensures count { self.new.count ≡ self.old.count }
    {
        while self.cells.len() <= cell {
            self.cells.push(None)?;
        }
        Ok(())
    }

    /// None is stale any more. It takes constant time, and no memory.
    pub(crate) fn clear(&mut self)
        ensures fresh { IsFresh self.new }
        ensures count { self.new.count ≡ self.old.count }
    {
        match self.edit.checked_add(1) {
            Some(edit) => self.edit = edit,
            None => self.cells.clear(),
        }
    }

    /// The cells of a plan are stale from now on, but for the touched ones, whose own row is changed. It takes no memory.
    pub(crate) fn mark(&mut self, graph: &Graph<Held>, order: &[usize], touched: &[usize])
        ensures stale { AreStaleOf graph.now.cells order.now touched.now self.new }
        ensures count { self.new.count ≡ min (length order.now) (len graph.now.cells) }
    {
        self.clear();
        self.count = order.len().min(graph.kept_count());
        for cell in order {
            self.put(*cell, read_by(graph, *cell));
        }
        for cell in touched {
            self.put(*cell, None);
        }
    }

    /// What a cell, which has a place, is from now on.
    #[inline(always)]
    fn put(&mut self, cell: usize, stale: Option<StaleCell>)
        ensures puts { self.new.cells ≡ slice_set self.old.cells cell stale }
        ensures count { self.new.count ≡ self.old.count }
    {
        if cell < self.cells.len() {
            let edit = self.edit;
            let dated = match stale {
                Some(cell) => Some(Dated { edit, cell }),
                None => None,
            };
            self.cells[cell] = dated;
        }
    }
}

/// What a cell holds and reads, where that is a state and at most two of them.
#[inline(always)]
fn read_by(graph: &Graph<Held>, cell: usize) -> Option<StaleCell>
    ensures is { IfSome result (λ s. IsReadBy graph.now.cells cell s) }
{
    let held = held_in(graph, cell)?;
    let reads = match graph.inputs(cell)? {
        [] => Reads::Nothing,
        [first] => Reads::One(input_read(graph, *first)?),
        [first, second] => Reads::Two(input_read(graph, *first)?, input_read(graph, *second)?),
        _ => return None,
    };
    Some(StaleCell { held, reads })
}

/// A cell with what it holds, where that is a state.
#[inline(always)]
fn input_read(graph: &Graph<Held>, cell: usize) -> Option<Read>
    ensures cell { IfSome result (λ r. r.cell ≡ cell) }
    ensures held { IfSome result (λ r. state_in (value_at graph.now.cells cell) ≡ Some r.held) }
{
    let held = held_in(graph, cell)?;
    Some(Read { cell, held })
}

//! The heap of list cells, and the inputs left.
ghost use Rattle.std.specs.Prelude.{◌≡◌, ◌∷◌, [], ◌++◌, ◌<◌, pos, length, slice_get, slice_set, Some, None, IfOk, OnOk, MatchOption};
ghost use Rattle.concrete_sem.specs.Values.{Cell, Heap};
ghost use Rattle.imp_run.specs.Store.{cell_of, cell_at};

use base_values::Memory;
use std::alloc::Global;
use std::marker::Model;

/// A list cell: its item, and the place of the next cell.
#[derive(Clone, Copy, Debug, PartialEq, Eq)]
pub(crate) struct ListCell {
    pub(crate) item: i64,
    pub(crate) next: Option<usize>,
}

/// The heap with the inputs left.
#[derive(Drop)]
pub(crate) struct Store<'a> {
    cells: Vec<ListCell>,
    inputs: &'a [i64],
}

impl<'a> Model for Store<'a> {
    ghost use Rattle.std.specs.Prelude.{map};
    ghost use Rattle.concrete_sem.specs.Values.{Heap};

    ghost Value = { Heap };

    ghost use Rattle.imp_run.specs.Store.{cell_of};

    ghost view = { λ a. record { cells = map cell_of a.cells.items; inputs = a.inputs.now } };
}

impl<'a> Store<'a> {
    /// No cells, and these inputs.
    pub(crate) fn new(alloc: Global, inputs: &'a [i64]) -> Store<'a>
        ensures cells { result.cells ≡ [] }
        ensures inputs { result.inputs ≡ inputs.now }
    {
        Store {
            cells: Vec::new(alloc),
            inputs,
        }
    }

    /// The next input, which is taken away.
    pub(crate) fn take_input(&mut self) -> Option<i64>
        ensures taken { MatchOption result (self.old.inputs ≡ [])
            (λ z. self.old.inputs ≡ z ∷ self.new.inputs) }
        ensures cells { self.new.cells ≡ self.old.cells }
    {
        match self.inputs {
            [] => None,
            [first, rest @ ..] => {
                self.inputs = rest;
                Some(*first)
            }
        }
    }

    /// The cell at a place.
    pub(crate) fn cell_at(&self, at: usize) -> Option<ListCell>
        ensures cell { cell_at result ≡ slice_get self.now.cells at }
    {
        self.cells.get(at).copied()
    }

    /// Adds a cell with item 0 and no next one, and gives its place.
    pub(crate) fn add_cell(&mut self) -> Result<usize, Memory>
        ensures place { IfOk result (λ k. k ≡ length self.old.cells) }
        ensures cells { OnOk result (self.new.cells ≡ self.old.cells
            ++ (record { item = pos 0; next = None } ∷ [])) }
        ensures inputs { self.new.inputs ≡ self.old.inputs }
    {
        let place = self.cells.len();
        self.cells.push(ListCell {
            item: 0,
            next: None,
        })?;
        Ok(place)
    }

    /// Puts a cell in the place of one that is there.
    pub(crate) fn set_cell(&mut self, at: usize, cell: ListCell)
        ensures cells { self.new.cells ≡ slice_set self.old.cells at (cell_of cell) }
        ensures inputs { self.new.inputs ≡ self.old.inputs }
    {
        if at < self.cells.len() {
            self.cells[at] = cell;
        }
    }
}

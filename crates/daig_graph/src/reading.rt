//! Reading cells.
ghost use Rattle.std.specs.Prelude.{◌≡◌, ℕ, ◌↔◌, ◌<◌, option_copied, option_map, IfSome, IsSome};
ghost use Rattle.std.specs.FinMap as map;
ghost use Rattle.daig_graph.specs.declared.graph.Use.{Use};
ghost use Rattle.daig_graph.specs.Held.{IsIn, IsOnce};
ghost use Rattle.daig_graph.specs.Cells.{AreCells, IsOwned, IsUse, is_owned};

use crate::dependents::Dependents;
use crate::graph::Graph;
use crate::owned::{OwnedCells, bucket};
use crate::value::Value;

impl<V> Graph<V> {
    /// The value of a cell, or `None` where it is not there.
    #[inline]
    pub fn value(&self, cell: usize) -> Option<&Value<V>>
        ensures value { option_copied result ≡ option_map
            (λ f. f.value) (map.get self.now.cells cell) }
    {
        match self.values.get(cell) {
            Some(value) => value.as_ref(),
            None => None,
        }
    }

    /// The inputs of a cell from left to right, or `None` where it is not there. They are cells.
    #[inline]
    pub fn inputs(&self, cell: usize) -> Option<&[usize]>
        ensures inputs { option_copied result ≡ option_map
            (λ f. f.inputs) (map.get self.now.cells cell) }
        ensures cells { IfSome result (λ inputs. AreCells self.now.cells inputs.now) }
    {
        match self.value(cell) {
            Some(_) => Some(self.uses.inputs(cell)),
            None => None,
        }
    }

    /// The cells of which a cell is an input, each with the place where it stands among its inputs; none where the cell
    /// is not there. No two are alike.
    #[inline]
    pub fn dependents(&self, cell: usize) -> Dependents<'_>
        ensures once { IsOnce result }
        ensures uses { (u : Use) → IsIn result u ↔ IsUse self.now.cells cell u }
    {
        self.uses.uses(cell)
    }

    /// The cells that belong to a statement, each once. Going over them takes as many steps as there are cells on the
    /// statement's list, which it may share.
    #[inline]
    pub fn cells_of_statement(&self, statement: u32) -> OwnedCells<'_, V>
        ensures once { IsOnce result }
        ensures cells { (x : ℕ) → IsIn result x ↔ IsOwned self.now.cells statement x }
    {
        OwnedCells {
            graph: self,
            statement,
            shared: self.owned.items(bucket(statement)),
        }
    }

    /// How many cells there are.
    #[inline]
    pub fn kept_count(&self) -> usize
        ensures count { result ≡ map.len self.now.cells }
    {
        self.count
    }

    /// How many numbers have a place: a number beyond those of all cells.
    #[inline]
    pub fn room(&self) -> usize
        ensures places { result ≡ self.now.places }
        ensures room { (n : ℕ) → IsSome (map.get self.now.cells n) → n < result }
    {
        self.values.len()
    }

    /// Whether a cell belongs to a statement.
    #[inline]
    pub(crate) fn is_owned(&self, cell: usize, statement: u32) -> bool
        ensures is { result ≡ is_owned self.now.cells statement cell }
    {
        match self.owned.owner(cell) {
            Some(owner) => owner == statement,
            None => false,
        }
    }
}

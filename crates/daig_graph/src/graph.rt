//! The graph.
use crate::owned::Owned;
use crate::uses::Uses;
use crate::value::Value;
use std::alloc::Global;
use std::marker::Model;

/// One cell stands at a place among another cell's inputs, counted from 0.
#[derive(Clone, Copy, Debug, PartialEq, Eq, Hash)]
pub struct Use {
    pub cell: usize,
    pub place: usize,
}

/// Cells, each called by a number, with its inputs and dependents.
#[derive(Drop)]
pub struct Graph<V> {
    // the value of each cell, by its number
    pub(crate) values: Vec<Option<Value<V>>>,
    // the owners of the cells, and the cells of each
    pub(crate) owned: Owned,
    // the inputs of the cells, and the uses of each
    pub(crate) uses: Uses,
    pub(crate) count: usize,
    pub(crate) alloc: Global,
}

impl<V> Model for Graph<V> {
    ghost use Rattle.std.specs.Prelude.{length};
    ghost use Rattle.std.specs.FinMap as map;
    ghost use Rattle.daig_graph.specs.Cells.{Cells};

    ghost Value = { Cells V };

    ghost use Rattle.std.specs.Coded.{codes};

    ghost coded = { Prim.hlevel (codes, map.code) };

    ghost use Rattle.daig_graph.specs.Agrees.{filled_cells, numbered, Agrees};

    ghost view = { λ a. record {
      cells = map.from_entries (numbered 0 (filled_cells a.values.items a.owned.of a.uses));
      places = length a.values.items;
    } };

    ghost invariant = { λ a. Agrees a.values.items a.owned.of a.uses a.count };
}

//! Names and numbers lead to the same cells.
ghost use Rattle.cell_graph.specs.Claims.{CellsFindNames, NamesFindCells};

/// Where each name has one number, the cell of a name is that of its number; and the cell of a name has a number, which
/// is the name's.
pub fn names_find_cells<V>()
    ensures by_number { NamesFindCells V }
    ensures by_name { CellsFindNames V }
{}

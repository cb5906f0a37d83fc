//! The cells of the names that targets ask for.
ghost use Rattle.std.specs.Prelude.{◌≡◌, ◌<◌, ℕ, List, ◌++◌, length, Some, slice_get, IfOk, OnOk};
ghost use Rattle.cell_names.specs.Paths.{CellName, path_at};
ghost use Rattle.cell_graph.specs.Named.{AreNumbers};
ghost use Rattle.daig_query.specs.Walked.{fixes, with_fixes};
ghost use Rattle.why_cells.specs.Reached.{fix_of, AllNamed};

use base_values::Memory;
use cell_names::{Name, NameFrame, Names, PathId, Point};
use std::alloc::Global;

/// Adds the cell of the fixed point of the loop that a frame goes into, if it goes into one.
fn add_fix(
    names: &Names,
    before: PathId,
    frame: NameFrame,
    cells: &mut Vec<usize>,
) -> Result<(), Memory>
    requires there { before < length names.now.paths }
    ensures adds { AllNamed names.now.names (fix_of frame (path_at names.now.paths before)) →
        OnOk result ((ns : List ℕ) × (cells.new.items ≡ cells.old.items ++ ns) ×
        AreNumbers names.now.names ns (fix_of frame (path_at names.now.paths before))) }
{
    match frame {
        NameFrame::InCall(_) => Ok(()),
        NameFrame::InLoop(head, _) => {
            let name = Name {
                path: before,
                point: Point::Fix(head),
            };
            match names.find(&name) {
                Some(cell) => {
                    cells.push(cell)?;
                    Ok(())
                }
                None => Ok(()),
            }
        }
    }
}

/// Adds the cells of the fixed points of the loops that a path goes into.
fn add_fixes(names: &Names, path: PathId, cells: &mut Vec<usize>) -> Result<(), Memory>
    requires there { path < length names.now.paths }
    ensures adds { AllNamed names.now.names (fixes (path_at names.now.paths path)) →
        OnOk result ((ns : List ℕ) × (cells.new.items ≡ cells.old.items ++ ns) ×
        AreNumbers names.now.names ns (fixes (path_at names.now.paths path))) }
{
    let mut rest = path;
    while let Some((before, frame)) = names.last_frame(rest) {
        add_fix(names, before, frame, cells)?;
        rest = before;
    }
    Ok(())
}

/// These cells, each with those of the fixed points of the loops that its name's path goes into.
pub(crate) fn with_fixes(
    alloc: Global,
    names: &Names,
    found: &[usize],
) -> Result<Vec<usize>, Memory>
    requires within { (i n : ℕ) → slice_get found.now i ≡ Some n → n < length names.now.names }
    ensures are { (xs : List CellName) → AreNumbers names.now.names found.now xs →
        AllNamed names.now.names (with_fixes xs) →
        IfOk result (λ cells. AreNumbers names.now.names cells.items (with_fixes xs)) }
{
    let mut cells = Vec::new(alloc);
    for cell in found {
        let number = *cell;
        let name = names.get(number);
        cells.push(number)?;
        add_fixes(names, name.path, &mut cells)?;
    }
    Ok(cells)
}

//! Giving back the names and paths of cells that are gone.
ghost use Rattle.std.specs.Prelude.{◌≡◌, ◌<◌, ◌≤◌, [], length, Some, slice_get, IfNone, IfOk, IfSome, OnOk};
ghost use Rattle.std.specs.FinMap.{len};
ghost use Rattle.domain_laws.specs.Operations.{Operations};
ghost use Rattle.cell_names.specs.Known.{KeepsNumbers};
ghost use Rattle.cell_names.specs.Paths.{path_at};
ghost use Rattle.daig_query.specs.Renamed.{names_after, AddsNameOf, AreNamedAnew, HasNamesOfCells, IsRenamingOf, Renames};
ghost use Rattle.daig_query.specs.Swept.{most_held, IsInTables, StaysRight};

use crate::engine::Engine;
use crate::held::Held;
use crate::opening::has_cell;
use crate::store::Store;
use crate::sweep::most_kept;
use base_values::Memory;
use cell_names::{Name, NameFrame, Names, PathId};
use daig_graph::Graph;
use domain_laws::Domain;
use std::alloc::Global;
use std::hash::Hash;

/// The names of cells alone, and by each number the new number of its name.
#[derive(Drop)]
pub struct NewNames {
    names: Names,
    numbers: Vec<usize>,
}

impl<D: Domain> Engine<D> {
    /// The names that have a cell, without those that have none and the paths that no cell's name needs, where more names are
    /// kept than four for each cell and each result that may be remembered, and 4,096; `None` where they are no more.
    /// Nothing is changed.
    ///
    /// It takes as many steps as there are names, and as the paths of the cells have frames; since it happens where three
    /// quarters of the names have no cell, that is constant time for each name that was made, and each frame of its path.
    ///
    /// # Errors
    ///
    /// [`Memory`] alone.
    pub fn new_names(&self, alloc: Global) -> Result<Option<NewNames>, Memory>
        ensures renaming { IfOk result (λ made. IfSome made (IsRenamingOf self.now.store)) }
        ensures few { IfOk result (λ made. IfSome made (HasNamesOfCells self.now.store)) }
        ensures none { IfOk result (λ made. IfNone made (length self.now.store.names.names ≤
            most_held self.now.spare self.now.store)) }
    {
        let most = most_kept(&self.store.graph, self.spare);
        if self.store.names.len() <= most {
            return Ok(None);
        }
        let made = named_anew(alloc, &self.store.graph, &self.store.names)?;
        Ok(Some(made))
    }

    /// Puts names that were worked out, if there are any, in the place of those that are kept. Cells may have been taken
    /// away since. The cells get other numbers, so no walk that was begun before stays good. Each cell keeps what it holds,
    /// and what is remembered stays. It takes as many steps as there are names, and no memory.
    pub fn rename(&mut self, made: Option<NewNames>)
        requires held { IsInTables self.old.store }
        requires renaming { IfSome made (IsRenamingOf self.old.store) }
        ensures domain { self.new.domain ≡ self.old.domain }
        ensures spare { self.new.spare ≡ self.old.spare }
        ensures renames { Renames self.old.store self.new.store }
        ensures right { StaysRight (D.operations self.old.domain) self.old.store self.new.store }
        ensures names { self.new.store.names ≡ names_after self.old.store.names made }
    {
        if let Some(made) = made {
            rename_cells(&mut self.store, made);
        }
    }
}

/// Gives back all names that have no cell, and gives the cells other numbers.
fn rename_cells<S: Eq + Hash + Drop>(store: &mut Store<S>, made: NewNames)
    requires held { IsInTables store.old }
    requires renaming { IsRenamingOf store.old made }
    ensures renames { Renames store.old store.new }
    ensures right { (dom : Operations S) → StaysRight dom store.old store.new }
    ensures names { store.new.names ≡ made.names }
{
    let NewNames { names, numbers } = made;
    store.names.numbers_are_one();
    names.numbers_are_one();
    store.stale.clear();
    store.graph.renumber(numbers.as_slice());
    store.names = names;
}

/// The names of the cells, in the order of their numbers. A number without a cell gets that of the next cell.
fn named_anew(alloc: Global, graph: &Graph<Held>, names: &Names) -> Result<NewNames, Memory>
    ensures anew { IfOk result (λ r. AreNamedAnew graph.now.cells names.now.names
        (length names.now.names) r.numbers.items r.names.names) }
    ensures root { IfOk result (λ r. slice_get r.names.paths 0 ≡ Some []) }
    ensures few { IfOk result (λ r. length r.names.names ≤ len graph.now.cells) }
{
    names.numbers_are_one();
    let mut later = Names::new(alloc);
    let mut numbers = Vec::new(alloc);
    for number in 0..names.len() {
        let new = later.len();
        numbers.push(new)?;
        add_name_of(alloc, graph, names, number, &mut later)?;
    }
    Ok(NewNames {
        names: later,
        numbers,
    })
}

/// Adds the name that has this number, where it has a cell.
fn add_name_of(
    alloc: Global,
    graph: &Graph<Held>,
    names: &Names,
    number: usize,
    later: &mut Names,
) -> Result<(), Memory>
    requires there { number < length names.now.names }
    requires root { slice_get later.old.paths 0 ≡ Some [] }
    ensures adds { OnOk result (AddsNameOf graph.now.cells names.now.names number later.old
        later.new) }
{
    let there = has_cell(graph, number);
    if !there {
        return Ok(());
    }
    let Name { path, point } = names.get(number);
    let path = copied_path(alloc, names, path, later)?;
    later.add(Name { path, point })?;
    Ok(())
}

/// The number of a path among other names, a new one where it had none.
fn copied_path(
    alloc: Global,
    names: &Names,
    path: PathId,
    later: &mut Names,
) -> Result<PathId, Memory>
    requires there { path < length names.now.paths }
    requires root { slice_get later.old.paths 0 ≡ Some [] }
    ensures path { IfOk result (λ p. slice_get later.new.paths p ≡
        Some (path_at names.now.paths path)) }
    ensures keeps { OnOk result (KeepsNumbers later.old.paths later.new.paths) }
    ensures names { OnOk result (later.new.names ≡ later.old.names) }
{
    let mut frames = frames_of(alloc, names, path)?;
    let mut copied = PathId::root();
    while let Some(frame) = frames.pop() {
        copied = later.add_path(copied, frame)?;
    }
    Ok(copied)
}

/// The frames of a path, the last one first.
fn frames_of(alloc: Global, names: &Names, path: PathId) -> Result<Vec<NameFrame>, Memory>
    requires there { path < length names.now.paths }
    ensures frames { IfOk result (λ frames. frames.items ≡ path_at names.now.paths path) }
{
    let mut frames = Vec::new(alloc);
    let mut rest = path;
    while let Some((before, frame)) = names.last_frame(rest) {
        frames.push(frame)?;
        rest = before;
    }
    Ok(frames)
}

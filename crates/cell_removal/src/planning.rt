//! The cells that are computed from some cells, in the order in which they can be taken away.
ghost use Rattle.std.specs.Prelude.{◌≡◌, ◌<◌, [], length, vec_len, IsSome, IfOk, OnOk};
ghost use Rattle.std.specs.FinMap as map;
ghost use Rattle.daig_graph.specs.Held.{IsIn};
ghost use Rattle.daig_graph.specs.Cells.{AreCells};
ghost use Rattle.cell_removal.specs.Removal.{Adds, IsNext, IsOrder, IsRising, Removes};
ghost use Rattle.cell_removal.specs.Marks.{AreMarked, HasMark, HasRoomForAll};
ghost use Rattle.cell_removal.specs.Turns.{AreOpenUsers, IsOpened, TurnsTop};

use crate::bit_set::BitSet;
use base_values::Memory;
use daig_graph::{Dependents, Graph};
use std::alloc::Global;
use std::marker::Model;

/// Cells that can be taken away, each after those that use it.
#[derive(Drop)]
pub struct RemovalOrder {
    cells: Vec<usize>,
}

impl Model for RemovalOrder {
    ghost use Rattle.std.specs.Prelude.{List, ℕ};

    ghost Value = { List ℕ };

    ghost view = { λ p. p.cells.items };
}

impl RemovalOrder {
    /// The cells, in the order of removal.
    #[inline]
    pub fn cells(&self) -> &[usize]
        ensures same { result.now ≡ self.now }
    {
        self.cells.as_slice()
    }
}

/// A cell that is to be taken away, and its uses that are still to be looked at.
#[derive(Drop)]
struct Open<'a> {
    cell: usize,
    users: Dependents<'a>,
}

/// The next user that is not marked yet.
#[tactic(auto, using(crate::proofs::Users::behind_first, crate::proofs::Users::behind_next, crate::proofs::Users::behind_found, crate::proofs::Users::behind_all))]
#[inline]
fn next_user(users: &mut Dependents<'_>, marks: &BitSet) -> Option<usize>
    ensures next { IsNext (HasMark marks.now) users.old users.new result }
{
    'users: while let Some(user) = users.next() {
        if !marks.has(user.cell) {
            return Some(user.cell);
        }
    }
    None
}

/// A cell with all its uses.
#[tactic(auto, using(crate::proofs::Turns::opens))]
#[inline]
fn opened<V>(graph: &Graph<V>, cell: usize) -> Open<'_>
    ensures opened { IsOpened graph.now.cells cell result }
{
    Open {
        cell,
        users: graph.dependents(cell),
    }
}

/// Goes on with the cell on top: its next user that is not marked is marked and comes above it; where there is none, it is
/// planned and taken off.
#[inline]
fn turn<'a, V>(
    graph: &'a Graph<V>,
    marks: &mut BitSet,
    planned: &mut Vec<usize>,
    stack: &mut Vec<Open<'a>>,
) -> Result<(), Memory>
    requires some { 0 < vec_len stack.old }
    requires users { AreOpenUsers graph.now.cells stack.old.items }
    requires room { HasRoomForAll graph.now.cells marks.old }
    ensures turns { OnOk result (TurnsTop graph.now.cells marks.old planned.old.items marks.new
        planned.new.items stack.old.items stack.new.items) }
    ensures room { length marks.new ≡ length marks.old }
{
    let last = stack.len() - 1;
    let top = &mut stack[last];
    match next_user(&mut top.users, &*marks) {
        None => {
            planned.push(top.cell)?;
            let _planned = stack.pop();
        }
        Some(user) => {
            marks.add(user);
            stack.push(opened(graph, user))?;
        }
    }
    Ok(())
}

/// Plans a cell and all that are computed from it, depth first: each cell after its users. What is planned is marked. The
/// stack is empty before and after.
#[tactic(auto, using(crate::proofs::Turns::walking_first, crate::proofs::Turns::walking_turn, crate::proofs::Turns::turns_fall, crate::proofs::Turns::walking_last, crate::proofs::Whole::adds_there))]
#[inline]
fn add<'a, V>(
    graph: &'a Graph<V>,
    cell: usize,
    marks: &mut BitSet,
    planned: &mut Vec<usize>,
    stack: &mut Vec<Open<'a>>,
) -> Result<(), Memory>
    requires rising { IsRising graph.now.cells }
    requires there { IsSome (map.get graph.now.cells cell) }
    requires order { IsOrder graph.now.cells planned.old.items }
    requires marked { AreMarked marks.old planned.old.items }
    requires room { HasRoomForAll graph.now.cells marks.old }
    requires empty { stack.old.items ≡ [] }
    ensures order { OnOk result (IsOrder graph.now.cells planned.new.items) }
    ensures adds { OnOk result (Adds graph.now.cells cell planned.old.items planned.new.items) }
    ensures marked { OnOk result (AreMarked marks.new planned.new.items) }
    ensures room { length marks.new ≡ length marks.old }
    ensures empty { OnOk result (stack.new.items ≡ []) }
{
    if marks.has(cell) {
        return Ok(());
    }
    marks.add(cell);
    stack.push(opened(graph, cell))?;
    'users: while stack.len() > 0 {
        turn(graph, marks, planned, stack)?;
    }
    Ok(())
}

/// The removal of these cells and of all that are computed from them.
///
/// # Errors
///
/// [`Memory`] alone.
#[tactic(auto, using(crate::proofs::Whole::removes_none, crate::proofs::Whole::removes_more, crate::proofs::Whole::touched_there, crate::proofs::Whole::removes_all))]
#[inline]
pub fn removal<V>(
    alloc: Global,
    graph: &Graph<V>,
    touched: &[usize],
) -> Result<RemovalOrder, Memory>
    requires rising { IsRising graph.now.cells }
    requires cells { AreCells graph.now.cells touched.now }
    ensures removes { IfOk result (Removes graph.now.cells (IsIn touched.now)) }
{
    let mut cells = Vec::new(alloc);
    if touched.len() == 0 {
        return Ok(RemovalOrder { cells });
    }
    let mut marks = BitSet::with_room(alloc, graph.room())?;
    let mut stack = Vec::new(alloc);
    for cell in touched {
        add(graph, *cell, &mut marks, &mut cells, &mut stack)?;
    }
    Ok(RemovalOrder { cells })
}

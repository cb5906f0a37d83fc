//! The inputs of cells, and the uses of each cell.
ghost use Rattle.std.specs.Prelude.{◌≡◌, ◌≢◌, ℕ, ◌↔◌, ◌<◌, ◌≤◌, ◌+◌, ◌^◌, [], None, Some, IsSome, OnOk, OnErr, length, map, max, suc, take, slice_get, slice_set};
ghost use Rattle.daig_graph.specs.declared.links.Beside.{Beside};
ghost use Rattle.daig_graph.specs.declared.graph.Use.{Use};
ghost use Rattle.daig_graph.specs.Held.{IsIn, IsOnce};
ghost use Rattle.daig_graph.specs.Numbers.{renumbered};
ghost use Rattle.daig_graph.specs.Threads.{inputs_at, first_at, besides, beside_at, AllBelow, AreSame, AreThreadedWith, CanBeTaken, HasRoom, HaveOneShape, PutsUse, TakesOut, Threads};

use crate::dependents::Dependents;
use crate::graph::Use;
use crate::inputs::Inputs;
use crate::links::{Beside, Links, UseLink};
use crate::room::make_room;
use base_values::Memory;
use smallvec::SmallVec;
use std::alloc::{AllocError, Global};
use std::marker::Model;
use std::mem;

/// The inputs of each number, and the uses of each, on lists that are threaded through them.
#[derive(Drop)]
pub(crate) struct Uses {
    inputs: Vec<Inputs>,
    links: Vec<Links>,
}

impl Model for Uses {
    ghost use Rattle.std.specs.Prelude.{List, ℕ};

    ghost Value = { List (List ℕ) };

    ghost use Rattle.daig_graph.specs.Threads.{AreThreaded};

    ghost view = { λ a. a.inputs.items };

    ghost invariant = { λ a. AreThreaded a.inputs.items a.links.items };
}

impl Uses {
    /// No number has a place. It takes no memory yet.
    #[inline]
    pub(crate) fn new(alloc: Global) -> Uses
        ensures empty { result ≡ [] }
    {
        Uses {
            inputs: Vec::new(alloc),
            links: Vec::new(alloc),
        }
    }

    /// A place for this number, and for all below it. It takes as many steps as there are new places.
    pub(crate) fn reserve(&mut self, alloc: Global, cell: usize) -> Result<(), AllocError>
        ensures place { OnOk result (cell < length self.new) }
        ensures same { (n : ℕ) → inputs_at self.new n ≡ inputs_at self.old n }
        ensures kept { length self.old ≤ length self.new }
        ensures most { length self.new ≤ max (length self.old) (suc cell) }
    {
        make_room(&mut self.inputs, cell)?;
        make_room(&mut self.links, cell)?;
        while self.inputs.len() <= cell {
            self.inputs.reserve(1)?;
            self.links.push(Links::new(alloc))?;
            self.inputs.push_reserved(Inputs::new(alloc));
        }
        Ok(())
    }

    /// The inputs of a number.
    #[inline]
    pub(crate) fn inputs(&self, cell: usize) -> &[usize]
        requires place { cell < length self.now }
        ensures inputs { result.now ≡ inputs_at self.now cell }
    {
        self.inputs[cell].as_slice()
    }

    /// The uses of a number.
    #[inline]
    pub(crate) fn uses(&self, cell: usize) -> Dependents<'_>
        ensures once { IsOnce result }
        ensures uses { (u : Use) → IsIn result u ↔
            (slice_get (inputs_at self.now u.cell) u.place ≡ Some cell) }
    {
        Dependents {
            links: self.links.as_slice(),
            next: first_use(self.links.as_slice(), cell),
        }
    }

    /// Gives a number that has no inputs these. It takes as many steps as there are.
    #[inline(always)]
    pub(crate) fn set(&mut self, cell: usize, inputs: Inputs) -> Result<(), Memory>
        requires place { cell < length self.old }
        requires none { inputs_at self.old cell ≡ [] }
        requires inputs { AllBelow inputs (length self.old) }
        ensures set { OnOk result (self.new ≡ slice_set self.old cell inputs) }
        ensures err { OnErr result (self.new ≡ self.old) }
    {
        reserve_links(&mut self.links, cell, inputs.len())?;
        link_all(&mut self.links, cell, inputs.as_slice());
        self.inputs[cell] = inputs;
        Ok(())
    }

    /// Takes all inputs of a number away. It takes as many steps as there are, and no memory.
    #[inline]
    pub(crate) fn clear(&mut self, alloc: Global, cell: usize)
        requires place { cell < length self.old }
        ensures cleared { self.new ≡ slice_set self.old cell [] }
    {
        unlink_all(&mut self.links, cell, self.inputs[cell].as_slice());
        self.inputs[cell] = Inputs::new(alloc);
    }

    /// The inputs of a number, by their new numbers, become those of another, which has none and is not greater; or they
    /// are its own. It takes as many steps as there are, and no memory.
    pub(crate) fn move_inputs(&mut self, alloc: Global, cell: usize, to: usize, new_of: &[usize])
        requires place { cell < length self.old }
        requires to { to ≤ cell }
        requires none { to ≢ cell → inputs_at self.old to ≡ [] }
        requires below { AllBelow (map (renumbered new_of.now) (inputs_at self.old cell))
            (length self.old) }
        ensures moved { self.new ≡ slice_set (slice_set self.old cell []) to
            (map (renumbered new_of.now) (inputs_at self.old cell)) }
    {
        // the room for the uses is no less than there are
        let _count = self.links[cell].beside.len();
        unlink_all(&mut self.links, cell, self.inputs[cell].as_slice());
        let mut inputs = mem::replace(&mut self.inputs[cell], Inputs::new(alloc));
        move_room(alloc, &mut self.links, cell, to);
        inputs.renumber(new_of);
        link_all(&mut self.links, to, inputs.as_slice());
        self.inputs[to] = inputs;
    }

    /// Gives back the places from this number on, which have no inputs and no uses.
    pub(crate) fn cut(&mut self, room: usize)
        requires none { (n : ℕ) → room ≤ n → inputs_at self.old n ≡ [] }
        requires below { (n : ℕ) → AllBelow (inputs_at self.old n) room }
        ensures cut { self.new ≡ take room self.old }
    {
        self.inputs.truncate(room);
        self.links.truncate(room);
        self.inputs.shrink_to_fit();
        self.links.shrink_to_fit();
    }
}

/// The first use of a number, or none.
#[inline]
fn first_use(links: &[Links], cell: usize) -> UseLink
    ensures first { result ≡ first_at links.now cell }
{
    match links.get(cell) {
        Some(links) => links.first,
        None => UseLink::none(),
    }
}

/// Room for the neighbours of so many uses of a number that has none.
#[inline(always)]
fn reserve_links(links: &mut Vec<Links>, cell: usize, count: usize) -> Result<(), AllocError>
    requires place { cell < length links.old.items }
    requires none { besides links.old.items cell ≡ [] }
    ensures room { OnOk result (HasRoom links.new.items cell count) }
    ensures same { AreSame links.old.items links.new.items }
{
    links[cell].beside.reserve(count)
}

/// The room for the neighbours of a number's uses becomes that of another. Neither has any.
fn move_room(alloc: Global, links: &mut Vec<Links>, cell: usize, to: usize)
    requires cell { cell < length links.old.items }
    requires to { to < length links.old.items }
    requires none { besides links.old.items cell ≡ [] }
    requires none_there { besides links.old.items to ≡ [] }
    ensures room { (count : ℕ) → HasRoom links.old.items cell count →
        HasRoom links.new.items to count }
    ensures same { AreSame links.old.items links.new.items }
{
    let beside = mem::replace(&mut links[cell].beside, SmallVec::new(alloc));
    links[to].beside = beside;
}

/// Puts the uses of these inputs of a cell, which has none yet, on their lists.
#[inline]
fn link_all(links: &mut Vec<Links>, cell: usize, inputs: &[usize])
    requires cell { suc cell < 2 ^ 64 }
    requires room { HasRoom links.old.items cell (length inputs.now) }
    requires threaded { AreThreadedWith links.old.items cell [] }
    requires inputs { AllBelow inputs.now (length links.old.items) }
    ensures threads { Threads links.old.items links.new.items cell [] inputs.now }
{
    for (place, input) in inputs.iter().enumerate() {
        link_one(links, cell, place, *input);
    }
}

/// Takes the uses of all inputs of a cell off their lists, from the last on.
#[inline]
fn unlink_all(links: &mut Vec<Links>, cell: usize, inputs: &[usize])
    requires threaded { AreThreadedWith links.old.items cell inputs.now }
    ensures threads { Threads links.old.items links.new.items cell inputs.now [] }
    ensures room { (count : ℕ) → HasRoom links.old.items cell count →
        HasRoom links.new.items cell (count + length inputs.now) }
{
    let mut place = inputs.len();
    while place > 0 {
        place -= 1;
        unlink_last(links, cell, place, inputs[place]);
    }
}

/// Puts a use, the next of its cell, before the list of its input.
#[inline]
fn link_one(links: &mut Vec<Links>, cell: usize, place: usize, input: usize)
    requires cell { suc cell < 2 ^ 64 }
    requires there { cell < length links.old.items }
    requires place { place ≡ length (besides links.old.items cell) }
    requires input { input < length links.old.items }
    requires room { HasRoom links.old.items cell 1 }
    requires first { (u : Use) → first_at links.old.items input ≡ Some u →
        IsSome (beside_at links.old.items u) }
    ensures puts { PutsUse links.old.items links.new.items
        (record { cell = cell; place = place }) input }
    ensures room { (count : ℕ) → HasRoom links.old.items cell (suc count) →
        HasRoom links.new.items cell count }
{
    let link = UseLink::to(cell, place);
    let next = links[input].first;
    links[input].first = link;
    links[cell].beside.push_reserved(Beside {
        before: UseLink::none(),
        next,
    });
    set_before(links, next, link);
}

/// Takes the last use of a cell off the list of its input.
#[inline]
fn unlink_last(links: &mut Vec<Links>, cell: usize, place: usize, input: usize)
    requires place { length (besides links.old.items cell) ≡ suc place }
    requires input { input < length links.old.items }
    requires neighbours { CanBeTaken links.old.items (record { cell = cell; place = place }) }
    ensures takes { TakesOut links.old.items links.new.items
        (record { cell = cell; place = place }) input }
    ensures room { (count : ℕ) → HasRoom links.old.items cell count →
        HasRoom links.new.items cell (suc count) }
{
    if let Some(beside) = links[cell].beside.pop() {
        set_next(links, input, beside.before, beside.next);
        set_before(links, beside.next, beside.before);
    }
}

/// Another use, or none, comes before that of a link, if there is one.
#[inline]
fn set_before(links: &mut Vec<Links>, link: UseLink, before: UseLink)
    requires there { (u : Use) → link ≡ Some u → IsSome (beside_at links.old.items u) }
    ensures set { (u : Use) (b : Beside) → link ≡ Some u → beside_at links.old.items u ≡ Some b →
        beside_at links.new.items u ≡ Some (record b { before = before }) }
    ensures others { (u : Use) → link ≢ Some u →
        beside_at links.new.items u ≡ beside_at links.old.items u }
    ensures firsts { (n : ℕ) → first_at links.new.items n ≡ first_at links.old.items n }
    ensures shape { HaveOneShape links.old.items links.new.items }
{
    if let Some(Use { cell, place }) = link.used() {
        let beside = links[cell].beside.as_mut_slice();
        beside[place].before = before;
    }
}

/// Another use, or none, comes after that of a link, or is the first of a number where there is no link.
#[inline]
fn set_next(links: &mut Vec<Links>, number: usize, link: UseLink, next: UseLink)
    requires number { number < length links.old.items }
    requires there { (u : Use) → link ≡ Some u → IsSome (beside_at links.old.items u) }
    ensures set { (u : Use) (b : Beside) → link ≡ Some u → beside_at links.old.items u ≡ Some b →
        beside_at links.new.items u ≡ Some (record b { next = next }) }
    ensures others { (u : Use) → link ≢ Some u →
        beside_at links.new.items u ≡ beside_at links.old.items u }
    ensures first { link ≡ None → first_at links.new.items number ≡ next }
    ensures firsts { (n : ℕ) → (link ≡ None → n ≢ number) →
        first_at links.new.items n ≡ first_at links.old.items n }
    ensures shape { HaveOneShape links.old.items links.new.items }
{
    match link.used() {
        None => {
            links[number].first = next;
        }
        Some(Use { cell, place }) => {
            let beside = links[cell].beside.as_mut_slice();
            beside[place].next = next;
        }
    }
}

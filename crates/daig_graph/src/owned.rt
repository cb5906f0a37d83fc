//! The cells of a statement, on a list that it may share with others.
ghost use Rattle.std.specs.Prelude.{◌≡◌, ◌≢◌, ℕ, ◌<◌, ◌≤◌, ◌↔◌, ◌^◌, None, Some, IfSome, IsSome, OnOk, length, max, suc, take, slice_set};
ghost use Rattle.std.specs.Iterator.{YieldsFirst, item_count};
ghost use Rattle.daig_graph.specs.Buckets.{bucket_of};
ghost use Rattle.daig_graph.specs.Held.{IsIn, IsOnce};
ghost use Rattle.daig_graph.specs.Owners.{first_owned, owned_at, next_owned, owner_at, IsListed};

use crate::graph::Graph;
use crate::links::CellLink;
use crate::room::make_room;
use std::alloc::{AllocError, Global};
use std::marker::Model;

/// How many lists the cells of all statements hang on. Numbers of statements are never used again, so their index would
/// grow as long as a session lasts; with this many lists it takes half a megabyte at most. A session gives some million
/// numbers at most, so at most some 16 statements share a list; those with numbers below this share none.
const BUCKETS: u32 = 65_536;

/// The list that the cells of a statement hang on.
#[inline]
pub(crate) fn bucket(statement: u32) -> usize
    ensures is { result ≡ bucket_of statement }
{
    (statement % BUCKETS) as usize
}

/// A cell of an owner, with its neighbours on the owner's list.
#[derive(Clone, Copy)]
pub(crate) struct OwnedCell {
    pub(crate) owner: u32,
    pub(crate) before: CellLink,
    pub(crate) next: CellLink,
}

/// The owners of cells by their numbers, and the cells of each, on lists that are threaded through them.
#[derive(Drop)]
pub(crate) struct Owned {
    members: Vec<Option<OwnedCell>>,
    firsts: Vec<CellLink>,
}

impl Model for Owned {
    ghost use Rattle.std.specs.Prelude.{length, map, option_map};
    ghost use Rattle.daig_graph.specs.Owners.{Owners};

    ghost Value = { Owners };

    ghost use Rattle.daig_graph.specs.declared.owned.OwnedCell.{OwnedCell};
    ghost use Rattle.daig_graph.specs.Owners.{AreOwned};

    ghost view = { λ a. record {
      of = map (option_map (λ (o : OwnedCell). o.owner)) a.members.items;
      lists = length a.firsts.items;
    } };

    ghost invariant = { λ a. AreOwned a.members.items a.firsts.items };
}

impl Owned {
    /// No number has a place. It takes no memory yet.
    #[inline]
    pub(crate) fn new(alloc: Global) -> Owned
        ensures cells { length result.of ≡ 0 }
    {
        Owned {
            members: Vec::new(alloc),
            firsts: Vec::new(alloc),
        }
    }

    /// How many lists have a place.
    #[inline]
    pub(crate) fn lists(&self) -> usize
        ensures lists { result ≡ self.now.lists }
    {
        self.firsts.len()
    }

    /// A place for this number and this list, and for all below them. It takes as many steps as there are new places.
    pub(crate) fn reserve(&mut self, cell: usize, list: usize) -> Result<(), AllocError>
        ensures place { OnOk result (cell < length self.new.of) }
        ensures list { OnOk result (list < self.new.lists) }
        ensures same { (n : ℕ) → owner_at self.new.of n ≡ owner_at self.old.of n }
        ensures kept { length self.old.of ≤ length self.new.of }
        ensures most { length self.new.of ≤ max (length self.old.of) (suc cell) }
    {
        make_room(&mut self.members, cell)?;
        while self.members.len() <= cell {
            self.members.push(None)?;
        }
        while self.firsts.len() <= list {
            self.firsts.push(CellLink::none())?;
        }
        Ok(())
    }

    /// The owner of a cell.
    #[inline]
    pub(crate) fn owner(&self, cell: usize) -> Option<u32>
        ensures owner { result ≡ owner_at self.now.of cell }
    {
        match self.members.get(cell) {
            Some(Some(member)) => Some(member.owner),
            _ => None,
        }
    }

    /// Gives a cell that has no owner this one.
    #[inline]
    pub(crate) fn put(&mut self, cell: usize, owner: u32)
        requires place { cell < length self.old.of }
        requires none { owner_at self.old.of cell ≡ None }
        requires list { bucket_of owner < self.old.lists }
        ensures put { self.new ≡ record self.old { of = slice_set self.old.of cell (Some owner) } }
    {
        let list = bucket(owner);
        let next = self.firsts[list];
        let link = CellLink::to(cell);
        self.firsts[list] = link;
        self.members[cell] = Some(OwnedCell {
            owner,
            before: CellLink::none(),
            next,
        });
        set_before(&mut self.members, next, link);
    }

    /// Takes a cell away from its owner, if it has one, which is told.
    #[inline]
    pub(crate) fn take(&mut self, cell: usize) -> Option<u32>
        requires place { cell < length self.old.of }
        ensures owner { result ≡ owner_at self.old.of cell }
        ensures listed { IfSome result (λ o. bucket_of o < self.old.lists) }
        ensures taken { self.new ≡ record self.old { of = slice_set self.old.of cell None } }
    {
        let OwnedCell {
            owner,
            before,
            next,
        } = self.members[cell]?;
        self.members[cell] = None;
        set_before(&mut self.members, next, before);
        match before.cell() {
            None => {
                self.firsts[bucket(owner)] = next;
            }
            Some(_) => set_next(&mut self.members, before, next),
        }
        Some(owner)
    }

    /// A cell is called by another number, which has no owner and is not greater; or by its own. It takes no memory.
    pub(crate) fn move_cell(&mut self, cell: usize, to: usize)
        requires place { cell < length self.old.of }
        requires to { to ≤ cell }
        requires none { to ≢ cell → owner_at self.old.of to ≡ None }
        ensures moved { self.new ≡ record self.old {
          of = slice_set (slice_set self.old.of cell None) to (owner_at self.old.of cell);
        } }
    {
        if let Some(owner) = self.take(cell) {
            self.put(to, owner);
        }
    }

    /// Gives back the places from this number on, which have no owners.
    pub(crate) fn cut(&mut self, room: usize)
        requires none { (n : ℕ) → room ≤ n → owner_at self.old.of n ≡ None }
        ensures cut { self.new ≡ record self.old { of = take room self.old.of } }
    {
        self.members.truncate(room);
        self.members.shrink_to_fit();
    }

    /// The cells on a list.
    #[inline]
    pub(crate) fn items(&self, list: usize) -> Shared<'_>
        ensures once { IsOnce result }
        ensures items { (x : ℕ) → IsIn result x ↔ IsListed self.now.of list x }
    {
        Shared {
            members: self.members.as_slice(),
            next: first_cell(self.firsts.as_slice(), list),
        }
    }
}

/// The first cell of a list, or none.
#[inline]
fn first_cell(firsts: &[CellLink], list: usize) -> CellLink
    ensures first { result ≡ first_owned firsts.now list }
{
    match firsts.get(list) {
        Some(first) => *first,
        None => CellLink::none(),
    }
}

/// Another cell, or none, comes before that of a link, if there is one.
#[inline]
fn set_before(members: &mut Vec<Option<OwnedCell>>, link: CellLink, before: CellLink)
    requires there { (n : ℕ) → link ≡ Some n → n < length members.old.items }
    ensures set { (n : ℕ) (m : _) → link ≡ Some n → owned_at members.old.items n ≡ Some m →
        owned_at members.new.items n ≡ Some (record m { before = before }) }
    ensures others { (n : ℕ) → (link ≡ Some n → owned_at members.old.items n ≡ None) →
        owned_at members.new.items n ≡ owned_at members.old.items n }
    ensures places { length members.new.items ≡ length members.old.items }
{
    if let Some(cell) = link.cell() {
        if let Some(member) = &mut members[cell] {
            member.before = before;
        }
    }
}

/// Another cell, or none, comes after that of a link, if there is one.
#[inline]
fn set_next(members: &mut Vec<Option<OwnedCell>>, link: CellLink, next: CellLink)
    requires there { (n : ℕ) → link ≡ Some n → n < length members.old.items }
    ensures set { (n : ℕ) (m : _) → link ≡ Some n → owned_at members.old.items n ≡ Some m →
        owned_at members.new.items n ≡ Some (record m { next = next }) }
    ensures others { (n : ℕ) → (link ≡ Some n → owned_at members.old.items n ≡ None) →
        owned_at members.new.items n ≡ owned_at members.old.items n }
    ensures places { length members.new.items ≡ length members.old.items }
{
    if let Some(cell) = link.cell() {
        if let Some(member) = &mut members[cell] {
            member.next = next;
        }
    }
}

/// What is left of a list, seen as the list of its cells.
#[derive(Drop)]
pub(crate) struct Shared<'a> {
    members: &'a [Option<OwnedCell>],
    next: CellLink,
}

impl<'a> Model for Shared<'a> {
    ghost use Rattle.std.specs.Prelude.{List, ℕ};

    ghost Value = { List ℕ };

    ghost use Rattle.daig_graph.specs.Owners.{next_owned, owned_from};
    ghost use Rattle.daig_graph.specs.Walks.{IsWalk};

    ghost view = { λ a. owned_from a.members.now a.next };

    ghost invariant = { λ a. IsWalk (next_owned a.members.now) a.next
        (owned_from a.members.now a.next) };
}

impl<'a> Iterator for Shared<'a> {
    type Item = usize;

    ghost next_gives = { YieldsFirst (λ rest. rest) };

    ghost remaining = { item_count (λ rest. rest) };

    #[inline]
    fn next(&mut self) -> Option<usize> {
        let cell = self.next.cell()?;
        self.next = cell_after(self.members, cell);
        Some(cell)
    }
}

/// The cell after a cell, or none.
#[inline]
fn cell_after(members: &[Option<OwnedCell>], cell: usize) -> CellLink
    ensures next { result ≡ next_owned members.now cell }
{
    match members.get(cell) {
        Some(Some(member)) => member.next,
        _ => CellLink::none(),
    }
}

/// What is left of the cells of a statement, seen as the list of their numbers.
#[derive(Drop)]
pub struct OwnedCells<'a, V> {
    pub(crate) graph: &'a Graph<V>,
    pub(crate) statement: u32,
    // the cells on its list, also those of other statements
    pub(crate) shared: Shared<'a>,
}

impl<'a, V> Model for OwnedCells<'a, V> {
    ghost use Rattle.std.specs.Prelude.{List, ℕ};
    ghost use Rattle.std.specs.List.{filter};
    ghost use Rattle.daig_graph.specs.Cells.{is_owned};

    ghost Value = { List ℕ };

    ghost view = { λ a. filter (is_owned a.graph.now.cells a.statement) a.shared };
}

impl<'a, V> Iterator for OwnedCells<'a, V> {
    type Item = usize;

    ghost next_gives = { YieldsFirst (λ rest. rest) };

    ghost remaining = { item_count (λ rest. rest) };

    #[inline]
    fn next(&mut self) -> Option<usize> {
        while let Some(cell) = self.shared.next() {
            if self.graph.is_owned(cell, self.statement) {
                return Some(cell);
            }
        }
        None
    }
}

//! A page of a table.
ghost use Rattle.std.specs.Prelude.{ℕ, ◌≡◌, ◌<◌, ◌≤◌, [], length, slice_set, true, None, OnOk};
ghost use Rattle.std.specs.Option.{option_copied};
ghost use Rattle.imp_check.specs.Tables.{entry_in};

use base_values::Memory;
use imp_check::{Entry, TableSlot};
use std::alloc::Global;
use std::marker::Model;

/// How many numbers share a page.
pub(crate) const PAGE: usize = 64;

/// The places of 64 numbers in a row, seen as what stands there. A page that holds nothing may have no places, and then
/// takes no memory.
#[derive(Drop)]
pub(crate) struct Page {
    places: Vec<TableSlot>,
}

impl Model for Page {
    ghost use Rattle.std.specs.Prelude.{List, Option};
    ghost use Rattle.std.specs.Coded.{coded_list};
    ghost use Rattle.imp_check.specs.declared.entry.Entry.{Entry};
    ghost use Rattle.imp_check.specs.contracts.place.TableSlot.{the_row};

    ghost Value = { List (Option Entry) };

    ghost coded = { coded_list the_row.coded };

    ghost view = { λ a. a.places.items };
}

impl Page {
    /// A page without places.
    pub(crate) fn none(alloc: Global) -> Page
        ensures is { result ≡ [] }
    {
        Page {
            places: Vec::new(alloc),
        }
    }

    /// How many places it has.
    #[inline]
    pub(crate) fn len(&self) -> usize
        ensures is { result ≡ length self.now }
    {
        self.places.len()
    }

    /// What stands at a place.
    #[inline]
    pub(crate) fn entry(&self, place: usize) -> Option<&Entry>
        ensures is { option_copied result ≡ entry_in self.now place }
    {
        match self.places.get(place) {
            Some(slot) => slot.entry(),
            None => None,
        }
    }

    /// Makes all its places. When memory runs out it keeps those that it has.
    #[tactic(auto, using(imp_check::proofs::PutLemmas::entry_more))]
    pub(crate) fn make_places(&mut self) -> Result<(), Memory>
        ensures places { OnOk result (64 ≤ length self.new) }
        ensures kept { (n : ℕ) → entry_in self.new n ≡ entry_in self.old n }
        ensures no_less { length self.old ≤ length self.new }
    {
        while self.places.len() < PAGE {
            self.places.push(TableSlot::free())?;
        }
        Ok(())
    }

    /// Exchanges what stands at a place.
    #[tactic(auto, using(imp_check::proofs::PutLemmas::slot_get))]
    pub(crate) fn exchange(&mut self, place: usize, entry: &mut TableSlot)
        requires there { place < length self.old }
        ensures set { self.new ≡ slice_set self.old place entry.old }
        ensures taken { entry.new ≡ entry_in self.old place }
    {
        std::mem::swap(&mut self.places[place], entry);
    }

    /// Whether nothing stands on it.
    pub(crate) fn is_free(&self) -> bool
        ensures free { result ≡ true → (n : ℕ) → entry_in self.now n ≡ None }
    {
        are_free(self.places.as_slice())
    }
}

/// Whether nothing stands at these places.
fn are_free(places: &[TableSlot]) -> bool
    ensures free { result ≡ true → (n : ℕ) → entry_in places.now n ≡ None }
{
    for place in places {
        if place.entry().is_some() {
            return false;
        }
    }
    true
}

//! The list.
ghost use Rattle.std.specs.Prelude.{◌≡◌, [], ◌∷◌, ◌++◌, length, slice_get, reverse, IfOk, OnOk, OnErr};
ghost use Rattle.std.specs.Option.{option_copied};
ghost use Rattle.std.specs.Cmp.Lexicographic.{pointwise, lists_per, lists_equiv};
ghost use Rattle.std.specs.Hash as fed;
ghost use Rattle.std.specs.Hash.{items_Alike};

use base_values::Memory;
use smallvec::SmallVec;
use std::alloc::Global;
use std::default::MadeWith;
use std::hash::{Hash, Hasher};
use std::marker::Model;

/// A list, seen as the list of its items, of which the first eight take no memory.
#[derive(Debug, Drop)]
pub struct Short<T> {
    items: SmallVec<T, 8>,
}

impl<T> Model for Short<T> {
    ghost use Rattle.std.specs.Prelude.{List};
    ghost use Rattle.std.specs.Coded.{coded_list};

    ghost Value = { List T };

    ghost coded = { coded_list T.code };

    ghost view = { λ a. a.items.items };
}

impl<T> Short<T> {
    /// The items, in order.
    #[inline]
    pub fn as_slice(&self) -> &[T]
        ensures same { result.now ≡ self.now }
    {
        self.items.as_slice()
    }

    /// How many items there are.
    #[inline]
    pub fn len(&self) -> usize
        ensures count { result ≡ length self.now }
    {
        self.items.len()
    }

    /// The item at a place, counted from 0, or `None` past the end.
    #[inline]
    pub fn get(&self, at: usize) -> Option<&T>
        ensures item { option_copied result ≡ slice_get self.now at }
    {
        self.items.as_slice().get(at)
    }
}

impl<T: MadeWith<Global> + Drop> Short<T> {
    /// The empty list. It takes no memory.
    #[inline]
    pub fn new(alloc: Global) -> Short<T>
        ensures empty { result ≡ [] }
    {
        Short {
            items: SmallVec::new(alloc),
        }
    }

    /// Adds an item at the end. When memory runs out the item is dropped, and the list stays.
    #[inline]
    pub fn push(&mut self, item: T) -> Result<(), Memory>
        ensures added { OnOk result (self.new ≡ self.old ++ item ∷ []) }
        ensures unchanged { OnErr result (self.new ≡ self.old) }
    {
        self.items.push(item)?;
        Ok(())
    }
}

impl<T: MadeWith<Global> + Copy> Short<T> {
    /// The list of an item and then these.
    #[inline]
    pub fn with_first(alloc: Global, first: T, later: &[T]) -> Result<Short<T>, Memory>
        ensures same { IfOk result (λ items. items ≡ first ∷ later.now) }
    {
        let mut items = SmallVec::new(alloc);
        items.push(first)?;
        items.extend_from_slice(later)?;
        Ok(Short { items })
    }

    /// The list of these items, the last one first.
    #[inline]
    pub fn reversed(alloc: Global, items: &[T]) -> Result<Short<T>, Memory>
        ensures same { IfOk result (λ z. z ≡ reverse items.now) }
    {
        let items: SmallVec<T, 8> = items.iter().rev().copied().collect(alloc)?;
        Ok(Short { items })
    }
}

impl<T: PartialEq> PartialEq for Short<T> {
    ghost eq = { pointwise T.eq };

    ghost laws = { lists_per T.laws };

    #[inline]
    fn eq(&self, other: &Short<T>) -> bool {
        self.items == other.items
    }
}

impl<T: Eq> Eq for Short<T> {
    ghost laws = { lists_equiv T.Eq.laws };
}

impl<T: Hash> Hash for Short<T> {
    ghost hash_input = { fed.slice T.hash_input };

    ghost respects_eq = { (items_Alike (record { fed = T.respects_eq })).fed };

    #[inline]
    fn hash<H: Hasher>(&self, state: &mut H) {
        self.items.hash(state);
    }
}

//! The elements of arrays, shared until written.
ghost use Rattle.std.specs.Prelude.{◌≡◌, ◌<◌, ◌≤◌, ℤ, pos, [], length, replicate, slice_get, slice_set, IfOk};

use base_values::Memory;
use std::alloc::Global;
use std::marker::Model;
use std::rc::Rc;

/// The elements of an array, seen as their list: at most 1,000,000.
#[derive(Drop)]
pub(crate) struct Elements {
    items: Option<Rc<Vec<i64>>>,
}

impl Model for Elements {
    ghost use Rattle.std.specs.Prelude.{ℤ, List, length, ◌≤◌};
    ghost use Rattle.imp_run.specs.Held.{shared_items};

    ghost Value = { List ℤ };

    ghost view = { λ a. shared_items a.items };

    ghost invariant = { λ a. length (shared_items a.items) ≤ 1000000 };
}

impl Elements {
    /// No elements. It allocates nothing.
    pub(crate) fn none() -> Elements
        ensures none { result ≡ [] }
    {
        Elements { items: None }
    }

    /// That many elements 0.
    pub(crate) fn zeros(alloc: Global, count: usize) -> Result<Elements, Memory>
        requires few { count ≤ 1000000 }
        ensures zeros { IfOk result (λ e. e ≡ replicate count (pos 0)) }
    {
        let items = vec![in alloc; 0i64; count]?;
        let items = Rc::new(alloc, items)?;
        Ok(Elements { items: Some(items) })
    }

    /// How many elements there are.
    pub(crate) fn len(&self) -> usize
        ensures count { result ≡ length self.now }
        ensures few { result ≤ 1000000 }
    {
        match &self.items {
            Some(items) => items.as_ref().len(),
            None => 0,
        }
    }

    /// The element at a place, counted from 0.
    pub(crate) fn get(&self, at: usize) -> Option<i64>
        ensures element { result ≡ slice_get self.now at }
    {
        match &self.items {
            Some(items) => items.as_ref().get(at).copied(),
            None => None,
        }
    }

    /// The same elements, shared.
    pub(crate) fn share(&self) -> Result<Elements, Memory>
        ensures same { IfOk result (λ e. e ≡ self.now) }
    {
        match &self.items {
            Some(items) => Ok(Elements {
                items: Some(items.clone()?),
            }),
            None => Ok(Elements { items: None }),
        }
    }

    /// The elements with another value at a place. They are copied first where they are shared.
    pub(crate) fn with(self, alloc: Global, at: usize, value: i64) -> Result<Elements, Memory>
        requires there { at < length self }
        ensures is { IfOk result (λ e. e ≡ slice_set self at value) }
    {
        let Some(items) = self.items else {
            return Ok(Elements { items: None });
        };
        let mut items = own(items)?;
        items[at] = value;
        let items = Rc::new(alloc, items)?;
        Ok(Elements { items: Some(items) })
    }
}

/// The items themselves where no other owner has them, else a copy.
fn own(items: Rc<Vec<i64>>) -> Result<Vec<i64>, Memory>
    ensures same { IfOk result (λ own. own.items ≡ items.value.items) }
{
    match Rc::try_unwrap(items) {
        Ok(items) => Ok(items),
        Err(shared) => Ok(shared.as_ref().clone()?),
    }
}

//! The kinds of slots, which matrices share.
ghost use Rattle.std.specs.Prelude.{◌≡◌, IfOk};

use base_values::Memory;
use std::alloc::Global;
use std::marker::Model;
use std::rc::Rc;

/// The kinds of a matrix's slots: true for an array's length. Copies share them.
#[derive(Drop)]
pub struct Kinds {
    list: Rc<Vec<bool>>,
}

impl Model for Kinds {
    ghost use Rattle.std.specs.Prelude.{List, Bool};

    ghost Value = { List Bool };

    ghost view = { λ a. a.list.value.items };
}

impl Kinds {
    /// These kinds.
    pub fn of(alloc: Global, kinds: &[bool]) -> Result<Kinds, Memory>
        ensures items { IfOk result (λ k. k ≡ kinds.now) }
    {
        let list = Vec::from_slice(alloc, kinds)?;
        let list = Rc::new(alloc, list)?;
        Ok(Kinds { list })
    }

    /// The kinds themselves.
    #[inline]
    pub fn list(&self) -> &[bool]
        ensures value { result.now ≡ self.now }
    {
        self.list.as_ref().as_slice()
    }

    /// The same kinds, shared.
    #[inline]
    pub fn share(&self) -> Result<Kinds, Memory>
        ensures items { IfOk result (λ k. k ≡ self.now) }
    {
        let list = self.list.clone()?;
        Ok(Kinds { list })
    }
}

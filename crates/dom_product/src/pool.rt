//! The parts of states that were made last, to be handed out again where an equal one is made.
ghost use Rattle.std.specs.Prelude.{◌≡◌, IfOk, IfSome, true};
ghost use Rattle.base_values.specs.Claims.{IsDecided};

use crate::hashed::Hashed;
use base_values::Memory;
use std::alloc::Global;
use std::cell::RefCell;
use std::hash::Hash;
use std::rc::{Rc, Weak};

/// How many parts are remembered at most: the last one for each remainder of hashes.
const PLACES: usize = 4096;

/// The parts that were made last. It holds none that no state holds, and no clause says which it finds.
#[derive(Debug, Drop)]
pub struct Pool<T: Hash> {
    places: RefCell<Option<Vec<Weak<Hashed<T>>>>>,
}

impl<T: Hash + Drop> Pool<T> {
    /// A pool that knows no part. It takes no memory yet.
    pub fn new() -> Pool<T> {
        Pool {
            places: RefCell::new(None),
        }
    }

    /// The part with its owners counted: an equal one that is in use, if it is found. It fails only when memory runs out.
    pub fn share(&self, alloc: Global, part: T) -> Result<Rc<Hashed<T>>, Memory>
        requires decided { IsDecided T.eq }
        ensures same { IfOk result (λ shared. shared.value ≡ part) }
    {
        let part = Hashed::new(part);
        let place = (part.hash() % PLACES as u64) as usize;
        if let Some(known) = self.known(place, &part) {
            return Ok(known);
        }
        let shared = Rc::new(alloc, part)?;
        self.remember(alloc, place, &shared);
        Ok(shared)
    }

    /// The part at a place, if it is in use and equals this one.
    fn known(&self, place: usize, part: &Hashed<T>) -> Option<Rc<Hashed<T>>>
        ensures equal { IfSome result (λ known. T.eq known.value part.now ≡ true) }
    {
        let places = self.places.try_borrow().ok()?;
        let places = places.as_ref()?;
        let known = places.get(place)?.upgrade()?;
        if known.as_ref().equals(part) {
            Some(known)
        } else {
            None
        }
    }

    /// Remembers a part at its place. Where memory runs out it is not found later.
    fn remember(&self, alloc: Global, place: usize, part: &Rc<Hashed<T>>) {
        let Ok(mut places) = self.places.try_borrow_mut() else {
            return;
        };
        if places.is_none() {
            *places = empty_places(alloc).ok();
        }
        let Ok(part) = Rc::downgrade(part) else {
            return;
        };
        if let Some(places) = &mut *places {
            if let Some(known) = places.get_mut(place) {
                *known = part;
            }
        }
    }
}

/// Places without a part. It fails only when memory runs out.
fn empty_places<T: Hash + Drop>(alloc: Global) -> Result<Vec<Weak<Hashed<T>>>, Memory> {
    let mut places = Vec::with_capacity(alloc, PLACES)?;
    for _ in 0..PLACES {
        places.push(Weak::new())?;
    }
    Ok(places)
}

//! The states of a product.
ghost use Rattle.std.specs.Prelude.{◌≡◌, ◌&&◌, IfOk};
ghost use Rattle.std.specs.Cmp.{and_equiv, on_equiv, and_per, on_per};
ghost use Rattle.dom_product.specs.Hashes.{pair_fed, pair_Alike};

use crate::hashed::Hashed;
use base_values::Memory;
use std::hash::{Hash, Hasher};
use std::marker::Model;
use std::rc::Rc;

/// A state of one domain and one of another, seen as the pair of them. Copies share both.
#[derive(Drop)]
pub struct PairState<S: Hash, T: Hash> {
    pub(crate) first: Rc<Hashed<S>>,
    pub(crate) second: Rc<Hashed<T>>,
}

impl<S: Hash, T: Hash> Model for PairState<S, T> {
    ghost Value = { S × T };

    ghost view = { λ a. (a.first.value, a.second.value) };
}

impl<S: Hash, T: Hash> PairState<S, T> {
    /// The state of the first domain.
    #[inline]
    pub fn first(&self) -> &S
        ensures same { result.now ≡ self.now.0 }
    {
        self.first.as_ref().value()
    }

    /// The state of the second domain.
    #[inline]
    pub fn second(&self) -> &T
        ensures same { result.now ≡ self.now.1 }
    {
        self.second.as_ref().value()
    }
}

impl<S: Hash + Drop, T: Hash + Drop> PairState<S, T> {
    /// The state once more, which shares both parts. It fails where a part has too many owners to count.
    pub fn copy(&self) -> Result<PairState<S, T>, Memory>
        ensures same { IfOk result (λ copy. copy ≡ self.now) }
    {
        Ok(PairState {
            first: self.first.clone()?,
            second: self.second.clone()?,
        })
    }
}

impl<S: Hash, T: Hash> PartialEq for PairState<S, T> {
    ghost eq = { λ x y. S.eq x.0 y.0 && T.eq x.1 y.1 };

    ghost laws = { and_per (on_per (λ t. t.0) S.PartialEq.laws) (on_per (λ t. t.1) T.PartialEq.laws) };

    fn eq(&self, other: &PairState<S, T>) -> bool {
        self.first.as_ref().equals(other.first.as_ref())
            && self.second.as_ref().equals(other.second.as_ref())
    }
}

impl<S: Hash, T: Hash> Eq for PairState<S, T> {
    ghost laws = { and_equiv (on_equiv (λ t. t.0) S.Eq.laws) (on_equiv (λ t. t.1) T.Eq.laws) };
}

impl<S: Hash, T: Hash> Hash for PairState<S, T> {
    ghost hash_input = { pair_fed S.hash_input T.hash_input };

    ghost respects_eq = { (pair_Alike (record { fed = S.respects_eq })
        (record { fed = T.respects_eq })).fed };

    fn hash<H: Hasher>(&self, state: &mut H) {
        state.write_u64(self.first.as_ref().hash());
        state.write_u64(self.second.as_ref().hash());
    }
}

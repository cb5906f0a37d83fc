//! A part of a state beside its hash, so that it is hashed once.
ghost use Rattle.std.specs.Prelude.{◌≡◌, ◌<◌, ◌^◌, true};
ghost use Rattle.dom_product.specs.Hashes.{hash_of};

use base_hash::NumberHasher;
use std::hash::{Hash, Hasher};
use std::marker::Model;

/// A value beside its hash, seen as the value.
#[derive(Drop)]
pub struct Hashed<T: Hash> {
    hash: u64,
    value: T,
}

impl<T: Hash> Model for Hashed<T> {
    ghost use Rattle.std.specs.Prelude.{◌≡◌};

    ghost Value = { T };

    ghost coded = { T.code };

    ghost use Rattle.dom_product.specs.Hashes.{hash_of};

    ghost view = { λ a. a.value };

    ghost invariant = { λ a. a.hash ≡ hash_of (T.hash_input a.value) };
}

impl<T: Hash> Hashed<T> {
    /// The value beside its hash.
    #[tactic(auto, unfolding(crate::specs::Hashes::hash_of))]
    pub fn new(value: T) -> Hashed<T>
        ensures same { result ≡ value }
    {
        let mut hasher = NumberHasher::default();
        value.hash(&mut hasher);
        Hashed {
            hash: hasher.finish(),
            value,
        }
    }

    /// The value.
    #[inline]
    pub fn value(&self) -> &T
        ensures same { result.now ≡ self.now }
    {
        &self.value
    }

    /// The hash, which equal values have in common.
    #[inline]
    pub fn hash(&self) -> u64
        ensures hash { result ≡ hash_of (T.hash_input self.now) }
    {
        self.hash
    }

    /// Whether the values are equal. Different hashes tell that they are not.
    pub fn equals(&self, other: &Hashed<T>) -> bool
        ensures exact { result ≡ T.eq self.now other.now }
    {
        self.hash == other.hash && self.value == other.value
    }
}

//! The memory.
ghost use Rattle.std.specs.Prelude.{◌≡◌, ◌<◌, [], IfOk, IsSome, IsOk, OnOk, OnErr};
ghost use Rattle.std.specs.Map.{lookup};
ghost use Rattle.lru.specs.LruCache.{lru_cache, promoted, put_entries};
ghost use Rattle.memo_table.specs.Results.{FindsResult, LeavesResults, AddsResult};

use base_hash::NumberHashing;
use base_values::Memory;
use lru::LruCache;
use std::alloc::Global;
use std::marker::{Model, PhantomData};
use std::num::NonZeroUsize;

/// An operation's number, and those of the states that it is applied to.
#[derive(Clone, Copy, Debug, PartialEq, Eq, Hash)]
pub struct Key {
    pub operation: usize,
    pub left: Option<usize>,
    pub right: Option<usize>,
}

/// The numbers of states that operations gave, so many at most, of states of one type.
#[derive(Drop)]
pub struct Memo<S> {
    cache: LruCache<Key, usize, NumberHashing>,
    states: PhantomData<S>,
}

impl<S> Model for Memo<S> {
    ghost use Rattle.std.specs.Prelude.{ℕ};
    ghost use Rattle.lru.specs.LruCache.{LruCache as Entries};
    ghost use Rattle.memo_table.specs.declared.memo.Key.{Key};

    ghost Value = { Entries Key ℕ };

    ghost view = { λ a. a.cache };
}

impl<S> Memo<S> {
    /// No entries, and room for so many.
    #[inline]
    pub fn new(alloc: Global, capacity: usize) -> Result<Memo<S>, Memory>
        requires some { 0 < capacity }
        ensures empty { IfOk result (λ m. m ≡ lru_cache [] capacity) }
    {
        match NonZeroUsize::new(capacity) {
            Some(capacity) => {
                let cache = LruCache::with_hasher(alloc, capacity, NumberHashing::new())?;
                Ok(Memo {
                    cache,
                    states: PhantomData,
                })
            }
            None => unreachable!(),
        }
    }

    /// Forgets all entries. There is room for as many as before.
    pub fn clear(&mut self)
        ensures empty { self.new ≡ lru_cache [] self.old.cap }
    {
        self.cache.clear();
    }

    /// The number of the state that is kept for a key, or `None` where none is. It makes the entry the most recent, and
    /// takes no memory. Where all entries are results, so is this.
    #[inline]
    pub fn get(&mut self, key: &Key) -> Option<usize>
        ensures value { result ≡ lookup (⟦<Key as PartialEq>⟧.eq key.now) self.old.entries }
        ensures recent { self.new ≡ lru_cache (promoted (⟦<Key as PartialEq>⟧.eq key.now)
            self.old.entries) self.old.cap }
        ensures found { FindsResult S self.old.entries key.now result }
        ensures results { LeavesResults S self.old.entries self.new.entries }
    {
        self.cache.get(key).copied()
    }

    /// Keeps the number of a state for a key, as the most recent entry. Where the memory is full and the key is new, the
    /// least recent entry goes. Out of memory changes nothing, and never comes for a key that is there.
    #[inline]
    pub fn keep(&mut self, key: Key, value: usize) -> Result<(), Memory>
        ensures kept { OnOk result (self.new ≡ lru_cache
            (put_entries ⟦<Key as PartialEq>⟧.eq self.old key value) self.old.cap) }
        ensures unchanged { OnErr result (self.new ≡ self.old) }
        ensures known { IsSome (lookup (⟦<Key as PartialEq>⟧.eq key) self.old.entries) →
            IsOk result }
        ensures results { AddsResult S self.old.entries key value self.new.entries }
    {
        let _replaced = self.cache.put(key, value)?;
        Ok(())
    }
}

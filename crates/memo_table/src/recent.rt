//! Results that were found last.
ghost use Rattle.std.specs.Prelude.{◌≡◌, ◌<◌, ◌≤◌, ◌⊎◌, ℕ, Some, [], length, IfOk, IfSome, IsSome, Contains};
ghost use Rattle.std.specs.Bool.{Decides};
ghost use Rattle.memo_table.specs.Recent.{HasSameNumbers, HasSmallNumbers, IsSmall, index_of, key_of, number_of};

use crate::Key;
use base_values::Memory;
use std::alloc::Global;
use std::marker::Model;

/// How many places there are at most.
const MOST_PLACES: usize = 4096;

/// A place for a key and for the number of a state. Each number of the key stands as one more than it is, and 0 is none:
/// a place whose operation is 0 is empty.
#[derive(Clone, Copy)]
struct Place {
    operation: usize,
    left: usize,
    right: usize,
    state: usize,
}

/// An empty place.
const EMPTY: Place = Place {
    operation: 0,
    left: 0,
    right: 0,
    state: 0,
};

/// The numbers of states that operations gave, of the keys that were asked for last: no more of them than there are
/// places. Each key has one place, and displaces the one that stands there. It stands before a [`Memo`](crate::Memo),
/// costs less to look up, and forgets more.
#[derive(Drop)]
pub struct RecentResults {
    places: Vec<Place>,
    // the number of the last place
    last: usize,
}

impl Model for RecentResults {
    ghost use Rattle.std.specs.Prelude.{length};
    ghost use Rattle.memo_table.specs.Recent.{Recent};

    ghost Value = { Recent };

    ghost use Rattle.memo_table.specs.Recent.{entries_of, ArePlaced};

    ghost view = { λ r. record { entries = entries_of r.places.items; places = length r.places.items } };

    ghost invariant = { λ r. ArePlaced r.last r.places.items };
}

/// One more than a number, or 0 for none. `None` where that does not fit.
#[inline]
fn coded(number: Option<usize>) -> Option<usize>
    ensures is { IfSome result (λ n. number_of n ≡ number) }
    ensures some { IsSmall number → IsSome result }
{
    match number {
        None => Some(0),
        Some(number) => number.checked_add(1),
    }
}

/// A place that holds the number of a state for a key. `None` where a number of the key is the largest there is.
#[inline]
fn filled(key: &Key, state: usize) -> Option<Place>
    ensures key { IfSome result (λ p. key_of p ≡ Some key.now) }
    ensures state { IfSome result (λ p. p.state ≡ state) }
    ensures some { HasSmallNumbers key.now → IsSome result }
{
    Some(Place {
        operation: key.operation.checked_add(1)?,
        left: coded(key.left)?,
        right: coded(key.right)?,
        state,
    })
}

/// The greatest power of two that is at most so many, or 4,096 where that is less.
fn place_count(most: usize) -> usize
    requires some { 0 < most }
    ensures some { 0 < result }
    ensures most { result ≤ most }
{
    let mut count = 1;
    'doubling: while count < MOST_PLACES && count <= most / 2 {
        count *= 2;
    }
    count
}

/// Which of the places that of a key is, where the last one has this number.
#[inline]
fn index_of(place: &Place, last: usize) -> usize
    ensures is { result ≡ index_of last place.now }
    ensures within { result ≤ last }
{
    let mixed = place
        .operation
        .wrapping_mul(0x9E37_79B9)
        .wrapping_add(place.left.wrapping_mul(0x85EB_CA6B))
        .wrapping_add(place.right.wrapping_mul(0xC2B2_AE35));
    (mixed >> 13) & last
}

/// Whether two places hold the same key.
#[inline]
fn has_same_key(place: &Place, other: &Place) -> bool
    ensures is { Decides result (HasSameNumbers place.now other.now) }
{
    place.operation == other.operation && place.left == other.left && place.right == other.right
}

impl RecentResults {
    /// No results, and places for at most so many, and for at most 4,096. It takes the memory for all places.
    pub fn new(alloc: Global, most: usize) -> Result<RecentResults, Memory>
        requires some { 0 < most }
        ensures empty { IfOk result (λ r. r.entries ≡ []) }
        ensures most { IfOk result (λ r. r.places ≤ most) }
    {
        let count = place_count(most);
        let places = vec![in alloc; EMPTY; count]?;
        let last = count - 1;
        Ok(RecentResults { places, last })
    }

    /// Forgets all results.
    pub fn clear(&mut self)
        ensures empty { self.new.entries ≡ [] }
        ensures places { self.new.places ≡ self.old.places }
    {
        self.places.fill(EMPTY);
    }

    /// The number of the state that is kept for a key, or `None` where none is.
    #[inline]
    pub fn get(&self, key: &Key) -> Option<usize>
        ensures kept { IfSome result (λ n. Contains self.now.entries (key.now, n)) }
        ensures found { (n : ℕ) → HasSmallNumbers key.now →
            Contains self.now.entries (key.now, n) → result ≡ Some n }
    {
        let sought = filled(key, 0)?;
        let place = &self.places[index_of(&sought, self.last)];
        if has_same_key(place, &sought) {
            Some(place.state)
        } else {
            None
        }
    }

    /// Keeps the number of a state for a key, in place of what stands at the place of that key. Nothing is kept for a key
    /// one of whose numbers is the largest there is.
    #[inline]
    pub fn keep(&mut self, key: &Key, state: usize)
        ensures kept { HasSmallNumbers key.now → Contains self.new.entries (key.now, state) }
        ensures others { (k : Key) (n : ℕ) → Contains self.new.entries (k, n) →
            Contains self.old.entries (k, n) ⊎ ((k ≡ key.now) × (n ≡ state)) }
        ensures places { self.new.places ≡ self.old.places }
        ensures most { length self.new.entries ≤ self.new.places }
    {
        if let Some(place) = filled(key, state) {
            let index = index_of(&place, self.last);
            self.places[index] = place;
        }
    }
}

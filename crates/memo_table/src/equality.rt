//! Equality of keys and operations.
ghost use Rattle.base_values.specs.Claims.{IsDecided};
ghost use Rattle.memo_table.specs.Results.{ResultsStay};

use crate::{Key, Operation};

/// `==` tells keys and operations apart exactly where they are not the same.
pub fn equality_decides()
    ensures keys { IsDecided ⟦<Key as PartialEq>⟧.eq }
    ensures operations { IsDecided ⟦<Operation as PartialEq>⟧.eq }
{}

/// Entries that are results by some tables of operations and states are results by later ones.
pub fn results_stay<S>()
    ensures later { ResultsStay S }
{}

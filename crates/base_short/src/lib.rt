//! Short lists: eight items take no memory, and contracts see the list of the items.
//!
//! A [`Short`] is the kit's `SmallVec` with eight places of its own, seen as [`Items`](base_values::Items) are: with no
//! capacity and no allocator. Most paths, chains and ways of calls fit.
#![tactic(auto)]

ghost use Rattle.base_values.specs.Claims.{EqualityDecides};

mod short;

pub use short::Short;

/// Short lists are equal by `==` exactly where they are the same, if that holds of their items.
pub fn equality_decides<T: PartialEq>()
    ensures decides { EqualityDecides T.eq }
{}

//! The names of cells: a path, and a point of the block that the path leads to.
//!
//! A path is a list of [`NameFrame`]s from `main`: into a call of a procedure, or into a round of a loop.
//! [`Names`] keeps each path once, as a short list of its frames, of which eight take no memory of their own, and each name
//! once. So a path is one number, which all cells of a block share, and a name is three. The number of a path or
//! of a name is its place in a list that is only added to: a name has one number and a number one name.
//!
//! Contracts see the paths and the names as lists, a path as the list of its frames, the last one first.
//! Adding a path copies and hashes its frames, finding or adding a name hashes three numbers: this takes constant time on
//! average. Finding takes no memory. Where a name is asked for as the input of another one ([`Names::add_input`]), the number that it had
//! the last time is tried first. A path tells its call sites, and a name the statement that it belongs to.
#![tactic(auto)]

ghost use Rattle.base_values.specs.Claims.{IsDecided};

mod frame;
mod names;
mod near;
mod path;

pub use frame::{NameFrame, Point};
pub use names::Names;
pub use path::{Name, PathId};

/// `==` tells frames, points and names apart exactly where they are not the same.
pub fn equality_decides()
    ensures frames { IsDecided ⟦<NameFrame as PartialEq>⟧.eq }
    ensures points { IsDecided ⟦<Point as PartialEq>⟧.eq }
    ensures names { IsDecided ⟦<Name as PartialEq>⟧.eq }
{}

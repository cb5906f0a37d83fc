//! Lists, texts and numbers that contracts see as plain values, with no capacity, allocator or pointer.
//!
//! [`Items`] is a list of any type, seen as the list of its items, [`Text`] a list of bytes, and
//! [`Number`] a number of a program, 0 to 2^63 - 1.
//! So a struct of such fields needs no model of its own: its value is the record of theirs.
//! `==` compares item by item, and decides `≡` wherever that of the items does
//! ([`equality_decides`]). Copies are fallible, and equal to what they copy wherever those of the
//! items are ([`copies_are_equal`]). Hashes respect `==`.
//!
//! `specs/Equal.antt` has one set of lemmas for every type that has a code: the test `same` on its
//! codes decides `≡`, is an equivalence, and is respected by every hash.
//!
//! Reading the length or an item takes constant time, pushing too when spread over many pushes,
//! and comparing, copying and hashing take time linear in the items.
#![tactic(auto)]

ghost use Rattle.base_values.specs.Claims.{EqualityDecides, CodesDecide, CopiesAreEqual, HashesAgree};

mod error;
mod items;
mod number;
mod text;

pub use error::Memory;
pub use items::Items;
pub use number::Number;
pub use text::Text;

/// Lists are equal by `==` exactly where they are the same, if that holds of their items.
pub fn equality_decides<T: PartialEq>()
    ensures decides { EqualityDecides T.eq }
{}

/// A copy of a list is the same list, if a copy of an item is the same item.
pub fn copies_are_equal<T: Clone>()
    ensures equal { CopiesAreEqual T.is_clone }
{}

/// Two values of a type with a code are the same exactly where their codes are found equal.
pub fn codes_decide<T>()
    ensures decides { CodesDecide T }
{}

/// Values whose codes are found equal have equal hashes, whatever is hashed of them.
pub fn hashes_agree<T>()
    ensures agree { HashesAgree T }
{}

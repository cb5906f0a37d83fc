//! The product of two domains.
//!
//! A state of a [`Pair`] is a state of each domain, and describes what both describe
//! (`dom_product_meaning/specs/Product.antt` has the operations). A check is safe where either part
//! finds it so, and a state is dead where both parts are. The laws of a domain come from the laws
//! of the parts alone, so any two domains make one, pairs among them.
//!
//! Each operation costs what it costs in both parts, and hashes the two parts that it made. Both parts
//! work and tick also where one of them runs out of memory.
//!
//! A state holds its parts by reference count ([`PairState`]). A part that equals one made before, which
//! a state still holds, is that one, if it is found: a domain remembers the last part for each of 4,096
//! remainders of hashes, and compares before it hands one out. So states that differ in one part share
//! the other. Copying a state copies no part, and hashing it hashes two numbers.
#![tactic(auto)]

mod hashed;
mod pair;
mod pool;
mod state;

pub use pair::Pair;
pub use state::PairState;

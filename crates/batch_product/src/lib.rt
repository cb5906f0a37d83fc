//! What a product of two domains answers, from what its parts answer.
//!
//! `products_answer_pairs` compares whole answers, and `products_converge` says from which budget on
//! there is no Over (`specs/Claims.antt`). `proofs/Values.antt` has the relation that the first rests
//! on: where two values are states, the third is the pair of them. Each definition of batch
//! interpretation keeps it; `proofs/Rounds.antt` shows it of loops, whose iterates may come to an end
//! in one part sooner than in the other.
//!
//! The functions do nothing when they run: each carries its theorem as clauses.
#![tactic(auto)]

mod laws;

pub use laws::{products_answer_pairs, products_converge};

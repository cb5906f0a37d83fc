//! The generated source and the generated script: work for the server, from a seed and a size.
//!
//! [`source`] writes a program of `size` pieces, each drawn from eight kinds, and [`script`] the
//! requests of `size` turns, each about a statement of that program. Both are functions of the seed
//! and the size alone: `source_of` of `specs/Source.antt` and `script_of` of `specs/Script.antt`,
//! over the draws of `specs/Draws.antt`.
//!
//! Both take time and memory linear in the size.
#![tactic(auto)]

mod draws;
mod generate;
mod pieces;
mod turns;

pub use generate::{script, source};
pub use pieces::PieceKind;

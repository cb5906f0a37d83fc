//! The edge to the outside: files that are loaded, a script that is read, a sink that is written.
//!
//! A program that is proved from bytes to bytes speaks of these three traits alone. Each counts its
//! faults, and a caller learns of a failure only where that count rose. The kinds over memory tell
//! what they hold, fail where they are told to, and hand out as few bytes a call as they are told
//! to, so that a test can try each turn of events; the `Sure` kinds never fail; the adapters over
//! a real file, standard input and standard output tell nothing and are a few lines each.
//!
//! A count stays at its last value, 2^64 - 1, once it is there. Each call costs what it moves.
#![tactic(auto)]

mod adapters;
mod memory;
mod plan;
mod sure;
mod traits;

pub use adapters::{DiskFiles, InputSource, OutputSink};
pub use memory::{MemFiles, MemSink, MemSource, NamedFile};
pub use plan::FaultPlan;
pub use sure::{SureFiles, SureSink, SureSource};
pub use traits::{Failed, Files, LoadFault, Sink, Source};

//! The cells of a graph by names.
//!
//! A graph knows its cells by numbers, and a table of names gives each name its number. The definitions say which cell a
//! name has, which names have one (`specs/Named.antt`), what inputs a name has in a program (`specs/Asked.antt`), and when
//! the cells of a graph are those of a program (`specs/Holds.antt`); the engine, which fills cells, and the removal that an
//! edit asks for stand on these.
//!
//! The function does nothing when it runs; it carries its theorem as its clauses.
#![tactic(auto)]

mod laws;

pub use laws::names_find_cells;

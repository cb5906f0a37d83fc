//! Tests of single crates: what domains stand on (ranges, matrices and shape graphs drawn by hand), and the adapters.
//! They stand beside the crates that they test, since a crate with tests of its own is proved twice.
#![tactic(auto)]

#[cfg(test)]
mod adapters;
#[cfg(test)]
mod bounds;
#[cfg(test)]
mod closings;
#[cfg(test)]
mod graphs;
#[cfg(test)]
mod matrices;
#[cfg(test)]
mod steps;
#[cfg(test)]
mod texts;
#[cfg(test)]
mod thresholds;

//! That batch interpretation comes to an end of its loops: with a budget that is stated from the number of
//! slots, of thresholds and the delay, no answer is an Over.
//!
//! A domain brings a count of how often a state can still change, and says from which round on it counts (`Ending` of
//! `specs/Converges.antt`). Below the delay the iterates of a loop are joined, from there on widened. Where joins may
//! change a state again and again, as those of intervals and octagons, the rounds below the delay are spent beside the
//! count; where a join counts as a widening does, as that of list segments and of shapes, the delay costs nothing. From then
//! on an iterate that is not the last is one change fewer. For intervals the count is two for each slot and each threshold,
//! two more for each slot, and one for the state that describes nothing. For octagons it is one for each pair of nodes and
//! each threshold, one more for each pair, and one for the state that describes nothing. For list segments it is one for
//! each of 64 graphs, and one for `Top`; for shapes it is one for each of 64 graphs, one for each of their nodes, and one
//! for `Top`.
#![tactic(auto)]

mod laws;

pub use laws::{
    answers_converge, intervals_converge, octagons_converge, segments_converge, shapes_converge,
};

//! Octagon matrices: bounds on the differences and sums of integer variables, kept by half.
//!
//! A matrix bounds the values of up to 16 slots. Slot k has two nodes: node 2k stands for its
//! value x_k and node 2k + 1 for its negative -x_k. The entry (i, j) is an upper bound on
//! `v_j - v_i`, v being what the nodes stand for, or `None` where there is no bound; so
//! (1, 0) bounds 2 x_0, (0, 2) bounds x_1 - x_0, and (1, 2) bounds x_0 + x_1. The pair (i, j) and
//! its mirror image (j', i'), where i' is the node of the other sign, bound the same quantity, and
//! only one of the two is kept: the pairs with `j <= i`, or `j = i + 1` where i is even. That is
//! one vector of 2n(n + 1) entries for n slots, 544 for 16.
//!
//! Contracts speak of `entry m i j`, the bound at any pair, whichever of the two is kept, and of
//! the valuations that satisfy a matrix: those that keep every bound. The domain is that of
//! A. Miné, "The Octagon Abstract Domain", 2006.
//!
//! A matrix has up to 16 slots, so that all sums of closing fit 128 bits.
//!
//! `get` and `set_least` take constant time and no memory, and `update_slot` time for the pairs of one
//! slot alone. Every other operation is one pass over the kept entries (`widen` goes over the thresholds at
//! each entry that rises): `update` rewrites them in place, and the others make a new matrix by two
//! allocations.
#![tactic(auto)]

ghost use Rattle.dbm_core.specs.Operations.{NextThresholdIsLeast};
ghost use Rattle.dbm_core.specs.Tables.{TablesDetermine, TablesHaveEntries};

mod bounds;
mod kept;
mod matrix;
mod nodes;
mod operations;
mod thresholds;

pub use bounds::{greater, smaller};
pub use matrix::Matrix;
pub use nodes::other_sign;

/// A law, with nothing to run: the threshold that a widened bound goes to is the least of the thresholds'
/// values that is not less than the bound, and there is none exactly where all are less.
pub fn next_threshold_law()
    ensures next_threshold_is_least { NextThresholdIsLeast }
{}

/// A law, with nothing to run: a coherent table of entries is that of one matrix.
pub fn tables_law()
    ensures entries { TablesHaveEntries }
    ensures only { TablesDetermine }
{}

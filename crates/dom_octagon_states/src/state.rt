//! States of the octagons' domain, and when two are equal.
ghost use Rattle.std.specs.Prelude.{◌≡◌, ◌^◌, IfSome};
ghost use Rattle.dbm_core.specs.Limits.{IsLimited};
ghost use Rattle.std.specs.Option.{option_copied};
ghost use Rattle.dom_octagon_meaning.specs.States.{same_state, state_equiv, state_per};
ghost use Rattle.dom_octagon_states.specs.Feeding.{state_fed, state_fed-same};
ghost use Rattle.dom_octagon_states.specs.Kept.{bounded_if};

use crate::bounds::Bounds;
use crate::kept::Kept;
use std::hash::{Hash, Hasher};
use std::marker::Model;

/// A state of the octagons: nothing, or a matrix, closed or not. Its bounds are none or from -2^64 to
/// 2^64, and its diagonal is 0.
///
/// Contracts see the matrix alone. Beside one that is not closed stands what closing it answers, so
/// that a state is closed at most once, when widening makes it.
#[derive(Drop)]
pub struct OctagonState {
    pub(crate) kept: Kept,
}

impl Model for OctagonState {
    ghost use Rattle.dbm_close.specs.declared.closed.Closed.{Closed};
    ghost use Rattle.dom_octagon_states.specs.Kept.{IsKept, state_of};

    ghost Value = { Closed };

    ghost view = { λ a. state_of a.kept };

    ghost invariant = { λ a. IsKept a.kept };
}

/// The matrix of a state, closed or not, if there is one.
#[tactic(auto, using(dbm_incremental::proofs::LawLemmas::closed_limited))]
pub fn matrix_of_state(s: &OctagonState) -> Option<&Bounds>
    ensures exact { bounded_if (option_copied result) ≡ s.now }
    ensures limited { IfSome (option_copied result) (IsLimited (2 ^ 64)) }
{
    match &s.kept {
        Kept::Nothing => None,
        Kept::Bounded(matrix) => Some(matrix),
        Kept::Widened(matrix, _) => Some(matrix),
    }
}

/// Two states are equal where both are nothing, or their kinds and their entries are equal.
impl PartialEq for OctagonState {
    ghost eq = { same_state };

    ghost laws = { state_per };

    fn eq(&self, other: &OctagonState) -> bool {
        match (matrix_of_state(self), matrix_of_state(other)) {
            (None, None) => true,
            (Some(a), Some(b)) => *a == *b,
            (None, Some(_)) => false,
            (Some(_), None) => false,
        }
    }
}

impl Eq for OctagonState {
    ghost laws = { state_equiv };
}

impl Hash for OctagonState {
    ghost hash_input = { state_fed };

    ghost respects_eq = { state_fed-same };

    fn hash<H: Hasher>(&self, state: &mut H) {
        match matrix_of_state(self) {
            None => state.write_u8(0),
            Some(matrix) => {
                state.write_u8(1);
                matrix.hash(state);
            }
        }
    }
}

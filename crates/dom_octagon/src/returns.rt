//! What calls return.
ghost use Rattle.std.specs.Prelude.{◌≡◌, IfOk};
ghost use Rattle.imp_slots.specs.CallViews.{taken_of};
ghost use Rattle.dom_octagon_meaning.specs.Operations as operations;
ghost use Rattle.dom_octagon_states.specs.Limits.{IsTight};

use crate::assign::close_ranged;
use crate::evaluate::range;
use base_values::Memory;
use dom_octagon_states::{Bounds, OctagonState, closed_copy, closure, empty};
use imp_slots::Returning;
use std::alloc::Global;

/// The caller's state with the result in its place.
fn taken(
    alloc: Global,
    returning: Option<Returning>,
    m: &Bounds,
    callee: &Bounds,
) -> Result<OctagonState, Memory>
    requires tight { IsTight m.now }
    requires callee { IsTight callee.now }
    ensures exact { IfOk result (λ t. t ≡ operations.returned
        (taken_of returning) m.now callee.now) }
{
    match returning {
        None => closed_copy(m),
        Some(Returning::Link { to: _, from: _ }) => closed_copy(m),
        Some(Returning::Numeric { to, from }) => {
            close_ranged(alloc, m, to as usize, range(callee, from as usize))
        }
    }
}

/// The state after a call.
#[tactic(auto, unfolding(dom_octagon_meaning::specs::Operations::leave))]
pub fn left(
    alloc: Global,
    returning: Option<Returning>,
    s: &OctagonState,
    done: &OctagonState,
) -> Result<OctagonState, Memory>
    ensures exact { IfOk result (λ t. t ≡ operations.leave (taken_of returning) s.now done.now) }
{
    match (closure(s), closure(done)) {
        (Some(m), Some(callee)) => taken(alloc, returning, m, callee),
        (Some(_), None) => Ok(empty()),
        (None, _) => Ok(empty()),
    }
}

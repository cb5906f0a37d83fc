//! Closed states.
ghost use Rattle.std.specs.Prelude.{◌≡◌, ◌^◌, IfOk, IfSome};
ghost use Rattle.std.specs.Option.{option_copied};
ghost use Rattle.dbm_core.specs.Limits.{IsLimited};
ghost use Rattle.dbm_close.specs.declared.closed.Closed.TheVariants as variants;
ghost use Rattle.dbm_incremental.specs.ClosedMatrices.{IsClosed};
ghost use Rattle.dom_octagon_meaning.specs.States as states;
ghost use Rattle.dom_octagon_states.specs.Kept.{bounded_if};
ghost use Rattle.dom_octagon_states.specs.Limits.{IsTight};

use crate::OctagonState;
use crate::bounds::Bounds;
use crate::closing::closed_matrix;
use crate::kept::Kept;
use base_values::Memory;
use std::alloc::Global;

/// The state that describes nothing.
pub fn empty() -> OctagonState
    ensures exact { result ≡ variants.Empty }
{
    OctagonState {
        kept: Kept::Nothing,
    }
}

/// The state of a closed matrix.
pub fn bounded(m: Bounds) -> OctagonState
    requires closed { IsClosed m }
    ensures exact { result ≡ variants.Matrix m }
{
    OctagonState {
        kept: Kept::Bounded(m),
    }
}

/// The state of a matrix that is not closed.
#[tactic(auto, using(crate::proofs::Tight::limited_ready))]
pub fn widened_to(alloc: Global, m: Bounds) -> Result<OctagonState, Memory>
    requires limited { IsLimited (2 ^ 64) m }
    ensures exact { IfOk result (λ s. s ≡ variants.Matrix m) }
{
    let closed = closed_matrix(alloc, &m)?;
    Ok(OctagonState {
        kept: Kept::Widened(m, kept_matrix(closed)),
    })
}

/// The matrix of a state, if it is not empty.
fn kept_matrix(s: OctagonState) -> Option<Bounds>
    ensures exact { bounded_if result ≡ s }
{
    match s.kept {
        Kept::Nothing => None,
        Kept::Bounded(m) => Some(m),
        Kept::Widened(m, _) => Some(m),
    }
}

/// The matrix of the closed state, if it is not empty.
pub fn closure(s: &OctagonState) -> Option<&Bounds>
    ensures exact { bounded_if (option_copied result) ≡ states.closed s.now }
    ensures tight { IfSome (option_copied result) IsTight }
{
    match &s.kept {
        Kept::Nothing => None,
        Kept::Bounded(m) => Some(m),
        Kept::Widened(m, closure) => {
            let _kinds = m.kinds();
            closure.as_ref()
        }
    }
}

/// The state closed.
pub fn closed(s: &OctagonState) -> Result<OctagonState, Memory>
    ensures exact { IfOk result (λ t. t ≡ states.closed s.now) }
{
    match closure(s) {
        None => Ok(empty()),
        Some(m) => closed_copy(m),
    }
}

/// The state of a closed matrix, which shares its entries.
pub fn closed_copy(m: &Bounds) -> Result<OctagonState, Memory>
    requires tight { IsTight m.now }
    ensures exact { IfOk result (λ s. s ≡ variants.Matrix m.now) }
{
    Ok(bounded(m.copy()?))
}

/// The state once more, which shares its entries.
pub fn copy_of(s: &OctagonState) -> Result<OctagonState, Memory>
    ensures same { IfOk result (λ t. t ≡ s.now) }
{
    match &s.kept {
        Kept::Nothing => Ok(empty()),
        Kept::Bounded(m) => Ok(OctagonState {
            kept: Kept::Bounded(m.copy()?),
        }),
        Kept::Widened(m, closure) => Ok(OctagonState {
            kept: Kept::Widened(m.copy()?, copy_if(closure)?),
        }),
    }
}

/// The matrix once more, if there is one.
fn copy_if(closure: &Option<Bounds>) -> Result<Option<Bounds>, Memory>
    ensures same { IfOk result (λ c. c ≡ closure.now) }
{
    match closure {
        None => Ok(None),
        Some(m) => Ok(Some(m.copy()?)),
    }
}

/// Whether nothing is described.
#[tactic(auto, unfolding(dom_octagon_meaning::specs::States::dead))]
pub fn is_empty(s: &OctagonState) -> bool
    ensures exact { result ≡ states.dead s.now }
{
    match &s.kept {
        Kept::Nothing => true,
        Kept::Bounded(_) => false,
        Kept::Widened(_, _) => false,
    }
}

//! Octagons as texts, and their order.
ghost use Rattle.std.specs.Prelude.{◌≡◌, ◌^◌, IfOk, IfSome};
ghost use Rattle.std.specs.Option.{option_copied};
ghost use Rattle.dbm_core.specs.Limits.{IsLimited};
ghost use Rattle.dom_octagon_meaning.specs.States as states;
ghost use Rattle.dom_octagon_words.specs.Words as meant;
ghost use Rattle.dom_octagon_words.specs.Words.{octagon_port, state_in};
ghost use Rattle.dom_octagon_words.proofs.Portable.{octagon_portable};

use crate::calls::kinds;
use crate::domain::Octagon;
use base_values::{Memory, Text};
use cert_meaning::Portable;
use dbm_core::Matrix;
use dom_octagon_states::{
    Bounds, OctagonState, bounds_of, closure, empty, matrix_of_bounds, matrix_of_state, widened_to,
};
use imp_slots::Layout;
use std::alloc::Global;

/// The matrix of a state, none where it is Empty.
#[tactic(auto, using(crate::proofs::Carried::state_in_is))]
fn matrix(alloc: Global, s: &OctagonState) -> Result<Option<Matrix>, Memory>
    ensures exact { IfOk result (λ o. state_in o ≡ s.now) }
{
    wide(alloc, matrix_of_state(s))
}

/// The matrix of what closing a state answers.
#[tactic(auto, using(crate::proofs::Carried::state_in_is))]
fn closed_matrix(alloc: Global, s: &OctagonState) -> Result<Option<Matrix>, Memory>
    ensures exact { IfOk result (λ o. state_in o ≡ states.closed s.now) }
{
    wide(alloc, closure(s))
}

/// The same matrix in the entries of `dbm_core`, if there is one.
fn wide(alloc: Global, m: Option<&Bounds>) -> Result<Option<Matrix>, Memory>
    ensures same { IfOk result (λ o. o ≡ option_copied m.entry) }
{
    match m {
        None => Ok(None),
        Some(m) => Ok(Some(matrix_of_bounds(alloc, m)?)),
    }
}

/// The matrix of the state that has this text.
fn taken(alloc: Global, layouts: &[Layout], text: &[u8]) -> Result<Option<Option<Matrix>>, Memory>
    ensures exact { IfOk result (λ found. found ≡ meant.state_of_text
        (meant.last_kinds layouts.now) text.now) }
    ensures limited { IfOk result (λ found. IfSome found (λ o. IfSome o (IsLimited (2 ^ 64)))) }
{
    match layouts {
        [] => dom_octagon_words::take(alloc, None, text),
        [layout, ..] => {
            let kinds = kinds(alloc, layout.numbers())?;
            dom_octagon_words::take(alloc, Some(kinds.as_slice()), text)
        }
    }
}

/// The state of this matrix, Empty where there is none.
fn state(alloc: Global, matrix: Option<Matrix>) -> Result<OctagonState, Memory>
    requires limited { IfSome matrix (IsLimited (2 ^ 64)) }
    ensures exact { IfOk result (λ s. s ≡ state_in matrix) }
{
    match matrix {
        None => Ok(empty()),
        Some(m) => widened_to(alloc, bounds_of(alloc, m)?),
    }
}

impl Portable for Octagon {
    ghost port = { λ d. octagon_port };

    fn put(&self, alloc: Global, s: &OctagonState) -> Result<Text, Memory> {
        let matrix = matrix(alloc, s)?;
        dom_octagon_words::put(alloc, matrix.as_ref())
    }

    #[tactic(auto, using(dom_octagon_words::proofs::Portable::taken_state))]
    fn take(
        &self,
        alloc: Global,
        layouts: &[Layout],
        text: &[u8],
    ) -> Result<Option<OctagonState>, Memory> {
        match taken(alloc, layouts, text)? {
            None => Ok(None),
            Some(matrix) => Ok(Some(state(alloc, matrix)?)),
        }
    }

    fn leq(&self, alloc: Global, l: &OctagonState, r: &OctagonState) -> Result<bool, Memory> {
        let left = closed_matrix(alloc, l)?;
        let right = matrix(alloc, r)?;
        Ok(dom_octagon_words::leq(left.as_ref(), right.as_ref()))
    }

    ghost port_laws = { λ d. octagon_portable };
}

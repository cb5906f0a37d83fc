//! The join of what is known under the chains of a location.
ghost use Rattle.std.specs.Prelude.{◌≡◌, ◌<◌, length, map, reverse, Some, None, option_map, IfOk};
ghost use Rattle.batch_meaning.specs.Values as plain;
ghost use Rattle.batch_meaning.specs.Places.{value_at};
ghost use Rattle.batch_meaning.specs.Answers.{all_values, sum_of};
ghost use Rattle.batch_interp.specs.Answered.{value_of, IsAnswer};
ghost use Rattle.batch_interp.specs.Summing.{sum_with};

use crate::frames::Plan;
use crate::values::value_at;
use crate::{Answer, QueryError};
use base_values::Memory;
use batch_meaning::QueryRefusal;
use call_contexts::joined;
use domain_laws::{Domain, Steps};
use imp_syntax::{Chain, Location};
use std::alloc::Global;
use std::sync::ledger::Ledger;

/// What is known under the first chain, shed.
fn first<D: Domain, L: Ledger>(
    alloc: Global,
    dom: &D,
    next: Answer<D::State>,
    steps: &mut Steps<L>,
) -> Result<Answer<D::State>, Memory>
    ensures is { IfOk result (λ a. value_of a ≡ sum_with (D.operations dom.now) None
        (value_of next)) }
{
    match next {
        Answer::State(state) => Ok(Answer::State(joined(alloc, dom, None, &state, steps)?)),
        Answer::Over { head, chain } => Ok(Answer::Over { head, chain }),
    }
}

/// A state, with what is known under one more chain.
fn behind_state<D: Domain, L: Ledger>(
    alloc: Global,
    dom: &D,
    before: D::State,
    next: Answer<D::State>,
    steps: &mut Steps<L>,
) -> Result<Answer<D::State>, Memory>
    ensures is { IfOk result (λ a. value_of a ≡ sum_with (D.operations dom.now)
        (Some (plain.State before)) (value_of next)) }
{
    match next {
        Answer::State(state) => {
            let all = joined(alloc, dom, Some(before), &state, steps)?;
            Ok(Answer::State(all))
        }
        Answer::Over { head, chain } => Ok(Answer::Over { head, chain }),
    }
}

/// What is known so far, with what is known under one more chain: the first Over stays.
fn behind<D: Domain, L: Ledger>(
    alloc: Global,
    dom: &D,
    before: Answer<D::State>,
    next: Answer<D::State>,
    steps: &mut Steps<L>,
) -> Result<Answer<D::State>, Memory>
    ensures is { IfOk result (λ a. value_of a ≡ sum_with (D.operations dom.now)
        (Some (value_of before)) (value_of next)) }
{
    match before {
        Answer::State(state) => behind_state(alloc, dom, state, next, steps),
        Answer::Over { head, chain } => Ok(Answer::Over { head, chain }),
    }
}

/// What is known under one more chain, shed, joined to what is known under those before it: the first
/// Over where there is one.
pub(crate) fn added<D: Domain, L: Ledger>(
    alloc: Global,
    dom: &D,
    so_far: Option<Answer<D::State>>,
    next: Answer<D::State>,
    steps: &mut Steps<L>,
) -> Result<Answer<D::State>, Memory>
    ensures is { IfOk result (λ a. value_of a ≡ sum_with (D.operations dom.now)
        (option_map value_of so_far) (value_of next)) }
{
    match so_far {
        None => first(alloc, dom, next, steps),
        Some(before) => behind(alloc, dom, before, next, steps),
    }
}

/// What is known at a location under these chains, from the first to the last.
pub(crate) fn sum_of<D: Domain, L: Ledger>(
    alloc: Global,
    dom: &D,
    plan: &Plan,
    at: &Location,
    chains: &[Chain],
    steps: &mut Steps<L>,
) -> Result<Answer<D::State>, QueryError>
    requires some { 0 < length plan.now.program }
    ensures is { IsAnswer (sum_of (D.operations dom.now) plan.now.engine
        (all_values (D.operations dom.now) plan.now.engine
        (value_at (D.operations dom.now) plan.now.engine plan.now.program at.now)
        (map reverse chains.now))) result }
{
    let mut all = None;
    for chain in chains {
        match value_at(alloc, dom, plan, at, chain.sites(), steps)? {
            None => return Err(QueryError::Refused(QueryRefusal::NoStatement)),
            Some(value) => all = Some(added(alloc, dom, all, value, steps)?),
        }
    }
    match all {
        None => Err(QueryError::Refused(QueryRefusal::NoChain)),
        Some(answer) => Ok(answer),
    }
}

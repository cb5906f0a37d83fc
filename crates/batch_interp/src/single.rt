//! Single steps: after a simple statement, after a break, and the join of states.
ghost use Rattle.std.specs.Prelude.{◌≡◌, ◌++◌, ◌∷◌, [], IfOk, OnOk};
ghost use Rattle.imp_slots.specs.Plain.{Does, DoBreak};
ghost use Rattle.imp_slots.specs.ActionViews.{effect_of};
ghost use Rattle.batch_meaning.specs.Values as plain;
ghost use Rattle.batch_meaning.specs.Batch.{LoopOptions, joined};
ghost use Rattle.batch_interp.specs.Passing.{states};

use base_values::{Items, Memory};
use domain_laws::{Domain, Steps};
use imp_slots::{SlotAction, SlotStmt};
use std::alloc::Global;
use std::sync::ledger::Ledger;

/// After a simple statement. It fails only when memory runs out.
pub fn behind_action<D: Domain, L: Ledger>(
    alloc: Global,
    dom: &D,
    action: &SlotAction,
    state: &D::State,
    steps: &mut Steps<L>,
) -> Result<D::State, Memory>
    ensures value { IfOk result (λ t. t ≡ (D.operations dom.now).post
        (Does (effect_of action.now)) state.now) }
{
    let stmt = SlotStmt::Simple(action.clone()?);
    dom.post(alloc, &stmt, state, steps)
}

/// After a break, before which the state leaves. It fails only when memory runs out.
pub fn behind_break<D: Domain, L: Ledger>(
    alloc: Global,
    dom: &D,
    state: &D::State,
    leaving: &mut Items<D::State>,
    steps: &mut Steps<L>,
) -> Result<D::State, Memory>
    ensures value { IfOk result (λ t. t ≡ (D.operations dom.now).post DoBreak state.now) }
    ensures left { OnOk result (leaving.new ≡ leaving.old ++ state.now ∷ []) }
{
    leaving.push(dom.copy(alloc, state)?)?;
    dom.post(alloc, &SlotStmt::Break, state, steps)
}

/// The state joined with others, from left to right. It fails only when memory runs out.
pub fn joined_states<D: Domain, L: Ledger>(
    alloc: Global,
    dom: &D,
    first: D::State,
    others: &[D::State],
    steps: &mut Steps<L>,
) -> Result<D::State, Memory>
    ensures value { IfOk result (λ t. (e : LoopOptions) →
        plain.State t ≡ joined (D.operations dom.now) e (plain.State first)
        (states others.now)) }
{
    let mut all = first;
    for other in others {
        all = dom.join(alloc, &all, other, steps)?;
    }
    Ok(all)
}

//! What stands after a statement, from what its parts come to: the steps of [`follow_main`](crate::following) that
//! follow no block.
ghost use Rattle.std.specs.Prelude.{◌≡◌, ◌++◌, ◌∷◌, [], false, IfOk, OnOk};
ghost use Rattle.std.specs.Option.{option_copied};
ghost use Rattle.imp_slots.specs.Plain.{Does, DoBreak};
ghost use Rattle.imp_slots.specs.ActionViews.{effect_of};
ghost use Rattle.cert_meaning.specs.Followed as plain;
ghost use Rattle.cert_meaning.specs.Followed.{joined};
ghost use Rattle.cert_reading.specs.Table.{state_at};
ghost use Rattle.cert_check.specs.Following.{ended, why_of, behind_by, turned};
ghost use Rattle.cert_check.specs.declared.followed.Followed.TheVariants.{Behind};

use crate::followed::{Followed, Follower, Why};
use base_counter::Steps;
use base_values::{Items, Memory};
use batch_interp::{CallFrame, behind_action, behind_break, joined_states};
use cert_meaning::Portable;
use cert_reading::{Written, loop_key};
use imp_slots::{SlotAction, SlotCall, SlotCond};
use imp_syntax::StmtId;
use std::alloc::Global;
use std::sync::ledger::Ledger;

/// After a simple statement.
pub(crate) fn act<D: Portable, L: Ledger>(
    alloc: Global,
    dom: &D,
    action: &SlotAction,
    state: &D::State,
    steps: &mut Steps<L>,
) -> Result<Followed<D::State>, Memory>
    ensures is { IfOk result (λ r. r ≡ Behind ((D.operations dom.now).post
        (Does (effect_of action.now)) state.now)) }
{
    let next = behind_action(alloc, dom, action, state, steps)?;
    Ok(Followed::Behind(next))
}

/// After a break, before which the state leaves.
pub(crate) fn leave_loop<D: Portable, L: Ledger>(
    alloc: Global,
    dom: &D,
    state: &D::State,
    leaving: &mut Items<D::State>,
    steps: &mut Steps<L>,
) -> Result<Followed<D::State>, Memory>
    ensures is { IfOk result (λ r. r ≡ Behind ((D.operations dom.now).post DoBreak state.now)) }
    ensures left { OnOk result (leaving.new ≡ leaving.old ++ state.now ∷ []) }
{
    let next = behind_break(alloc, dom, state, leaving, steps)?;
    Ok(Followed::Behind(next))
}

/// After an if, from what its blocks come to.
pub(crate) fn join_blocks<D: Portable, L: Ledger>(
    alloc: Global,
    dom: &D,
    left: &D::State,
    right: Followed<D::State>,
    steps: &mut Steps<L>,
) -> Result<Followed<D::State>, Memory>
    ensures is { IfOk result (λ r. r ≡ behind_by ((D.operations dom.now).join left.now) right) }
{
    match right {
        Followed::Behind(right) => Ok(Followed::Behind(dom.join(alloc, left, &right, steps)?)),
        Followed::Fails { at, chain, why } => Ok(Followed::Fails { at, chain, why }),
    }
}

/// After a call, from what the body of its procedure comes to.
pub(crate) fn leave_call<D: Portable, L: Ledger>(
    alloc: Global,
    dom: &D,
    call: &SlotCall,
    state: &D::State,
    done: Followed<D::State>,
    steps: &mut Steps<L>,
) -> Result<Followed<D::State>, Memory>
    ensures is { IfOk result (λ r. r ≡ behind_by ((D.operations dom.now).leave call.now.returning
        state.now) done) }
{
    match done {
        Followed::Behind(done) => Ok(Followed::Behind(dom.leave(
            alloc, call, state, &done, steps,
        )?)),
        Followed::Fails { at, chain, why } => Ok(Followed::Fails { at, chain, why }),
    }
}

/// A loop whose written state does not do.
pub(crate) fn fail<S>(
    alloc: Global,
    frame: &CallFrame,
    n: u32,
    why: Why,
) -> Result<Followed<S>, Memory>
    ensures is { IfOk result (λ r. ended [] r ≡ plain.Fails n frame.now.sites (why_of why)) }
{
    Ok(Followed::Fails {
        at: StmtId::new(n),
        chain: frame.chain(alloc)?,
        why,
    })
}

/// The state that is written of a loop.
pub(crate) fn head_of<'a, S: Drop>(
    alloc: Global,
    written: &'a Written<S>,
    frame: &CallFrame,
    n: u32,
) -> Result<Option<&'a S>, Memory>
    ensures is { IfOk result (λ o. option_copied o ≡ state_at written.now frame.now.sites n) }
{
    let key = loop_key(alloc, StmtId::new(n), frame.sites.as_slice())?;
    Ok(written.get(&key))
}

/// After a loop: its head where the condition is false, joined with what leaves the body.
fn behind_loop<D: Portable, L: Ledger>(
    alloc: Global,
    dom: &D,
    cond: &SlotCond,
    head: &D::State,
    leaving: &[D::State],
    steps: &mut Steps<L>,
) -> Result<Followed<D::State>, Memory>
    ensures is { IfOk result (λ r. r ≡ Behind (joined (D.operations dom.now)
        ((D.operations dom.now).assume cond.now false head.now) leaving.now)) }
{
    let out = dom.assume(alloc, cond, false, head, steps)?;
    let all = joined_states(alloc, dom, out, leaving, steps)?;
    Ok(Followed::Behind(all))
}

/// What a round comes to, by how the body of its loop ends.
pub(crate) fn end_round<D: Portable, L: Ledger>(
    follower: &Follower<D, D::State>,
    n: u32,
    cond: &SlotCond,
    head: &D::State,
    end: Followed<D::State>,
    leaving: &[D::State],
    steps: &mut Steps<L>,
) -> Result<Followed<D::State>, Memory>
    ensures is { IfOk result (λ r. turned (D.operations follower.now.dom.now)
        (D.port follower.now.dom.now).leq follower.now.frame.now.sites n cond.now head.now
        (ended leaving.now end) ≡ ended [] r) }
{
    match end {
        Followed::Behind(end) => {
            if follower.dom.leq(follower.alloc, &end, head)? {
                behind_loop(follower.alloc, follower.dom, cond, head, leaving, steps)
            } else {
                fail(follower.alloc, follower.frame, n, Why::Step)
            }
        }
        Followed::Fails { at, chain, why } => Ok(Followed::Fails { at, chain, why }),
    }
}

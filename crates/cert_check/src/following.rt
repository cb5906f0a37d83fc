//! Blocks followed once, with written states in place of the heads of loops.
ghost use Rattle.std.specs.Prelude.{◌≡◌, ◌<◌, [], length, take, slice_get, false, IfOk};
ghost use Rattle.std.specs.Option.{option_copied};
ghost use Rattle.imp_slots.specs.Plain.{Stop, If, While, Call};
ghost use Rattle.imp_slots.specs.BlockViews.{before_code};
ghost use Rattle.cert_meaning.specs.Followed.{with_leaving, followed_program};
ghost use Rattle.cert_reading.specs.Table.{state_at};
ghost use Rattle.cert_check.specs.Following.{ended, calls_in, followed_in, round, EndsSo};
ghost use Rattle.cert_check.specs.declared.followed.Followed.TheVariants.{Behind};

use crate::behind::{act, end_round, fail, head_of, join_blocks, leave_call, leave_loop};
use crate::followed::{Followed, Follower, Why};
use base_counter::Steps;
use base_values::{Items, Memory};
use batch_interp::CallFrame;
use cert_meaning::Portable;
use cert_reading::Written;
use imp_slots::{Routine, SlotBlock, SlotCall, SlotCond, SlotNode};
use std::alloc::Global;
use std::sync::ledger::Ledger;

/// A block: the state after it, or the first loop whose written state does not do. The states before
/// breaks that leave the loop around it are added to `leaving`.
#[cycle(following)]
#[tactic(auto, using(imp_slots::specs::BlockFalls::node_falls))]
fn follow_block<D: Portable, L: Ledger>(
    follower: &Follower<D, D::State>,
    block: &SlotBlock,
    state: D::State,
    leaving: &mut Items<D::State>,
    steps: &mut Steps<L>,
) -> Result<Followed<D::State>, Memory>
    ensures is { IfOk result (λ r. with_leaving leaving.old
        (followed_in (D.operations follower.now.dom.now) (D.port follower.now.dom.now).leq
        follower.now.written.now follower.now.routines.now follower.now.frame.now.place
        follower.now.frame.now.sites block.now state) ≡ ended leaving.new r) }
{
    let mut now = state;
    for node in block.statements() {
        match follow_node(follower, node, &now, leaving, steps)? {
            Followed::Behind(next) => now = next,
            Followed::Fails { at, chain, why } => return Ok(Followed::Fails { at, chain, why }),
        }
    }
    Ok(Followed::Behind(now))
}

/// A statement alone, as a block.
#[cycle(following)]
fn follow_node<D: Portable, L: Ledger>(
    follower: &Follower<D, D::State>,
    node: &SlotNode,
    state: &D::State,
    leaving: &mut Items<D::State>,
    steps: &mut Steps<L>,
) -> Result<Followed<D::State>, Memory>
    ensures is { IfOk result (λ r. with_leaving leaving.old
        (followed_in (D.operations follower.now.dom.now) (D.port follower.now.dom.now).leq
        follower.now.written.now follower.now.routines.now follower.now.frame.now.place
        follower.now.frame.now.sites (before_code node.now Stop) state.now) ≡
        ended leaving.new r) }
{
    match node {
        SlotNode::Simple(_, action) => act(follower.alloc, follower.dom, action, state, steps),
        SlotNode::If(_, cond, then, els) => follow_if(
            follower, cond, then, els, state, leaving, steps,
        ),
        SlotNode::While(n, cond, body) => follow_while(follower, *n, cond, body, state, steps),
        SlotNode::Call(n, call, callee) => follow_call(follower, *n, call, *callee, state, steps),
        SlotNode::Break(_) => leave_loop(follower.alloc, follower.dom, state, leaving, steps),
    }
}

/// A block, from where the condition before it has this truth value.
#[cycle(following)]
fn follow_branch<D: Portable, L: Ledger>(
    follower: &Follower<D, D::State>,
    cond: &SlotCond,
    sense: bool,
    block: &SlotBlock,
    state: &D::State,
    leaving: &mut Items<D::State>,
    steps: &mut Steps<L>,
) -> Result<Followed<D::State>, Memory>
    ensures is { IfOk result (λ r. with_leaving leaving.old
        (followed_in (D.operations follower.now.dom.now) (D.port follower.now.dom.now).leq
        follower.now.written.now follower.now.routines.now follower.now.frame.now.place
        follower.now.frame.now.sites block.now ((D.operations follower.now.dom.now).assume
        cond.now sense state.now)) ≡ ended leaving.new r) }
{
    let inside = follower
        .dom
        .assume(follower.alloc, cond, sense, state, steps)?;
    follow_block(follower, block, inside, leaving, steps)
}

/// Both blocks of an if, joined. The states that leave the first one stand first.
#[cycle(following)]
fn follow_if<D: Portable, L: Ledger>(
    follower: &Follower<D, D::State>,
    cond: &SlotCond,
    then: &SlotBlock,
    els: &SlotBlock,
    state: &D::State,
    leaving: &mut Items<D::State>,
    steps: &mut Steps<L>,
) -> Result<Followed<D::State>, Memory>
    ensures is { IfOk result (λ r. with_leaving leaving.old
        (followed_in (D.operations follower.now.dom.now) (D.port follower.now.dom.now).leq
        follower.now.written.now follower.now.routines.now follower.now.frame.now.place
        follower.now.frame.now.sites (If 0 cond.now then.now els.now Stop) state.now) ≡
        ended leaving.new r) }
{
    let left = match follow_branch(follower, cond, true, then, state, leaving, steps)? {
        Followed::Behind(left) => left,
        Followed::Fails { at, chain, why } => return Ok(Followed::Fails { at, chain, why }),
    };
    let right = follow_branch(follower, cond, false, els, state, leaving, steps)?;
    join_blocks(follower.alloc, follower.dom, &left, right, steps)
}

/// A loop, from the state before it.
#[cycle(following)]
fn follow_while<D: Portable, L: Ledger>(
    follower: &Follower<D, D::State>,
    n: u32,
    cond: &SlotCond,
    body: &SlotBlock,
    state: &D::State,
    steps: &mut Steps<L>,
) -> Result<Followed<D::State>, Memory>
    ensures is { IfOk result (λ r. followed_in (D.operations follower.now.dom.now)
        (D.port follower.now.dom.now).leq follower.now.written.now follower.now.routines.now
        follower.now.frame.now.place follower.now.frame.now.sites
        (While n cond.now body.now Stop) state.now ≡ ended [] r) }
{
    match head_of(follower.alloc, follower.written, follower.frame, n)? {
        None => fail(follower.alloc, follower.frame, n, Why::Missing),
        Some(head) => {
            if follower.dom.leq(follower.alloc, state, head)? {
                follow_round(follower, n, cond, body, head, steps)
            } else {
                fail(follower.alloc, follower.frame, n, Why::Entry)
            }
        }
    }
}

/// A round of a loop from its head, and what is after the loop.
#[cycle(following)]
fn follow_round<D: Portable, L: Ledger>(
    follower: &Follower<D, D::State>,
    n: u32,
    cond: &SlotCond,
    body: &SlotBlock,
    head: &D::State,
    steps: &mut Steps<L>,
) -> Result<Followed<D::State>, Memory>
    ensures is { IfOk result (λ r. round (D.operations follower.now.dom.now)
        (D.port follower.now.dom.now).leq follower.now.frame.now.sites n cond.now
        (followed_in (D.operations follower.now.dom.now) (D.port follower.now.dom.now).leq
        follower.now.written.now follower.now.routines.now follower.now.frame.now.place
        follower.now.frame.now.sites body.now) head.now ≡ ended [] r) }
{
    let mut leaving = Items::new(follower.alloc);
    let end = follow_branch(follower, cond, true, body, head, &mut leaving, steps)?;
    let leaving = leaving.as_slice();
    end_round(follower, n, cond, head, end, leaving, steps)
}

/// A call: its procedure is entered and left.
#[cycle(following)]
fn follow_call<D: Portable, L: Ledger>(
    follower: &Follower<D, D::State>,
    n: u32,
    call: &SlotCall,
    callee: u32,
    state: &D::State,
    steps: &mut Steps<L>,
) -> Result<Followed<D::State>, Memory>
    ensures is { IfOk result (λ r. followed_in (D.operations follower.now.dom.now)
        (D.port follower.now.dom.now).leq follower.now.written.now follower.now.routines.now
        follower.now.frame.now.place follower.now.frame.now.sites
        (Call n call.now callee Stop) state.now ≡ ended [] r) }
{
    let entered = follower.dom.enter(follower.alloc, call, state, steps)?;
    let done = follow_callee(follower, n, callee as usize, entered, steps)?;
    leave_call(follower.alloc, follower.dom, call, state, done, steps)
}

/// The procedure at a place, where it stands before the one at `place`.
fn callee_at(routines: &[Routine], place: usize, callee: usize) -> Option<&Routine>
    ensures is { option_copied result ≡ slice_get (take place routines.now) callee }
{
    if callee < place {
        routines.get(callee)
    } else {
        None
    }
}

/// The body of a procedure that is called, from the state before it.
#[cycle(following)]
#[tactic(auto, using(batch_interp::proofs::Weights::weight_falls))]
fn follow_callee<D: Portable, L: Ledger>(
    follower: &Follower<D, D::State>,
    n: u32,
    callee: usize,
    entered: D::State,
    steps: &mut Steps<L>,
) -> Result<Followed<D::State>, Memory>
    ensures is { IfOk result (EndsSo (calls_in (D.operations follower.now.dom.now)
        (D.port follower.now.dom.now).leq follower.now.written.now follower.now.routines.now
        follower.now.frame.now.place follower.now.frame.now.sites n callee entered)) }
{
    match callee_at(follower.routines, follower.frame.place, callee) {
        None => Ok(Followed::Behind(entered)),
        Some(routine) => {
            let inner = follower.frame.callee(follower.alloc, n, callee)?;
            let mut leaving = Items::new(follower.alloc);
            let there = Follower {
                alloc: follower.alloc,
                dom: follower.dom,
                routines: follower.routines,
                written: follower.written,
                frame: &inner,
            };
            follow_block(&there, routine.body(), entered, &mut leaving, steps)
        }
    }
}

/// The body of main, from its first state.
pub(crate) fn follow_main<D: Portable, L: Ledger>(
    alloc: Global,
    dom: &D,
    routines: &[Routine],
    written: &Written<D::State>,
    steps: &mut Steps<L>,
) -> Result<Followed<D::State>, Memory>
    requires some { 0 < length routines.now }
    ensures is { IfOk result (EndsSo (followed_program (D.operations dom.now) (D.port dom.now).leq
        (state_at written.now) routines.now)) }
{
    let frame = CallFrame::main(alloc, routines);
    let main = &routines[frame.place];
    let first = dom.init(alloc, main.layout(), steps)?;
    let mut leaving = Items::new(alloc);
    let follower = Follower {
        alloc,
        dom,
        routines,
        written,
        frame: &frame,
    };
    follow_block(&follower, main.body(), first, &mut leaving, steps)
}

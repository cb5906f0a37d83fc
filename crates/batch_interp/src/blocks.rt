//! Blocks: the state after each from the state before it, by recursion on the syntax.
ghost use Rattle.std.specs.Prelude.{◌≡◌, IfOk, OnOk, true, false};
ghost use Rattle.imp_slots.specs.Plain.{Stop, If, While, Call};
ghost use Rattle.imp_slots.specs.BlockViews.{before_code};
ghost use Rattle.batch_meaning.specs.Values as plain;
ghost use Rattle.batch_meaning.specs.Batch.{next_of};
ghost use Rattle.batch_interp.specs.Answered.{value_of};
ghost use Rattle.batch_interp.specs.Frames.{thresholds_at, body_at, calls_in, passed, value_after, head_there};
ghost use Rattle.batch_interp.specs.Passing.{Ends, IsFixed};
ghost use Rattle.batch_interp.specs.Here.{here, AreRightHere};

use crate::Answer;
use crate::frames::Interpreter;
use crate::remembered::{Remembered, note, recalled};
use crate::single::{behind_action, behind_break, joined_states};
use base_values::{Items, Memory};
use domain_laws::{Domain, Steps};
use imp_slots::{SlotBlock, SlotCall, SlotCond, SlotNode};
use imp_syntax::{Chain, StmtId};
use std::alloc::Global;
use std::sync::ledger::Ledger;

/// What the iterates of a loop come to.
#[derive(Drop)]
pub(crate) enum Fixed<S> {
    /// The state at the head, and the states that leave the body from there.
    At { head: S, leaving: Items<S> },
    /// A loop that used up its budget: this one, or one that its body meets.
    Over { head: StmtId, chain: Chain },
}

/// The next iterate of a loop after the k-th: joined below the delay, else widened.
fn next_iterate<D: Domain, L: Ledger>(
    interpreter: &Interpreter<D>,
    k: u32,
    state: &D::State,
    end: &D::State,
    steps: &mut Steps<L>,
) -> Result<D::State, Memory>
    ensures value { IfOk result (λ t. t ≡ next_of (D.operations interpreter.now.dom.now)
        interpreter.now.plan.now.engine (thresholds_at interpreter.now.plan.now
        interpreter.now.frame.now.place) k state.now end.now) }
{
    if k < interpreter.plan.delay() {
        interpreter.dom.join(interpreter.alloc, state, end, steps)
    } else {
        interpreter.dom.widen(
            interpreter.alloc,
            interpreter.plan.thresholds(interpreter.frame.place),
            state,
            end,
            steps,
        )
    }
}

/// A block: the state after it, or the first loop that used up its budget. The states before
/// breaks that leave the loop around it are added to `leaving`.
#[cycle(blocks)]
#[tactic(auto, using(imp_slots::specs::BlockFalls::node_falls))]
pub(crate) fn block_answer<D: Domain, L: Ledger>(
    interpreter: &Interpreter<D>,
    block: &SlotBlock,
    state: D::State,
    leaving: &mut Items<D::State>,
    remembered: &mut Remembered<D::State>,
    steps: &mut Steps<L>,
) -> Result<Answer<D::State>, Memory>
    requires right { AreRightHere D.operations interpreter.now remembered.old }
    ensures is { IfOk result (Ends leaving.old leaving.new
        (here D.operations interpreter.now passed block.now (plain.State state))) }
    ensures right { OnOk result (AreRightHere D.operations interpreter.now remembered.new) }
{
    let mut now = state;
    for node in block.statements() {
        match node_answer(interpreter, node, &now, leaving, remembered, steps)? {
            Answer::State(next) => now = next,
            Answer::Over { head, chain } => return Ok(Answer::Over { head, chain }),
        }
    }
    Ok(Answer::State(now))
}

/// A statement alone, as a block.
#[cycle(blocks)]
pub(crate) fn node_answer<D: Domain, L: Ledger>(
    interpreter: &Interpreter<D>,
    node: &SlotNode,
    state: &D::State,
    leaving: &mut Items<D::State>,
    remembered: &mut Remembered<D::State>,
    steps: &mut Steps<L>,
) -> Result<Answer<D::State>, Memory>
    requires right { AreRightHere D.operations interpreter.now remembered.old }
    ensures is { IfOk result (Ends leaving.old leaving.new
        (here D.operations interpreter.now passed (before_code node.now Stop)
        (plain.State state.now))) }
    ensures right { OnOk result (AreRightHere D.operations interpreter.now remembered.new) }
{
    match node {
        SlotNode::Simple(_, action) => {
            let next = behind_action(interpreter.alloc, interpreter.dom, action, state, steps)?;
            Ok(Answer::State(next))
        }
        SlotNode::If(_, cond, then, els) => {
            if_answer(
                interpreter,
                cond,
                then,
                els,
                state,
                leaving,
                remembered,
                steps,
            )
        }
        SlotNode::While(n, cond, body) => {
            while_answer(interpreter, *n, cond, body, state, remembered, steps)
        }
        SlotNode::Call(n, call, callee) => {
            call_answer(interpreter, *n, call, *callee, state, remembered, steps)
        }
        SlotNode::Break(_) => {
            let next = behind_break(interpreter.alloc, interpreter.dom, state, leaving, steps)?;
            Ok(Answer::State(next))
        }
    }
}

/// A block under a condition, from the state before the condition.
#[cycle(blocks)]
fn block_under<D: Domain, L: Ledger>(
    interpreter: &Interpreter<D>,
    cond: &SlotCond,
    sense: bool,
    block: &SlotBlock,
    state: &D::State,
    leaving: &mut Items<D::State>,
    remembered: &mut Remembered<D::State>,
    steps: &mut Steps<L>,
) -> Result<Answer<D::State>, Memory>
    requires right { AreRightHere D.operations interpreter.now remembered.old }
    ensures is { IfOk result (Ends leaving.old leaving.new
        (here D.operations interpreter.now passed block.now
        (plain.State ((D.operations interpreter.now.dom.now).assume cond.now sense state.now)))) }
    ensures right { OnOk result (AreRightHere D.operations interpreter.now remembered.new) }
{
    let inside = interpreter
        .dom
        .assume(interpreter.alloc, cond, sense, state, steps)?;
    block_answer(interpreter, block, inside, leaving, remembered, steps)
}

/// Both blocks of an if, joined. The states that leave the first one stand first.
#[cycle(blocks)]
fn if_answer<D: Domain, L: Ledger>(
    interpreter: &Interpreter<D>,
    cond: &SlotCond,
    then: &SlotBlock,
    els: &SlotBlock,
    state: &D::State,
    leaving: &mut Items<D::State>,
    remembered: &mut Remembered<D::State>,
    steps: &mut Steps<L>,
) -> Result<Answer<D::State>, Memory>
    requires right { AreRightHere D.operations interpreter.now remembered.old }
    ensures is { IfOk result (Ends leaving.old leaving.new
        (here D.operations interpreter.now passed (If 0 cond.now then.now els.now Stop)
        (plain.State state.now))) }
    ensures right { OnOk result (AreRightHere D.operations interpreter.now remembered.new) }
{
    let left = match block_under(
        interpreter,
        cond,
        true,
        then,
        state,
        leaving,
        remembered,
        steps,
    )? {
        Answer::State(left) => left,
        Answer::Over { head, chain } => return Ok(Answer::Over { head, chain }),
    };
    let right = match block_under(
        interpreter,
        cond,
        false,
        els,
        state,
        leaving,
        remembered,
        steps,
    )? {
        Answer::State(right) => right,
        Answer::Over { head, chain } => return Ok(Answer::Over { head, chain }),
    };
    Ok(Answer::State(
        interpreter
            .dom
            .join(interpreter.alloc, &left, &right, steps)?,
    ))
}

/// A loop: its head where the condition is false, joined with what leaves the body.
#[cycle(blocks)]
fn while_answer<D: Domain, L: Ledger>(
    interpreter: &Interpreter<D>,
    n: u32,
    cond: &SlotCond,
    body: &SlotBlock,
    state: &D::State,
    remembered: &mut Remembered<D::State>,
    steps: &mut Steps<L>,
) -> Result<Answer<D::State>, Memory>
    requires right { AreRightHere D.operations interpreter.now remembered.old }
    ensures is { IfOk result (λ a. value_of a ≡ here D.operations interpreter.now value_after
        (While n cond.now body.now Stop) (plain.State state.now)) }
    ensures right { OnOk result (AreRightHere D.operations interpreter.now remembered.new) }
{
    match loop_head(interpreter, n, cond, body, state, remembered, steps)? {
        Fixed::At { head, leaving } => {
            let out = interpreter
                .dom
                .assume(interpreter.alloc, cond, false, &head, steps)?;
            let all = joined_states(
                interpreter.alloc,
                interpreter.dom,
                out,
                leaving.as_slice(),
                steps,
            )?;
            Ok(Answer::State(all))
        }
        Fixed::Over { head, chain } => Ok(Answer::Over { head, chain }),
    }
}

/// The iterates of a loop, from the state before it until one is the one before it.
#[cycle(blocks)]
pub(crate) fn loop_head<D: Domain, L: Ledger>(
    interpreter: &Interpreter<D>,
    n: u32,
    cond: &SlotCond,
    body: &SlotBlock,
    state: &D::State,
    remembered: &mut Remembered<D::State>,
    steps: &mut Steps<L>,
) -> Result<Fixed<D::State>, Memory>
    requires right { AreRightHere D.operations interpreter.now remembered.old }
    ensures is { IfOk result (IsFixed (D.operations interpreter.now.dom.now)
        (here D.operations interpreter.now head_there n cond.now body.now (plain.State state.now))
        cond.now (here D.operations interpreter.now passed body.now)) }
    ensures right { OnOk result (AreRightHere D.operations interpreter.now remembered.new) }
{
    let mut now = interpreter.dom.copy(interpreter.alloc, state)?;
    for k in 0..interpreter.plan.budget() {
        let mut leaving = Items::new(interpreter.alloc);
        let end = match block_under(
            interpreter,
            cond,
            true,
            body,
            &now,
            &mut leaving,
            remembered,
            steps,
        )? {
            Answer::State(end) => end,
            Answer::Over { head, chain } => return Ok(Fixed::Over { head, chain }),
        };
        let next = next_iterate(interpreter, k, &now, &end, steps)?;
        if next == now {
            return Ok(Fixed::At { head: now, leaving });
        }
        now = next;
    }
    Ok(Fixed::Over {
        head: StmtId::new(n),
        chain: interpreter.frame.chain(interpreter.alloc)?,
    })
}

/// A call: its procedure is entered and left.
#[cycle(blocks)]
fn call_answer<D: Domain, L: Ledger>(
    interpreter: &Interpreter<D>,
    n: u32,
    call: &SlotCall,
    callee: u32,
    state: &D::State,
    remembered: &mut Remembered<D::State>,
    steps: &mut Steps<L>,
) -> Result<Answer<D::State>, Memory>
    requires right { AreRightHere D.operations interpreter.now remembered.old }
    ensures is { IfOk result (λ a. value_of a ≡ here D.operations interpreter.now value_after
        (Call n call.now callee Stop) (plain.State state.now)) }
    ensures right { OnOk result (AreRightHere D.operations interpreter.now remembered.new) }
{
    let entered = interpreter
        .dom
        .enter(interpreter.alloc, call, state, steps)?;
    match callee_answer(interpreter, n, callee as usize, entered, remembered, steps)? {
        Answer::State(done) => Ok(Answer::State(
            interpreter
                .dom
                .leave(interpreter.alloc, call, state, &done, steps)?,
        )),
        Answer::Over { head, chain } => Ok(Answer::Over { head, chain }),
    }
}

/// The body of a procedure that is called, from the state before it.
#[cycle(blocks)]
#[tactic(auto, using(crate::proofs::Weights::weight_falls))]
fn callee_answer<D: Domain, L: Ledger>(
    interpreter: &Interpreter<D>,
    n: u32,
    callee: usize,
    entered: D::State,
    remembered: &mut Remembered<D::State>,
    steps: &mut Steps<L>,
) -> Result<Answer<D::State>, Memory>
    requires right { AreRightHere D.operations interpreter.now remembered.old }
    ensures is { IfOk result (λ a. value_of a ≡
        here D.operations interpreter.now calls_in n callee (plain.State entered)) }
    ensures right { OnOk result (AreRightHere D.operations interpreter.now remembered.new) }
{
    match interpreter.plan.callee(interpreter.frame.place, callee) {
        None => Ok(Answer::State(entered)),
        Some(routine) => {
            let inner = interpreter.frame.callee(interpreter.alloc, n, callee)?;
            let there = Interpreter {
                alloc: interpreter.alloc,
                dom: interpreter.dom,
                plan: interpreter.plan,
                frame: &inner,
            };
            procedure_answer(&there, routine.body(), entered, remembered, steps)
        }
    }
}

/// The body of a procedure, from the state before it: what is remembered of it, or else what it gives, which
/// is remembered.
#[cycle(blocks)]
fn procedure_answer<D: Domain, L: Ledger>(
    interpreter: &Interpreter<D>,
    body: &SlotBlock,
    entered: D::State,
    remembered: &mut Remembered<D::State>,
    steps: &mut Steps<L>,
) -> Result<Answer<D::State>, Memory>
    requires body { body.now ≡ body_at interpreter.now.plan.now.program
        interpreter.now.frame.now.place }
    requires right { AreRightHere D.operations interpreter.now remembered.old }
    ensures is { IfOk result (λ a. value_of a ≡
        here D.operations interpreter.now value_after body.now (plain.State entered)) }
    ensures right { OnOk result (AreRightHere D.operations interpreter.now remembered.new) }
{
    match recalled(interpreter, remembered, &entered)? {
        Some(end) => Ok(Answer::State(end)),
        None => {
            let before = interpreter.dom.copy(interpreter.alloc, &entered)?;
            let mut leaving = Items::new(interpreter.alloc);
            let answer = block_answer(interpreter, body, entered, &mut leaving, remembered, steps)?;
            note(interpreter, before, &answer, remembered);
            Ok(answer)
        }
    }
}

//! Statements by their numbers, with what is known before them.
ghost use Rattle.std.specs.Prelude.{◌≡◌, IfOk, OnOk, true, false, option_map};
ghost use Rattle.imp_slots.specs.Plain.{Stop, While};
ghost use Rattle.imp_slots.specs.BlockViews.{before_code};
ghost use Rattle.batch_meaning.specs.Values.{State, lift};
ghost use Rattle.batch_meaning.specs.Places.{find};
ghost use Rattle.batch_interp.specs.Answered.{value_of};
ghost use Rattle.batch_interp.specs.Seeking.{places, spot_of, inner_of, holds_inside};
ghost use Rattle.batch_interp.specs.Here.{here, AreRightHere};
ghost use Rattle.batch_interp.specs.Frames.{value_after, value_at_head};

use crate::Answer;
use crate::blocks::{Fixed, block_answer, loop_head, node_answer};
use crate::frames::Interpreter;
use crate::remembered::Remembered;
use base_values::{Items, Memory};
use call_contexts::holds;
use domain_laws::{Domain, Steps};
use imp_slots::{SlotBlock, SlotCond, SlotNode};
use imp_syntax::{Chain, StmtId};
use std::alloc::Global;
use std::sync::ledger::Ledger;

/// A statement, and what is known before it.
#[derive(Drop)]
pub(crate) struct Seen<'a, S> {
    pub(crate) node: &'a SlotNode,
    pub(crate) before: Answer<S>,
}

/// The same chain once more.
pub(crate) fn copy_of_chain(alloc: Global, chain: &Chain) -> Result<Chain, Memory>
    ensures same { IfOk result (λ copy. copy ≡ chain.now) }
{
    let sites: Vec<StmtId> = chain.sites().iter().copied().collect(alloc)?;
    Ok(Chain::new(Items::from_vec(sites)))
}

/// The same once more.
pub(crate) fn copy_of<D: Domain>(
    alloc: Global,
    dom: &D,
    answer: &Answer<D::State>,
) -> Result<Answer<D::State>, Memory>
    ensures same { IfOk result (λ copy. value_of copy ≡ value_of answer.now) }
{
    match answer {
        Answer::State(state) => Ok(Answer::State(dom.copy(alloc, state)?)),
        Answer::Over { head, chain } => Ok(Answer::Over {
            head: *head,
            chain: copy_of_chain(alloc, chain)?,
        }),
    }
}

/// Where a condition has a truth value.
pub(crate) fn assumed<D: Domain, L: Ledger>(
    interpreter: &Interpreter<D>,
    cond: &SlotCond,
    sense: bool,
    before: &Answer<D::State>,
    steps: &mut Steps<L>,
) -> Result<Answer<D::State>, Memory>
    ensures is { IfOk result (λ a. value_of a ≡ lift ((D.operations interpreter.now.dom.now).assume
        cond.now sense) (value_of before.now)) }
{
    match before {
        Answer::State(state) => Ok(Answer::State(
            interpreter
                .dom
                .assume(interpreter.alloc, cond, sense, state, steps)?,
        )),
        Answer::Over { head, chain } => Ok(Answer::Over {
            head: *head,
            chain: copy_of_chain(interpreter.alloc, chain)?,
        }),
    }
}

/// After a block.
pub(crate) fn behind_block<D: Domain, L: Ledger>(
    interpreter: &Interpreter<D>,
    block: &SlotBlock,
    before: Answer<D::State>,
    remembered: &mut Remembered<D::State>,
    steps: &mut Steps<L>,
) -> Result<Answer<D::State>, Memory>
    requires right { AreRightHere D.operations interpreter.now remembered.old }
    ensures is { IfOk result (λ a. value_of a ≡
        here D.operations interpreter.now value_after block.now (value_of before)) }
    ensures right { OnOk result (AreRightHere D.operations interpreter.now remembered.new) }
{
    match before {
        Answer::State(state) => {
            let mut leaving = Items::new(interpreter.alloc);
            block_answer(interpreter, block, state, &mut leaving, remembered, steps)
        }
        Answer::Over { head, chain } => Ok(Answer::Over { head, chain }),
    }
}

/// After a statement.
pub(crate) fn behind_node<D: Domain, L: Ledger>(
    interpreter: &Interpreter<D>,
    node: &SlotNode,
    before: Answer<D::State>,
    remembered: &mut Remembered<D::State>,
    steps: &mut Steps<L>,
) -> Result<Answer<D::State>, Memory>
    requires right { AreRightHere D.operations interpreter.now remembered.old }
    ensures is { IfOk result (λ a. value_of a ≡ here D.operations interpreter.now value_after
        (before_code node.now Stop) (value_of before)) }
    ensures right { OnOk result (AreRightHere D.operations interpreter.now remembered.new) }
{
    match before {
        Answer::State(state) => {
            let mut leaving = Items::new(interpreter.alloc);
            node_answer(interpreter, node, &state, &mut leaving, remembered, steps)
        }
        Answer::Over { head, chain } => Ok(Answer::Over { head, chain }),
    }
}

/// The head of a loop, from the state before it.
fn head_of_state<D: Domain, L: Ledger>(
    interpreter: &Interpreter<D>,
    n: u32,
    cond: &SlotCond,
    body: &SlotBlock,
    state: &D::State,
    remembered: &mut Remembered<D::State>,
    steps: &mut Steps<L>,
) -> Result<Answer<D::State>, Memory>
    requires right { AreRightHere D.operations interpreter.now remembered.old }
    ensures is { IfOk result (λ a. value_of a ≡
        here D.operations interpreter.now value_at_head n cond.now body.now (State state.now)) }
    ensures right { OnOk result (AreRightHere D.operations interpreter.now remembered.new) }
{
    match loop_head(interpreter, n, cond, body, state, remembered, steps)? {
        Fixed::At { head, leaving: _ } => Ok(Answer::State(head)),
        Fixed::Over { head, chain } => Ok(Answer::Over { head, chain }),
    }
}

/// The head of a loop.
pub(crate) fn head_answer<D: Domain, L: Ledger>(
    interpreter: &Interpreter<D>,
    n: u32,
    cond: &SlotCond,
    body: &SlotBlock,
    before: Answer<D::State>,
    remembered: &mut Remembered<D::State>,
    steps: &mut Steps<L>,
) -> Result<Answer<D::State>, Memory>
    requires right { AreRightHere D.operations interpreter.now remembered.old }
    ensures is { IfOk result (λ a. value_of a ≡
        here D.operations interpreter.now value_at_head n cond.now body.now (value_of before)) }
    ensures right { OnOk result (AreRightHere D.operations interpreter.now remembered.new) }
{
    match before {
        Answer::State(state) => head_of_state(
            interpreter,
            n,
            cond,
            body,
            &state,
            remembered,
            steps,
        ),
        Answer::Over { head, chain } => Ok(Answer::Over { head, chain }),
    }
}

/// The head of a loop, from what is lent.
pub(crate) fn head_from<D: Domain, L: Ledger>(
    interpreter: &Interpreter<D>,
    n: u32,
    cond: &SlotCond,
    body: &SlotBlock,
    before: &Answer<D::State>,
    remembered: &mut Remembered<D::State>,
    steps: &mut Steps<L>,
) -> Result<Answer<D::State>, Memory>
    requires right { AreRightHere D.operations interpreter.now remembered.old }
    ensures is { IfOk result (λ a. value_of a ≡
        here D.operations interpreter.now value_at_head n cond.now body.now (value_of before.now)) }
    ensures right { OnOk result (AreRightHere D.operations interpreter.now remembered.new) }
{
    match before {
        Answer::State(state) => head_of_state(interpreter, n, cond, body, state, remembered, steps),
        Answer::Over { head, chain } => Ok(Answer::Over {
            head: *head,
            chain: copy_of_chain(interpreter.alloc, chain)?,
        }),
    }
}

/// Whether a statement of this number stands inside a statement.
fn holds_inside(node: &SlotNode, number: u32) -> bool
    ensures is { result ≡ holds_inside number node.now }
{
    match node {
        SlotNode::If(_, _, then, els) => holds(then, number) || holds(els, number),
        SlotNode::While(_, _, body) => holds(body, number),
        _ => false,
    }
}

/// The first statement of this number in a block, also inside its statements. Of the statements
/// around it only what stands before it is interpreted.
#[cycle(seeking)]
#[tactic(auto, using(imp_slots::specs::BlockFalls::node_falls))]
pub(crate) fn seek<'a, D: Domain, L: Ledger>(
    interpreter: &Interpreter<D>,
    block: &'a SlotBlock,
    before: Answer<D::State>,
    number: u32,
    remembered: &mut Remembered<D::State>,
    steps: &mut Steps<L>,
) -> Result<Option<Seen<'a, D::State>>, Memory>
    requires right { AreRightHere D.operations interpreter.now remembered.old }
    ensures is { IfOk result (λ s. option_map (here D.operations interpreter.now spot_of) s ≡
        find number (here D.operations interpreter.now places block.now (value_of before))) }
    ensures right { OnOk result (AreRightHere D.operations interpreter.now remembered.new) }
{
    let mut now = before;
    for node in block.statements() {
        if number == node.number() {
            return Ok(Some(Seen { node, before: now }));
        }
        if holds_inside(node, number) {
            return seek_inside(interpreter, node, now, number, remembered, steps);
        }
        now = behind_node(interpreter, node, now, remembered, steps)?;
    }
    Ok(None)
}

/// The first statement of this number inside a statement.
#[cycle(seeking)]
fn seek_inside<'a, D: Domain, L: Ledger>(
    interpreter: &Interpreter<D>,
    node: &'a SlotNode,
    before: Answer<D::State>,
    number: u32,
    remembered: &mut Remembered<D::State>,
    steps: &mut Steps<L>,
) -> Result<Option<Seen<'a, D::State>>, Memory>
    requires right { AreRightHere D.operations interpreter.now remembered.old }
    ensures is { IfOk result (λ s. option_map (here D.operations interpreter.now spot_of) s ≡
        find number (here D.operations interpreter.now inner_of node.now (value_of before))) }
    ensures right { OnOk result (AreRightHere D.operations interpreter.now remembered.new) }
{
    match node {
        SlotNode::If(_, cond, then, els) => {
            if holds(then, number) {
                seek_under(
                    interpreter,
                    cond,
                    true,
                    then,
                    before,
                    number,
                    remembered,
                    steps,
                )
            } else {
                seek_under(
                    interpreter,
                    cond,
                    false,
                    els,
                    before,
                    number,
                    remembered,
                    steps,
                )
            }
        }
        SlotNode::While(n, cond, body) => {
            let head = head_answer(interpreter, *n, cond, body, before, remembered, steps)?;
            seek_under(
                interpreter,
                cond,
                true,
                body,
                head,
                number,
                remembered,
                steps,
            )
        }
        SlotNode::Simple(_, _) => Ok(None),
        SlotNode::Call(_, _, _) => Ok(None),
        SlotNode::Break(_) => Ok(None),
    }
}

/// The first statement of this number in a block that stands under a condition.
#[cycle(seeking)]
fn seek_under<'a, D: Domain, L: Ledger>(
    interpreter: &Interpreter<D>,
    cond: &SlotCond,
    sense: bool,
    block: &'a SlotBlock,
    before: Answer<D::State>,
    number: u32,
    remembered: &mut Remembered<D::State>,
    steps: &mut Steps<L>,
) -> Result<Option<Seen<'a, D::State>>, Memory>
    requires right { AreRightHere D.operations interpreter.now remembered.old }
    ensures is { IfOk result (λ s. option_map (here D.operations interpreter.now spot_of) s ≡
        find number (here D.operations interpreter.now places block.now
        (lift ((D.operations interpreter.now.dom.now).assume cond.now sense) (value_of before)))) }
    ensures right { OnOk result (AreRightHere D.operations interpreter.now remembered.new) }
{
    let inside = assumed(interpreter, cond, sense, &before, steps)?;
    seek(interpreter, block, inside, number, remembered, steps)
}

//! What is known at a location under a chain.
ghost use Rattle.std.specs.Prelude.{◌≡◌, ◌<◌, length, reverse, slice_get, Some, option_map, IfOk, suc};
ghost use Rattle.imp_syntax.specs.declared.edit.Location.TheVariants.{End};
ghost use Rattle.batch_meaning.specs.Places.{if_some, find, head_value, value_in, value_at};
ghost use Rattle.batch_interp.specs.Answered.{value_of};
ghost use Rattle.batch_interp.specs.Frames.{earlier};
ghost use Rattle.batch_interp.specs.Seeking.{places, head_at};
ghost use Rattle.batch_interp.specs.Here.{here};

use crate::Answer;
use crate::frames::{Interpreter, Plan};
use crate::remembered::Remembered;
use crate::spots::{Seen, behind_block, behind_node, head_answer, seek};
use crate::walks::{Entered, enter_chain};
use base_values::{Memory, Text};
use domain_laws::{Domain, Steps};
use imp_slots::{Routine, SlotBlock, SlotNode};
use imp_syntax::{Location, StmtId};
use std::alloc::Global;
use std::sync::ledger::Ledger;

/// Before the statement of a number.
fn before_number<D: Domain, L: Ledger>(
    interpreter: &Interpreter<D>,
    body: &SlotBlock,
    before: Answer<D::State>,
    number: u32,
    steps: &mut Steps<L>,
) -> Result<Option<Answer<D::State>>, Memory>
    ensures is { IfOk result (λ o. option_map value_of o ≡
        if_some (find number (here D.operations interpreter.now places body.now (value_of before)))
        (λ s. Some s.before)) }
{
    let mut remembered = Remembered::new(interpreter.alloc);
    match seek(interpreter, body, before, number, &mut remembered, steps)? {
        None => Ok(None),
        Some(seen) => Ok(Some(seen.before)),
    }
}

/// After the statement of a number.
fn after_number<D: Domain, L: Ledger>(
    interpreter: &Interpreter<D>,
    body: &SlotBlock,
    before: Answer<D::State>,
    number: u32,
    steps: &mut Steps<L>,
) -> Result<Option<Answer<D::State>>, Memory>
    ensures is { IfOk result (λ o. option_map value_of o ≡
        if_some (find number (here D.operations interpreter.now places body.now (value_of before)))
        (λ s. Some s.after)) }
{
    let mut remembered = Remembered::new(interpreter.alloc);
    match seek(interpreter, body, before, number, &mut remembered, steps)? {
        None => Ok(None),
        Some(seen) => {
            let after = behind_node(interpreter, seen.node, seen.before, &mut remembered, steps)?;
            Ok(Some(after))
        }
    }
}

/// At the head of a statement, if it is a loop.
fn head_of_seen<D: Domain, L: Ledger>(
    interpreter: &Interpreter<D>,
    seen: Seen<D::State>,
    steps: &mut Steps<L>,
) -> Result<Option<Answer<D::State>>, Memory>
    ensures is { IfOk result (λ o. option_map value_of o ≡
        if_some (here D.operations interpreter.now head_at seen.entry.node.now
        (value_of seen.entry.before)) (λ h. Some h.value)) }
{
    match seen.node {
        SlotNode::While(n, cond, body) => {
            let mut remembered = Remembered::new(interpreter.alloc);
            let head = head_answer(
                interpreter,
                *n,
                cond,
                body,
                seen.before,
                &mut remembered,
                steps,
            )?;
            Ok(Some(head))
        }
        _ => Ok(None),
    }
}

/// At the head of the loop of a number.
fn head_of_number<D: Domain, L: Ledger>(
    interpreter: &Interpreter<D>,
    body: &SlotBlock,
    before: Answer<D::State>,
    number: u32,
    steps: &mut Steps<L>,
) -> Result<Option<Answer<D::State>>, Memory>
    ensures is { IfOk result (λ o. option_map value_of o ≡
        if_some (find number (here D.operations interpreter.now places body.now (value_of before)))
        head_value) }
{
    let mut remembered = Remembered::new(interpreter.alloc);
    match seek(interpreter, body, before, number, &mut remembered, steps)? {
        None => Ok(None),
        Some(seen) => head_of_seen(interpreter, seen, steps),
    }
}

/// After the body of a procedure, if this is its name.
fn end_of<D: Domain, L: Ledger>(
    interpreter: &Interpreter<D>,
    routine: &Routine,
    before: Answer<D::State>,
    name: &Text,
    steps: &mut Steps<L>,
) -> Result<Option<Answer<D::State>>, Memory>
    requires there { slice_get interpreter.now.plan.now.program interpreter.now.frame.now.place ≡
        Some routine.now }
    ensures is { IfOk result (λ o. option_map value_of o ≡
        value_in (D.operations interpreter.now.dom.now) interpreter.now.plan.now.engine
        (earlier interpreter.now.plan.now.program (suc interpreter.now.frame.now.place))
        interpreter.now.frame.now.sites (value_of before) (End name.now)) }
{
    if name == routine.name() {
        let mut remembered = Remembered::new(interpreter.alloc);
        let end = behind_block(interpreter, routine.body(), before, &mut remembered, steps)?;
        Ok(Some(end))
    } else {
        Ok(None)
    }
}

/// At a location of a procedure, if it has the location.
fn value_within<D: Domain, L: Ledger>(
    interpreter: &Interpreter<D>,
    routine: &Routine,
    before: Answer<D::State>,
    at: &Location,
    steps: &mut Steps<L>,
) -> Result<Option<Answer<D::State>>, Memory>
    requires there { slice_get interpreter.now.plan.now.program interpreter.now.frame.now.place ≡
        Some routine.now }
    ensures is { IfOk result (λ o. option_map value_of o ≡
        value_in (D.operations interpreter.now.dom.now) interpreter.now.plan.now.engine
        (earlier interpreter.now.plan.now.program (suc interpreter.now.frame.now.place))
        interpreter.now.frame.now.sites (value_of before) at.now) }
{
    let body = routine.body();
    match at {
        Location::Before(n) => before_number(interpreter, body, before, n.number(), steps),
        Location::After(n) => after_number(interpreter, body, before, n.number(), steps),
        Location::Head(n) => head_of_number(interpreter, body, before, n.number(), steps),
        Location::End(name) => end_of(interpreter, routine, before, name, steps),
    }
}

/// At a location of a procedure that is entered, if it has the location.
fn value_in<D: Domain, L: Ledger>(
    alloc: Global,
    dom: &D,
    plan: &Plan,
    entered: Entered<D::State>,
    at: &Location,
    steps: &mut Steps<L>,
) -> Result<Option<Answer<D::State>>, Memory>
    requires there { entered.frame.place < length plan.now.program }
    ensures is { IfOk result (λ o. option_map value_of o ≡
        value_in (D.operations dom.now) plan.now.engine
        (earlier plan.now.program (suc entered.frame.place)) entered.frame.sites
        (value_of entered.before) at.now) }
{
    let Entered { frame, before } = entered;
    let routine = &plan.routines()[frame.place];
    let interpreter = Interpreter {
        alloc,
        dom,
        plan,
        frame: &frame,
    };
    value_within(&interpreter, routine, before, at, steps)
}

/// At a location under a chain, which has the outermost call first, if the program has them.
pub(crate) fn value_at<D: Domain, L: Ledger>(
    alloc: Global,
    dom: &D,
    plan: &Plan,
    at: &Location,
    chain: &[StmtId],
    steps: &mut Steps<L>,
) -> Result<Option<Answer<D::State>>, Memory>
    requires some { 0 < length plan.now.program }
    ensures is { IfOk result (λ o. option_map value_of o ≡
        value_at (D.operations dom.now) plan.now.engine plan.now.program at.now
        (reverse chain.now)) }
{
    match enter_chain(alloc, dom, plan, chain, steps)? {
        None => Ok(None),
        Some(entered) => value_in(alloc, dom, plan, entered, at, steps),
    }
}

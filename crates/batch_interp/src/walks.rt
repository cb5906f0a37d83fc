//! The way along a chain to a location.
ghost use Rattle.std.specs.Prelude.{◌≡◌, ◌<◌, ◌-◌, [], ◌∷◌, length, reverse, Option, Some, None, IfOk};
ghost use Rattle.batch_meaning.specs.Values.{lift};
ghost use Rattle.batch_meaning.specs.Places.{entered, entry};
ghost use Rattle.batch_interp.specs.Answered.{value_of};
ghost use Rattle.batch_interp.specs.Seeking.{call_at};
ghost use Rattle.batch_interp.specs.Handing.{told_of};
ghost use Rattle.batch_interp.specs.Walking.{entered_of, IsEntered, called_from};

use crate::Answer;
use crate::frames::{CallFrame, Interpreter, Plan};
use crate::remembered::Remembered;
use crate::spots::{Seen, copy_of_chain, seek};
use base_values::Memory;
use domain_laws::{Domain, Steps};
use imp_slots::{SlotCall, SlotNode};
use imp_syntax::StmtId;
use std::alloc::Global;
use std::sync::ledger::Ledger;

/// A procedure that is entered, and what is known before its body.
#[derive(Drop)]
pub(crate) struct Entered<S> {
    pub(crate) frame: CallFrame,
    pub(crate) before: Answer<S>,
}

/// Main, entered.
#[tactic(auto, using(crate::proofs::Walkings::main_entry))]
pub(crate) fn enter_main<D: Domain, L: Ledger>(
    alloc: Global,
    dom: &D,
    plan: &Plan,
    steps: &mut Steps<L>,
) -> Result<Entered<D::State>, Memory>
    requires some { 0 < length plan.now.program }
    ensures is { IfOk result (λ e. entry (D.operations dom.now) plan.now.engine
        (reverse plan.now.program) [] ≡ Some (entered_of plan.now.program e)) }
    ensures main { IfOk result (λ e. e.frame ≡ record {
      place = length plan.now.program - 1;
      sites = [];
    }) }
{
    let routines = plan.routines();
    let frame = CallFrame::main(alloc, routines);
    let state = dom.init(alloc, routines[frame.place].layout(), steps)?;
    Ok(Entered {
        frame,
        before: Answer::State(state),
    })
}

/// Before the body of a procedure that is called.
fn entered_value<D: Domain, L: Ledger>(
    alloc: Global,
    dom: &D,
    call: &SlotCall,
    before: &Answer<D::State>,
    steps: &mut Steps<L>,
) -> Result<Answer<D::State>, Memory>
    ensures is { IfOk result (λ a. value_of a ≡ lift ((D.operations dom.now).enter
        call.now.entering) (value_of before.now)) }
{
    match before {
        Answer::State(state) => Ok(Answer::State(dom.enter(alloc, call, state, steps)?)),
        Answer::Over { head, chain } => Ok(Answer::Over {
            head: *head,
            chain: copy_of_chain(alloc, chain)?,
        }),
    }
}

/// The procedure of a call, entered.
pub(crate) fn enter<D: Domain, L: Ledger>(
    interpreter: &Interpreter<D>,
    site: u32,
    call: &SlotCall,
    callee: usize,
    before: &Answer<D::State>,
    steps: &mut Steps<L>,
) -> Result<Entered<D::State>, Memory>
    ensures is { IfOk result (λ e. told_of e ≡ (
      record {
        place = callee;
        sites = site ∷ interpreter.now.frame.now.sites;
      },
      lift ((D.operations interpreter.now.dom.now).enter call.now.entering)
          (value_of before.now),
    )) }
{
    let before = entered_value(interpreter.alloc, interpreter.dom, call, before, steps)?;
    let frame = interpreter.frame.callee(interpreter.alloc, site, callee)?;
    Ok(Entered { frame, before })
}

/// The procedure of a call, entered, where it stands before its caller.
fn enter_callee<D: Domain, L: Ledger>(
    interpreter: &Interpreter<D>,
    site: u32,
    call: &SlotCall,
    callee: usize,
    before: Answer<D::State>,
    steps: &mut Steps<L>,
) -> Result<Option<Entered<D::State>>, Memory>
    ensures is { IfOk result (λ o. IsEntered interpreter.now.plan.now.program
        (site ∷ interpreter.now.frame.now.sites) o (called_from
        (D.operations interpreter.now.dom.now) interpreter.now.plan.now.program
        interpreter.now.frame.now.place (value_of before) (Some (call.now, callee)))) }
{
    match interpreter.plan.callee(interpreter.frame.place, callee) {
        None => Ok(None),
        Some(_) => {
            let entered = enter(interpreter, site, call, callee, &before, steps)?;
            Ok(Some(entered))
        }
    }
}

/// The procedure that a statement calls, entered.
fn enter_seen<D: Domain, L: Ledger>(
    interpreter: &Interpreter<D>,
    site: u32,
    seen: Seen<D::State>,
    steps: &mut Steps<L>,
) -> Result<Option<Entered<D::State>>, Memory>
    ensures is { IfOk result (λ o. IsEntered interpreter.now.plan.now.program
        (site ∷ interpreter.now.frame.now.sites) o (called_from
        (D.operations interpreter.now.dom.now) interpreter.now.plan.now.program
        interpreter.now.frame.now.place (value_of seen.entry.before)
        (call_at seen.entry.node.now))) }
{
    match seen.node {
        SlotNode::Call(_, call, callee) => {
            enter_callee(
                interpreter,
                site,
                call,
                *callee as usize,
                seen.before,
                steps,
            )
        }
        _ => Ok(None),
    }
}

/// The procedure that a call statement of a procedure calls, entered.
fn enter_call<D: Domain, L: Ledger>(
    alloc: Global,
    dom: &D,
    plan: &Plan,
    caller: Entered<D::State>,
    site: u32,
    steps: &mut Steps<L>,
) -> Result<Option<Entered<D::State>>, Memory>
    requires there { caller.frame.place < length plan.now.program }
    ensures is { IfOk result (λ o. IsEntered plan.now.program (site ∷ caller.frame.sites) o
        (entered (D.operations dom.now) plan.now.engine site caller.frame.sites
        (entered_of plan.now.program caller))) }
{
    let Entered { frame, before } = caller;
    let body = plan.routines()[frame.place].body();
    let interpreter = Interpreter {
        alloc,
        dom,
        plan,
        frame: &frame,
    };
    let mut remembered = Remembered::new(alloc);
    match seek(&interpreter, body, before, site, &mut remembered, steps)? {
        None => Ok(None),
        Some(seen) => enter_seen(&interpreter, site, seen, steps),
    }
}

/// The last procedure of a chain, entered along it. The chain has the outermost call first.
pub(crate) fn enter_chain<D: Domain, L: Ledger>(
    alloc: Global,
    dom: &D,
    plan: &Plan,
    chain: &[StmtId],
    steps: &mut Steps<L>,
) -> Result<Option<Entered<D::State>>, Memory>
    requires some { 0 < length plan.now.program }
    ensures is { IfOk result (λ o. IsEntered plan.now.program (reverse chain.now) o
        (entry (D.operations dom.now) plan.now.engine (reverse plan.now.program)
        (reverse chain.now))) }
{
    let mut now = enter_main(alloc, dom, plan, steps)?;
    for site in chain {
        match enter_call(alloc, dom, plan, now, site.number(), steps)? {
            None => return Ok(None),
            Some(next) => now = next,
        }
    }
    Ok(Some(now))
}

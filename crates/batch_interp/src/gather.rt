//! One walk through a block: what is gathered of its statements, and the procedures that its calls enter.
ghost use Rattle.std.specs.Prelude.{◌≡◌, ◌++◌, ℕ, List, OnOk};
ghost use Rattle.imp_slots.specs.Plain.{Effect};
ghost use Rattle.imp_slots.specs.ActionViews.{effect_of};
ghost use Rattle.imp_slots.specs.declared.blocks.SlotNode.TheVariants as node;
ghost use Rattle.batch_meaning.specs.Values.{Value};
ghost use Rattle.batch_interp.specs.Answered.{value_of};
ghost use Rattle.batch_interp.specs.Gathered.{gathered, gathered_in, within};
ghost use Rattle.batch_interp.specs.Handing.{told_of, calls_from, calls_inside};
ghost use Rattle.batch_interp.specs.Here.{here, AreRightHere};
ghost use Rattle.batch_interp.specs.Remembering.{AreRight};
ghost use Rattle.batch_interp.specs.Added.{Adds};

use crate::Answer;
use crate::frames::{Interpreter, Plan};
use crate::remembered::Remembered;
use crate::spots::{assumed, behind_node, copy_of, head_from};
use crate::walks::{Entered, enter};
use base_values::{Items, Memory};
use domain_laws::{Domain, Steps};
use imp_slots::{SlotAction, SlotBlock, SlotCond, SlotNode};
use std::alloc::Global;
use std::sync::ledger::Ledger;

/// What a walk through a block gathers: something of a simple statement, from what is known before it,
/// and something of a loop, from what is known at its head.
pub(crate) trait Gather<D: Domain> {
    /// What is told of one item.
    ghost Told: { Type 0 };

    /// What is gathered of a simple statement, by what it does.
    ghost at_simple: { Effect → Value D.State → List Told };

    /// What is gathered of a loop, by its number.
    ghost at_head: { ℕ → Value D.State → List Told };

    /// What is gathered so far.
    ghost told: { Self → List Told };

    /// Adds what is gathered of a simple statement, from what is known before it.
    fn add_simple(
        &mut self,
        alloc: Global,
        dom: &D,
        action: &SlotAction,
        before: &Answer<D::State>,
    ) -> Result<(), Memory>
        ensures added { OnOk result (told self.new ≡ told self.old ++
            at_simple (effect_of action.now) (value_of before.now)) };

    /// Adds what is gathered of a loop, from what is known at its head.
    fn add_head(&mut self, n: u32, head: Answer<D::State>) -> Result<(), Memory>
        ensures added { OnOk result (told self.new ≡ told self.old ++ at_head n (value_of head)) };
}

/// Gathers of a block, and adds the procedures that its calls enter.
#[cycle(gather)]
#[tactic(auto, using(imp_slots::specs::BlockFalls::node_falls))]
fn gather_from<D: Domain, G: Gather<D>, L: Ledger>(
    interpreter: &Interpreter<D>,
    block: &SlotBlock,
    before: Answer<D::State>,
    found: &mut G,
    calls: &mut Items<Entered<D::State>>,
    remembered: &mut Remembered<D::State>,
    steps: &mut Steps<L>,
) -> Result<(), Memory>
    requires right { AreRightHere D.operations interpreter.now remembered.old }
    ensures added { OnOk result (G.told found.new ≡ G.told found.old ++
        here D.operations interpreter.now (gathered (within G.at_simple G.at_head)) block.now
        (value_of before)) }
    ensures calls { OnOk result (Adds told_of calls.old calls.new
        (here D.operations interpreter.now calls_from block.now (value_of before))) }
    ensures right { OnOk result (AreRightHere D.operations interpreter.now remembered.new) }
{
    let mut now = before;
    for node in block.statements() {
        gather_in(interpreter, node, &now, found, calls, remembered, steps)?;
        now = behind_node(interpreter, node, now, remembered, steps)?;
    }
    Ok(())
}

/// Gathers of a statement and of those inside it, and adds the procedures that calls there enter.
#[cycle(gather)]
fn gather_in<D: Domain, G: Gather<D>, L: Ledger>(
    interpreter: &Interpreter<D>,
    node: &SlotNode,
    before: &Answer<D::State>,
    found: &mut G,
    calls: &mut Items<Entered<D::State>>,
    remembered: &mut Remembered<D::State>,
    steps: &mut Steps<L>,
) -> Result<(), Memory>
    requires right { AreRightHere D.operations interpreter.now remembered.old }
    ensures added { OnOk result (G.told found.new ≡ G.told found.old ++
        here D.operations interpreter.now (gathered_in (within G.at_simple G.at_head)) node.now
        (value_of before.now)) }
    ensures calls { OnOk result (Adds told_of calls.old calls.new
        (here D.operations interpreter.now calls_inside node.now (value_of before.now))) }
    ensures right { OnOk result (AreRightHere D.operations interpreter.now remembered.new) }
{
    match node {
        SlotNode::Simple(_, action) => found.add_simple(
            interpreter.alloc,
            interpreter.dom,
            action,
            before,
        ),
        SlotNode::If(_, cond, then, els) => {
            let holds = assumed(interpreter, cond, true, before, steps)?;
            gather_from(interpreter, then, holds, found, calls, remembered, steps)?;
            let fails = assumed(interpreter, cond, false, before, steps)?;
            gather_from(interpreter, els, fails, found, calls, remembered, steps)
        }
        SlotNode::While(n, cond, body) => gather_loop(
            interpreter,
            *n,
            cond,
            body,
            before,
            found,
            calls,
            remembered,
            steps,
        ),
        SlotNode::Call(n, call, callee) => {
            calls.push(enter(interpreter, *n, call, *callee as usize, before, steps)?)
        }
        SlotNode::Break(_) => Ok(()),
    }
}

/// Gathers of a loop, then of the statements inside it, and adds the procedures that calls there enter.
#[cycle(gather)]
fn gather_loop<D: Domain, G: Gather<D>, L: Ledger>(
    interpreter: &Interpreter<D>,
    n: u32,
    cond: &SlotCond,
    body: &SlotBlock,
    before: &Answer<D::State>,
    found: &mut G,
    calls: &mut Items<Entered<D::State>>,
    remembered: &mut Remembered<D::State>,
    steps: &mut Steps<L>,
) -> Result<(), Memory>
    requires right { AreRightHere D.operations interpreter.now remembered.old }
    ensures added { OnOk result (G.told found.new ≡ G.told found.old ++
        here D.operations interpreter.now (gathered_in (within G.at_simple G.at_head))
        (node.While n cond.now body.now) (value_of before.now)) }
    ensures calls { OnOk result (Adds told_of calls.old calls.new
        (here D.operations interpreter.now calls_inside (node.While n cond.now body.now)
        (value_of before.now))) }
    ensures right { OnOk result (AreRightHere D.operations interpreter.now remembered.new) }
{
    let head = head_from(interpreter, n, cond, body, before, remembered, steps)?;
    let inside = assumed(interpreter, cond, true, &head, steps)?;
    found.add_head(n, head)?;
    gather_from(interpreter, body, inside, found, calls, remembered, steps)
}

/// Gathers of the body of a procedure that is entered, and adds the procedures that its calls enter.
pub(crate) fn gather_entered<D: Domain, G: Gather<D>, L: Ledger>(
    alloc: Global,
    dom: &D,
    plan: &Plan,
    body: &SlotBlock,
    entered: &Entered<D::State>,
    found: &mut G,
    calls: &mut Items<Entered<D::State>>,
    remembered: &mut Remembered<D::State>,
    steps: &mut Steps<L>,
) -> Result<(), Memory>
    requires right { AreRight (D.operations dom.now) plan.now remembered.old }
    ensures added { OnOk result (G.told found.new ≡ G.told found.old ++
        gathered (within G.at_simple G.at_head) (D.operations dom.now) plan.now
        entered.now.frame.place entered.now.frame.sites body.now (value_of entered.now.before)) }
    ensures calls { OnOk result (Adds told_of calls.old calls.new
        (calls_from (D.operations dom.now) plan.now entered.now.frame.place entered.now.frame.sites
        body.now (value_of entered.now.before))) }
    ensures right { OnOk result (AreRight (D.operations dom.now) plan.now remembered.new) }
{
    let before = copy_of(alloc, dom, &entered.before)?;
    let interpreter = Interpreter {
        alloc,
        dom,
        plan,
        frame: &entered.frame,
    };
    gather_from(&interpreter, body, before, found, calls, remembered, steps)
}

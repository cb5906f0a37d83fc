//! What is known at the heads of loops.
ghost use Rattle.std.specs.Prelude.{◌≡◌, ◌<◌, ℕ, suc, [], ◌∷◌, length, map, IfOk, OnOk};
ghost use Rattle.imp_check.specs.Slots.{routines_of};
ghost use Rattle.imp_slots.specs.Fits.{IsChecked};
ghost use Rattle.imp_chains.specs.Chains.{chains};
ghost use Rattle.call_contexts.specs.Settings.{setting_of};
ghost use Rattle.cert_meaning.specs.Written.{loops};
ghost use Rattle.batch_meaning.specs.Values.{Value};
ghost use Rattle.batch_interp.specs.Added.{Adds};
ghost use Rattle.batch_interp.specs.Answered.{value_of};
ghost use Rattle.batch_interp.specs.Frames.{body_at};
ghost use Rattle.batch_interp.specs.Handing.{AreEntered, AreHanded, AreHandedBy};
ghost use Rattle.batch_interp.specs.Heads.{loop_value, under_told, told_under, all_loops_told};
ghost use Rattle.batch_interp.specs.Remembering.{AreRight};

use crate::Answer;
use crate::calls::{Handed, Handover, all_handed, main_handed, taken};
use crate::frames::Plan;
use crate::gather::{Gather, gather_entered};
use crate::pieces::{append, in_one};
use crate::remembered::Remembered;
use crate::walks::Entered;
use base_values::{Items, Memory};
use call_contexts::{Setting, few_routines};
use domain_laws::{Domain, Steps};
use imp_chains::chains_go_through_callers;
use imp_slots::SlotAction;
use imp_syntax::{Chain, StmtId};
use imp_table::Checked;
use std::alloc::Global;
use std::sync::ledger::Ledger;

/// A loop, and what is known at its head.
#[derive(Debug, Drop)]
pub struct LoopHead<S> {
    /// The loop.
    pub stmt: StmtId,
    /// What is known where its condition is tested.
    pub value: Answer<S>,
}

/// The loops of a procedure under one chain to it.
#[derive(Debug, Drop)]
pub struct LoopsUnder<S> {
    /// The calls from main to the procedure, outermost first.
    pub chain: Chain,
    /// Its loops, in preorder.
    pub heads: Items<LoopHead<S>>,
}

/// Loops are gathered, each with what is known at its head.
impl<D: Domain> Gather<D> for Items<LoopHead<D::State>> {
    ghost Told = { ℕ × Value D.State };

    ghost at_simple = { λ e v. [] };

    ghost at_head = { λ n v. (n, v) ∷ [] };

    ghost told = { λ it. map loop_value it };

    fn add_simple(
        &mut self,
        _alloc: Global,
        _dom: &D,
        _action: &SlotAction,
        _before: &Answer<D::State>,
    ) -> Result<(), Memory> {
        Ok(())
    }

    #[tactic(auto, using(crate::proofs::HeadLemmas::heads_one))]
    fn add_head(&mut self, n: u32, head: Answer<D::State>) -> Result<(), Memory>
        ensures added { OnOk result (Adds loop_value self.old self.new ((n, value_of head) ∷ [])) }
    {
        self.push(LoopHead {
            stmt: StmtId::new(n),
            value: head,
        })
    }
}

/// The loops of a procedure under its chains, and what calls hand down.
#[derive(Drop)]
struct Walked<S> {
    loops: Items<LoopsUnder<S>>,
    calls: Items<Handed<S>>,
}

/// The loops of the procedure at a place under all chains to it, and what its calls hand down, from the
/// procedure entered under those chains.
fn loops_under<D: Domain, L: Ledger>(
    alloc: Global,
    dom: &D,
    plan: &Plan,
    place: usize,
    entered: &[Entered<D::State>],
    remembered: &mut Remembered<D::State>,
    steps: &mut Steps<L>,
) -> Result<Walked<D::State>, Memory>
    requires checked { IsChecked plan.now.program }
    requires within { place < length plan.now.program }
    requires entered { AreEntered (D.operations dom.now) plan.now place
        (chains plan.now.program place) entered.now }
    requires right { AreRight (D.operations dom.now) plan.now remembered.old }
    ensures loops { IfOk result (λ w. map under_told w.loops ≡
        told_under (D.operations dom.now) plan.now.engine plan.now.program
        (loops (body_at plan.now.program place)) (chains plan.now.program place)) }
    ensures calls { IfOk result (λ w. AreHandedBy (D.operations dom.now) plan.now place w.calls) }
    ensures right { OnOk result (AreRight (D.operations dom.now) plan.now remembered.new) }
{
    let body = plan.body(place);
    let mut loops = Items::new(alloc);
    let mut handed = Items::new(alloc);
    for next in entered {
        let chain = next.frame.chain(alloc)?;
        let mut heads = Items::new(alloc);
        let mut calls = Items::new(alloc);
        gather_entered(
            alloc, dom, plan, body, next, &mut heads, &mut calls, remembered, steps,
        )?;
        loops.push(LoopsUnder { chain, heads })?;
        handed = all_handed(alloc, handed, calls)?;
    }
    Ok(Walked {
        loops,
        calls: handed,
    })
}

/// The loops of the procedure at a place, and what is handed down to those before it.
fn loops_at<D: Domain, L: Ledger>(
    alloc: Global,
    dom: &D,
    plan: &Plan,
    place: usize,
    calls: Items<Handed<D::State>>,
    remembered: &mut Remembered<D::State>,
    steps: &mut Steps<L>,
) -> Result<Walked<D::State>, Memory>
    requires checked { IsChecked plan.now.program }
    requires within { place < length plan.now.program }
    requires handed { AreHanded (D.operations dom.now) plan.now (suc place) calls }
    requires right { AreRight (D.operations dom.now) plan.now remembered.old }
    ensures loops { IfOk result (λ w. map under_told w.loops ≡
        told_under (D.operations dom.now) plan.now.engine plan.now.program
        (loops (body_at plan.now.program place)) (chains plan.now.program place)) }
    ensures calls { IfOk result (λ w. AreHanded (D.operations dom.now) plan.now place w.calls) }
    ensures right { OnOk result (AreRight (D.operations dom.now) plan.now remembered.new) }
{
    chains_go_through_callers();
    let Handover { entered, others } = taken(alloc, calls, place)?;
    let Walked { loops, mut calls } = loops_under(
        alloc,
        dom,
        plan,
        place,
        entered.as_slice(),
        remembered,
        steps,
    )?;
    append(&mut calls, others)?;
    Ok(Walked { loops, calls })
}

/// The loops of a program under the chains of their procedures, each with what is known at its head: the
/// procedures in the order of the text, the chains to a procedure in their order, its loops in preorder.
/// The states have the frames of all calls.
///
/// The procedures are walked from main down, each once under each chain to it, from what the calls in
/// the later ones hand down. Its only error is out of memory.
pub fn loop_heads<D: Domain, L: Ledger>(
    alloc: Global,
    dom: &D,
    prog: &Checked,
    setting: &Setting,
    steps: &mut Steps<L>,
) -> Result<Items<LoopsUnder<D::State>>, Memory>
    requires setting { setting.now ≡ setting_of setting.now.engine (routines_of prog.now) }
    ensures exact { IfOk result (λ us. map under_told us ≡
        all_loops_told (D.operations dom.now) setting.now.engine (routines_of prog.now) 0
        (routines_of prog.now)) }
{
    let count = few_routines(prog).len();
    let plan = Plan::new(prog, setting);
    let mut calls = main_handed(alloc, dom, &plan, steps)?;
    let mut parts = Items::new(alloc);
    let mut remembered = Remembered::new(alloc);
    for place in (0..count).rev() {
        let walked = loops_at(alloc, dom, &plan, place, calls, &mut remembered, steps)?;
        calls = walked.calls;
        parts.push(walked.loops)?;
    }
    in_one(alloc, parts)
}

//! Configurations and steps.
ghost use Rattle.std.specs.Prelude.{◌≡◌, [], ◌∷◌, OnOk, IfOk};
ghost use Rattle.imp_slots.specs.Plain as plain;
ghost use Rattle.imp_slots.specs.Plain.{Routine as PlainRoutine};
ghost use Rattle.imp_slots.specs.ActionViews.{effect_of};
ghost use Rattle.imp_slots.specs.BlockViews.{code_of, before_code};
ghost use Rattle.concrete_sem.specs.Steps as steps;
ghost use Rattle.concrete_sem.specs.Steps.{In};
ghost use Rattle.concrete_sem.specs.Passing.{pass};
ghost use Rattle.imp_run.specs.Attempts.{Gave};
ghost use Rattle.imp_run.specs.Machine.{StepsTo, frames_of, frames_on, work_of, step_of, config_of, BeginsSo, TestsSo};
ghost use Rattle.imp_run.specs.Work.{work_on};

use crate::actions::perform;
use crate::evaluation::truth_of;
use crate::halt::Halt;
use crate::passing::{pass, take_back};
use crate::slots::Slots;
use crate::store::Store;
use crate::work::{Item, leave_loop, pop_item, push_block, push_item};
use base_values::Memory;
use concrete_sem::FaultKind;
use imp_slots::{Routine, SlotAction, SlotBlock, SlotCall, SlotCond, SlotNode};
use std::alloc::Global;
use std::mem::replace;

/// A frame: its procedure's place, its variables, its work.
#[derive(Drop)]
pub(crate) struct Activation<'a> {
    pub(crate) place: u32,
    pub(crate) slots: Slots,
    pub(crate) work: Vec<Item<'a>>,
}

/// What a step comes to.
#[derive(Clone, Copy)]
pub(crate) enum Stepped {
    Next,
    Fault(u32, FaultKind),
    NoInput(u32),
    Ended,
}

/// A simple statement is done.
fn do_simple<'a>(
    alloc: Global,
    store: &mut Store<'_>,
    slots: &mut Slots,
    work: &mut Vec<Item<'a>>,
    number: u32,
    action: &SlotAction,
    rest: &'a [SlotNode],
) -> Result<Stepped, Memory>
    ensures is { IfOk result (λ s. StepsTo s store.old slots.old
        (λ base. steps.Do (plain.Simple number (effect_of action.now) (code_of rest.now))
        (work_on base work.old.items)) store.new slots.new
        (λ base. work_on base work.new.items)) }
{
    match perform(alloc, store, slots, action) {
        Ok(()) => {
            push_block(work, rest)?;
            push_item(work, Item::Done(number, None))?;
            Ok(Stepped::Next)
        }
        Err(Halt::Fault(fault)) => Ok(Stepped::Fault(number, fault)),
        Err(Halt::NoInput) => Ok(Stepped::NoInput(number)),
        Err(Halt::Memory) => Err(Memory),
    }
}

/// A condition chooses a block.
fn do_if<'a>(
    store: &Store<'_>,
    slots: &Slots,
    work: &mut Vec<Item<'a>>,
    number: u32,
    cond: &SlotCond,
    blocks: (&'a SlotBlock, &'a SlotBlock),
    rest: &'a [SlotNode],
) -> Result<Stepped, Memory>
    ensures is { IfOk result (λ s. StepsTo s store.now slots.now
        (λ base. steps.Do (plain.If number cond.now blocks.entry.0.now blocks.entry.1.now
        (code_of rest.now)) (work_on base work.old.items)) store.now slots.now
        (λ base. work_on base work.new.items)) }
{
    let (then, els) = blocks;
    match truth_of(slots, cond) {
        Ok(truth) => {
            push_block(work, rest)?;
            push_item(work, Item::Done(number, None))?;
            let chosen = if truth { then } else { els };
            push_block(work, chosen.statements())?;
            Ok(Stepped::Next)
        }
        Err(fault) => Ok(Stepped::Fault(number, fault)),
    }
}

/// A loop begins.
fn do_while<'a>(
    store: &Store<'_>,
    slots: &Slots,
    work: &mut Vec<Item<'a>>,
    number: u32,
    cond: &'a SlotCond,
    body: &'a SlotBlock,
    rest: &'a [SlotNode],
) -> Result<Stepped, Memory>
    ensures is { IfOk result (λ s. StepsTo s store.now slots.now
        (λ base. steps.Do (plain.While number cond.now body.now (code_of rest.now))
        (work_on base work.old.items)) store.now slots.now
        (λ base. work_on base work.new.items)) }
{
    push_block(work, rest)?;
    push_item(work, Item::Test(number, cond, body))?;
    Ok(Stepped::Next)
}

/// A loop's condition is tested.
fn do_test<'a>(
    store: &Store<'_>,
    slots: &Slots,
    work: &mut Vec<Item<'a>>,
    number: u32,
    cond: &'a SlotCond,
    body: &'a SlotBlock,
) -> Result<Stepped, Memory>
    ensures is { IfOk result (λ s. StepsTo s store.now slots.now
        (λ base. steps.Test number cond.now body.now (work_on base work.old.items)) store.now
        slots.now (λ base. work_on base work.new.items)) }
{
    match truth_of(slots, cond) {
        Ok(true) => {
            push_item(work, Item::Test(number, cond, body))?;
            push_block(work, body.statements())?;
            Ok(Stepped::Next)
        }
        Ok(false) => {
            push_item(work, Item::Done(number, None))?;
            Ok(Stepped::Next)
        }
        Err(fault) => Ok(Stepped::Fault(number, fault)),
    }
}

/// A break leaves the innermost loop.
fn do_break<'a>(
    store: &Store<'_>,
    slots: &Slots,
    work: &mut Vec<Item<'a>>,
    number: u32,
    rest: &'a [SlotNode],
) -> Result<Stepped, Memory>
    ensures is { IfOk result (λ s. StepsTo s store.now slots.now
        (λ base. steps.Do (plain.Break number (code_of rest.now)) (work_on base work.old.items))
        store.now slots.now (λ base. work_on base work.new.items)) }
{
    match leave_loop(work) {
        Some(head) => {
            push_item(work, Item::Done(head, None))?;
            Ok(Stepped::Next)
        }
        None => Ok(Stepped::Ended),
    }
}

/// A call passes its arguments, and gives the callee's variables.
fn do_call<'a>(
    alloc: Global,
    slots: &Slots,
    work: &mut Vec<Item<'a>>,
    number: u32,
    call: &'a SlotCall,
    rest: &'a [SlotNode],
) -> Result<Slots, Halt>
    ensures passed { Gave result (pass call.now.entering slots.now) }
    ensures work { OnOk result ((w : steps.Work) → work_on w work.new.items ≡
        steps.Done number (Some call.now) (steps.push (code_of rest.now)
        (work_on w work.old.items))) }
{
    let callee = pass(alloc, slots, call.entering())?;
    push_block(work, rest)?;
    push_item(work, Item::Done(number, Some(call)))?;
    Ok(callee)
}

/// The heap, the last frame, and the frames below it.
#[derive(Drop)]
pub(crate) struct RunState<'a> {
    pub(crate) store: Store<'a>,
    pub(crate) last: Activation<'a>,
    pub(crate) below: Vec<Activation<'a>>,
}

/// The frame of a callee is put on the others.
#[tactic(auto, using(crate::proofs::WorkLemmas::frames_on_push))]
fn enter<'a>(
    machine: &mut RunState<'a>,
    place: u32,
    slots: Slots,
    body: &'a [SlotNode],
    alloc: Global,
) -> Result<(), Memory>
    ensures heap { machine.new.store ≡ machine.old.store }
    ensures frames { OnOk result (frames_of machine.new ≡
        In place slots (steps.push (code_of body.now) (steps.Ret place))
        ∷ frames_of machine.old) }
{
    let mut work = Vec::new(alloc);
    push_block(&mut work, body)?;
    let last = Activation { place, slots, work };
    let caller = replace(&mut machine.last, last);
    machine.below.push(caller)?;
    Ok(())
}

/// The last frame is removed, and its caller takes the result.
#[tactic(auto, using(crate::proofs::WorkLemmas::frames_on_push))]
fn leave(machine: &mut RunState<'_>) -> Result<Stepped, Memory>
    ensures is { IfOk result (λ s. steps.returns_to machine.old.store machine.old.last.slots
        (frames_on [] machine.old.below.items) ≡ step_of s (config_of machine.new)) }
{
    let Some(mut caller) = machine.below.pop() else {
        return Ok(Stepped::Ended);
    };
    match pop_item(&mut caller.work) {
        Some(Item::Done(number, Some(call))) => {
            take_back(&mut caller.slots, &machine.last.slots, call.returning())?;
            push_item(&mut caller.work, Item::Done(number, Some(call)))?;
            machine.last = caller;
            Ok(Stepped::Next)
        }
        Some(Item::Done(_, None)) => Ok(Stepped::Ended),
        Some(Item::Do(_, _)) => Ok(Stepped::Ended),
        Some(Item::Test(_, _, _)) => Ok(Stepped::Ended),
        None => Ok(Stepped::Ended),
    }
}

/// A call enters its callee, where the program has it.
fn begin_call<'a>(
    alloc: Global,
    program: &'a [Routine],
    machine: &mut RunState<'a>,
    number: u32,
    call: &'a SlotCall,
    place: u32,
    rest: &'a [SlotNode],
) -> Result<Stepped, Memory>
    ensures is { IfOk result (λ s. steps.step_frame program.now machine.old.last.place
        (frames_on [] machine.old.below.items) machine.old.store machine.old.last.slots
        (steps.Do (plain.Call number call.now place (code_of rest.now))
        (work_of machine.old.last.place machine.old.last.work.items)) ≡
        step_of s (config_of machine.new)) }
{
    let last = &mut machine.last;
    match do_call(alloc, &last.slots, &mut last.work, number, call, rest) {
        Ok(slots) => match program.get(place as usize) {
            Some(routine) => {
                enter(machine, place, slots, routine.body().statements(), alloc)?;
                Ok(Stepped::Next)
            }
            None => Ok(Stepped::Ended),
        },
        Err(Halt::Fault(fault)) => Ok(Stepped::Fault(number, fault)),
        Err(Halt::NoInput) => Ok(Stepped::NoInput(number)),
        Err(Halt::Memory) => Err(Memory),
    }
}

fn begin_simple<'a>(
    alloc: Global,
    machine: &mut RunState<'a>,
    number: u32,
    action: &SlotAction,
    rest: &'a [SlotNode],
) -> Result<Stepped, Memory>
    ensures is { IfOk result (λ s. BeginsSo (plain.Simple number (effect_of action.now)
        (code_of rest.now)) machine.old s machine.new) }
{
    let last = &mut machine.last;
    let stepped = do_simple(
        alloc,
        &mut machine.store,
        &mut last.slots,
        &mut last.work,
        number,
        action,
        rest,
    )?;
    Ok(stepped)
}

fn begin_if<'a>(
    machine: &mut RunState<'a>,
    number: u32,
    cond: &SlotCond,
    blocks: (&'a SlotBlock, &'a SlotBlock),
    rest: &'a [SlotNode],
) -> Result<Stepped, Memory>
    ensures is { IfOk result (λ s. BeginsSo (plain.If number cond.now blocks.entry.0.now
        blocks.entry.1.now (code_of rest.now)) machine.old s machine.new) }
{
    let last = &mut machine.last;
    let stepped = do_if(
        &machine.store,
        &last.slots,
        &mut last.work,
        number,
        cond,
        blocks,
        rest,
    )?;
    Ok(stepped)
}

fn begin_while<'a>(
    machine: &mut RunState<'a>,
    number: u32,
    cond: &'a SlotCond,
    body: &'a SlotBlock,
    rest: &'a [SlotNode],
) -> Result<Stepped, Memory>
    ensures is { IfOk result (λ s. BeginsSo (plain.While number cond.now body.now
        (code_of rest.now)) machine.old s machine.new) }
{
    let last = &mut machine.last;
    let stepped = do_while(
        &machine.store,
        &last.slots,
        &mut last.work,
        number,
        cond,
        body,
        rest,
    )?;
    Ok(stepped)
}

fn begin_break<'a>(
    machine: &mut RunState<'a>,
    number: u32,
    rest: &'a [SlotNode],
) -> Result<Stepped, Memory>
    ensures is { IfOk result (λ s. BeginsSo (plain.Break number (code_of rest.now)) machine.old s
        machine.new) }
{
    let last = &mut machine.last;
    let stepped = do_break(&machine.store, &last.slots, &mut last.work, number, rest)?;
    Ok(stepped)
}

fn begin_test<'a>(
    machine: &mut RunState<'a>,
    number: u32,
    cond: &'a SlotCond,
    body: &'a SlotBlock,
) -> Result<Stepped, Memory>
    ensures is { IfOk result (λ s. TestsSo number cond.now body.now machine.old s machine.new) }
{
    let last = &mut machine.last;
    let stepped = do_test(
        &machine.store,
        &last.slots,
        &mut last.work,
        number,
        cond,
        body,
    )?;
    Ok(stepped)
}

/// A statement begins.
fn begin<'a>(
    alloc: Global,
    program: &'a [Routine],
    machine: &mut RunState<'a>,
    node: &'a SlotNode,
    rest: &'a [SlotNode],
) -> Result<Stepped, Memory>
    ensures is { IfOk result (λ s. steps.step_frame program.now machine.old.last.place
        (frames_on [] machine.old.below.items) machine.old.store machine.old.last.slots
        (steps.Do (before_code node.now (code_of rest.now))
        (work_of machine.old.last.place machine.old.last.work.items)) ≡
        step_of s (config_of machine.new)) }
{
    match node {
        SlotNode::Simple(number, action) => {
            let stepped = begin_simple(alloc, machine, *number, action, rest)?;
            Ok(stepped)
        }
        SlotNode::If(number, cond, then, els) => {
            let stepped = begin_if(machine, *number, cond, (then, els), rest)?;
            Ok(stepped)
        }
        SlotNode::While(number, cond, body) => {
            let stepped = begin_while(machine, *number, cond, body, rest)?;
            Ok(stepped)
        }
        SlotNode::Call(number, call, place) => {
            begin_call(alloc, program, machine, *number, call, *place, rest)
        }
        SlotNode::Break(number) => {
            let stepped = begin_break(machine, *number, rest)?;
            Ok(stepped)
        }
    }
}

/// One step of the program.
pub(crate) fn step<'a>(
    alloc: Global,
    program: &'a [Routine],
    machine: &mut RunState<'a>,
) -> Result<Stepped, Memory>
    ensures is { IfOk result (λ s. steps.step program.now (config_of machine.old) ≡
        step_of s (config_of machine.new)) }
{
    match pop_item(&mut machine.last.work) {
        None => leave(machine),
        Some(Item::Done(_, _)) => Ok(Stepped::Next),
        Some(Item::Test(number, cond, body)) => {
            let stepped = begin_test(machine, number, cond, body)?;
            Ok(stepped)
        }
        Some(Item::Do(node, rest)) => begin(alloc, program, machine, node, rest),
    }
}

//! Blocks and procedures over slots.
ghost use Rattle.std.specs.Prelude.{◌≡◌, ◌<◌, ◌≤◌, ◌^◌, length, map, slice_get, IfOk, List};
ghost use Rattle.std.specs.Option.{option_copied};
ghost use Rattle.imp_syntax.specs.ActionViews.{operands_of};
ghost use Rattle.imp_slots.specs.Plain.{Code};
ghost use Rattle.imp_slots.specs.BlockViews.{before_code};
ghost use Rattle.imp_slots.specs.CallViews.{taken_of, returning_of};
ghost use Rattle.imp_check.specs.Names.{place_named};
ghost use Rattle.imp_check.specs.Slots.{layout_in, result_in, returning_in, invoke_of, callee_in, invoke_in, statement_in, code_in};

use crate::names::place_named;
use crate::slots::Slots;
use crate::terms::{arguments_in, effect_in, guard_in};
use base_values::{Memory, Text};
use imp_slots::{Entering, Returning, SlotBlock, SlotCall, SlotNode};
use imp_syntax::{Block, Call, Declaration, Proc, Stmt, StmtNode};
use std::alloc::Global;
use std::marker::Model;

/// What the statements of a procedure are resolved by: its slots, the procedures before it and theirs.
#[derive(Drop)]
pub(crate) struct Resolver<'a> {
    pub(crate) slots: &'a Slots,
    earlier: &'a [Proc],
    known: &'a [Slots],
}

impl<'a> Model for Resolver<'a> {
    ghost use Rattle.std.specs.Prelude.{◌≡◌, ◌<◌, ◌^◌, length, map};
    ghost use Rattle.imp_check.specs.Slots as plain;
    ghost use Rattle.imp_check.specs.ResolverCode.{resolver_code};

    ghost Value = { plain.Resolver };

    ghost coded = { resolver_code };

    ghost view = { λ a. record { layout = a.slots.now; earlier = a.earlier.now } };

    ghost invariant = { λ a. (length a.earlier.now < 2 ^ 32) ×
        (a.known.now ≡ map plain.layout_in a.earlier.now) };
}

impl<'a> Resolver<'a> {
    pub(crate) fn new(slots: &'a Slots, earlier: &'a [Proc], known: &'a [Slots]) -> Resolver<'a>
        requires few { length earlier.now < 2 ^ 32 }
        requires known { known.now ≡ map layout_in earlier.now }
        ensures is { result ≡ record { layout = slots.now; earlier = earlier.now } }
    {
        Resolver {
            slots,
            earlier,
            known,
        }
    }

    /// The place of a callee in the program.
    pub(crate) fn callee(&self, call: &Call) -> u32
        ensures is { result ≡ callee_in self.now call.now.callee }
    {
        place_named(self.earlier, &call.callee) as u32
    }

    /// A call.
    #[tactic(auto, using(base_values::proofs::Lists::get_there, std::proofs::lemmas::Option::slice_get_past, crate::proofs::SlotLemmas::layout_there, crate::proofs::SlotLemmas::known_length))]
    pub(crate) fn invoke(&self, alloc: Global, call: &Call) -> Result<SlotCall, Memory>
        ensures is { IfOk result (λ c. c ≡ invoke_in self.now call.now.target call.now.callee
            (operands_of call.now.arguments)) }
    {
        let place = place_named(self.earlier, &call.callee);
        if place < self.earlier.len() {
            invoke_of(
                alloc,
                self.slots,
                call,
                &self.earlier[place],
                &self.known[place],
            )
        } else {
            invoke_nothing(alloc, self.slots, call)
        }
    }
}

/// A call of a procedure with these slots.
fn invoke_of(
    alloc: Global,
    slots: &Slots,
    call: &Call,
    callee: &Proc,
    known: &Slots,
) -> Result<SlotCall, Memory>
    requires known { known.now ≡ layout_in callee.now }
    ensures is { IfOk result (λ c. c ≡ invoke_of slots.now call.now.target
        (operands_of call.now.arguments) (Some callee.now)) }
{
    let arguments = arguments_in(alloc, slots, call.arguments.as_slice())?;
    let layout = known.layout().clone()?;
    let entering = Entering::new(alloc, layout, arguments)?;
    let returning = returning_in(slots, known, &call.target, callee.outcome());
    Ok(SlotCall::new(entering, returning))
}

/// A call of no procedure, which no checked program has.
fn invoke_nothing(alloc: Global, slots: &Slots, call: &Call) -> Result<SlotCall, Memory>
    ensures is { IfOk result (λ c. c ≡ invoke_of slots.now call.now.target
        (operands_of call.now.arguments) None) }
{
    let arguments = arguments_in(alloc, slots, call.arguments.as_slice())?;
    let layout = slots.layout().clone()?;
    let entering = Entering::new(alloc, layout, arguments)?;
    Ok(SlotCall::new(entering, None))
}

fn result_in(slots: &Slots, known: &Slots, x: &Text, outcome: &Text) -> Returning
    ensures is { returning_of result ≡ result_in slots.now known.now x.now outcome.now }
{
    if slots.is_link(x) {
        Returning::Link {
            to: slots.link(x),
            from: known.link(outcome),
        }
    } else {
        Returning::Numeric {
            to: slots.number(x),
            from: known.number(outcome),
        }
    }
}

fn returning_in(
    slots: &Slots,
    known: &Slots,
    target: &Option<Text>,
    outcome: Option<&Declaration>,
) -> Option<Returning>
    ensures is { taken_of result ≡ returning_in slots.now known.now target.now
        (option_copied outcome.entry) }
{
    match (target, outcome) {
        (Some(x), Some(outcome)) => Some(result_in(slots, known, x, &outcome.name)),
        _ => None,
    }
}

/// A block.
#[cycle(blocks)]
#[tactic(auto, using(imp_syntax::specs::Blocks::member_smaller, imp_syntax::specs::Blocks::block_rest, crate::proofs::CodeLemmas::then_added, crate::proofs::CodeLemmas::then_ends))]
pub(crate) fn code_in(
    alloc: Global,
    resolver: &Resolver,
    block: &Block,
) -> Result<SlotBlock, Memory>
    ensures is { IfOk result (λ b. b ≡ code_in resolver.now block.now) }
{
    let mut nodes = Vec::new(alloc);
    for stmt in block.as_slice() {
        nodes.push(statement_in(alloc, resolver, stmt)?)?;
    }
    SlotBlock::new(alloc, nodes)
}

/// A statement.
#[cycle(blocks)]
fn statement_in(alloc: Global, resolver: &Resolver, stmt: &Stmt) -> Result<SlotNode, Memory>
    ensures is { IfOk result (λ node. (r : Code) → before_code node r ≡
        statement_in resolver.now stmt.now r) }
{
    let number = stmt.id().number();
    match stmt.node() {
        StmtNode::Simple(action) => {
            let action = effect_in(alloc, resolver.slots, action)?;
            Ok(SlotNode::Simple(number, action))
        }
        StmtNode::Break => Ok(SlotNode::Break(number)),
        StmtNode::Call(call) => {
            let invoke = resolver.invoke(alloc, call)?;
            Ok(SlotNode::Call(number, invoke, resolver.callee(call)))
        }
        StmtNode::If(cond, then, els) => {
            let cond = guard_in(alloc, resolver.slots, cond)?;
            let then = code_in(alloc, resolver, then)?;
            let els = code_in(alloc, resolver, els)?;
            Ok(SlotNode::If(number, cond, then, els))
        }
        StmtNode::While(cond, body) => {
            let cond = guard_in(alloc, resolver.slots, cond)?;
            let body = code_in(alloc, resolver, body)?;
            Ok(SlotNode::While(number, cond, body))
        }
    }
}

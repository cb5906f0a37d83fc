//! What calls pass and take back.
ghost use Rattle.std.specs.Prelude.{◌≡◌, map, IfOk, OnOk, IfErr};
ghost use Rattle.imp_slots.specs.CallViews.{argument_of, taken_of};
ghost use Rattle.concrete_sem.specs.Passing.{first_variables, passed, pass, back};
ghost use Rattle.imp_run.specs.Attempts.{Gave};
ghost use Rattle.imp_run.specs.Passes.{Passes};

use crate::evaluation::{side_at, value_of};
use crate::halt::Halt;
use crate::slots::{SlotValue, Slots};
use base_values::Memory;
use imp_slots::{Argument, Entering, Layout, Returning};
use std::alloc::Global;

/// The variables with which a procedure starts: 0, arrays without elements, null.
#[tactic(auto, unfolding(concrete_sem::specs::Passing::first_variables))]
pub(crate) fn first_slots(alloc: Global, layout: &Layout) -> Result<Slots, Memory>
    ensures is { IfOk result (λ slots. slots ≡ first_variables layout.now) }
{
    let mut slots = Slots::new(alloc);
    slots.fill(layout)?;
    Ok(slots)
}

/// Adds the value of an argument after the others.
fn add_argument(slots: &mut Slots, caller: &Slots, argument: &Argument) -> Result<(), Halt>
    ensures is { Passes result caller.now (argument_of argument.now) slots.old slots.new }
{
    match argument {
        Argument::Int(expr) => match value_of(caller, expr) {
            Ok(value) => {
                slots.add_number(SlotValue::Int(value))?;
                Ok(())
            }
            Err(fault) => Err(Halt::Fault(fault)),
        },
        Argument::Array(a) => {
            let elements = caller.share_array(*a)?;
            slots.add_number(SlotValue::Array(elements))?;
            Ok(())
        }
        Argument::Link(side) => {
            slots.add_link(side_at(caller, *side))?;
            Ok(())
        }
    }
}

/// The arguments' values, from left to right.
fn passed(alloc: Global, caller: &Slots, arguments: &[Argument]) -> Result<Slots, Halt>
    ensures is { Gave result (passed caller.now (map argument_of arguments.now)) }
{
    let mut slots = Slots::new(alloc);
    for argument in arguments {
        add_argument(&mut slots, caller, argument)?;
    }
    Ok(slots)
}

/// The variables of a callee, from those of its caller.
#[tactic(auto, unfolding(concrete_sem::specs::Passing::pass))]
pub(crate) fn pass(alloc: Global, caller: &Slots, entering: &Entering) -> Result<Slots, Halt>
    ensures is { Gave result (pass entering.now caller.now) }
{
    let mut slots = passed(alloc, caller, entering.arguments())?;
    slots.fill(entering.layout())?;
    Ok(slots)
}

/// What the caller takes of the callee's result.
#[tactic(auto, unfolding(concrete_sem::specs::Passing::back))]
pub(crate) fn take_back(
    caller: &mut Slots,
    callee: &Slots,
    returning: Option<Returning>,
) -> Result<(), Memory>
    ensures is { OnOk result (caller.new ≡ back (taken_of returning) caller.old callee.now) }
{
    match returning {
        Some(Returning::Numeric { to, from }) => {
            let held = callee.share_number(from)?;
            caller.set_number(to, held);
        }
        Some(Returning::Link { to, from }) => caller.set_link(to, callee.link_at(from)),
        None => {}
    }
    Ok(())
}

//! Layouts and calls.
ghost use Rattle.std.specs.Prelude.{◌≡◌, IfOk, map};
ghost use Rattle.std.specs.Option.{option_map};
ghost use Rattle.imp_slots.specs.CallViews.{argument_of, taken_of};
ghost use Rattle.dom_interval_meaning.specs.State.{Within};
ghost use Rattle.dom_interval_meaning.specs.Operations as operations;
ghost use Rattle.dom_interval.specs.Lists.{filled_slot, behind_these};

use crate::compare::{empty, with_range, within};
use crate::evaluate::{evaluate, range};
use crate::guards::copied;
use crate::state::Kept;
use crate::{IntervalState, SlotRange};
use imp_slots::{Argument, Entering, Layout, NumericSlot, Returning};
use num_bounds::Range;
use std::alloc::{AllocError, Global};

fn first_slot(slot: &NumericSlot, ranges: &[Range], i: usize) -> SlotRange
    ensures exact { result ≡ filled_slot slot.now ranges.now i }
{
    let is_array = slot.is_array();
    if i < ranges.len() {
        return SlotRange {
            is_array,
            range: ranges[i],
        };
    }
    SlotRange {
        is_array,
        range: Range::from_ends(0, 0),
    }
}

/// The slots of a layout: the first get these ranges, the others 0.
#[tactic(auto, using(crate::proofs::Fills::filled_step))]
fn filled(
    alloc: Global,
    numbers: &[NumericSlot],
    ranges: &[Range],
) -> Result<Vec<SlotRange>, AllocError>
    ensures exact { IfOk result (λ v. v.items ≡ operations.filled numbers.now ranges.now) }
{
    let mut slots = Vec::with_capacity(alloc, numbers.len())?;
    for (i, number) in numbers.iter().enumerate() {
        slots.push(first_slot(number, ranges, i))?;
    }
    Ok(slots)
}

/// The state before main's body.
#[tactic(auto, unfolding(dom_interval_meaning::specs::Operations::init))]
pub fn initial(alloc: Global, main: &Layout) -> Result<IntervalState, AllocError>
    ensures exact { IfOk result (λ s. s ≡ operations.init main.now) }
{
    Ok(within(filled(alloc, main.numbers(), &[])?))
}

/// The ranges of the arguments that take numeric slots, after these.
#[tactic(auto, using(crate::proofs::Fills::behind_front))]
fn argument_ranges(
    slots: &[SlotRange],
    arguments: &[Argument],
    ranges: Vec<Range>,
) -> Result<Option<Vec<Range>>, AllocError>
    ensures exact { IfOk result (λ o. option_map (λ r. r.items) o ≡
        behind_these ranges.items (operations.argument_ranges slots.now
        (map argument_of arguments.now))) }
{
    match arguments {
        [] => Ok(Some(ranges)),
        [Argument::Link(_), rest @ ..] => argument_ranges(slots, rest, ranges),
        [Argument::Array(a), rest @ ..] => {
            let mut ranges = ranges;
            ranges.push(range(slots, *a))?;
            argument_ranges(slots, rest, ranges)
        }
        [Argument::Int(e), rest @ ..] => {
            let mut ranges = ranges;
            match evaluate(slots, e) {
                None => return Ok(None),
                Some(range) => ranges.push(range)?,
            }
            argument_ranges(slots, rest, ranges)
        }
    }
}

/// The slots of a callee's frame.
#[tactic(auto, unfolding(dom_interval_meaning::specs::Operations::enter))]
fn entered_from(
    alloc: Global,
    entering: &Entering,
    slots: &[SlotRange],
) -> Result<IntervalState, AllocError>
    ensures exact { IfOk result (λ t. t ≡ operations.enter entering.now (Within slots.now)) }
{
    match argument_ranges(slots, entering.arguments(), Vec::new(alloc))? {
        None => Ok(empty()),
        Some(ranges) => {
            let numbers = entering.layout().numbers();
            Ok(within(filled(alloc, numbers, &ranges)?))
        }
    }
}

/// The state before a callee's body.
#[tactic(auto, unfolding(dom_interval_meaning::specs::Operations::enter))]
pub fn entered(
    alloc: Global,
    entering: &Entering,
    s: &IntervalState,
) -> Result<IntervalState, AllocError>
    ensures exact { IfOk result (λ t. t ≡ operations.enter entering.now s.now) }
{
    match &s.kept {
        Kept::Empty => Ok(empty()),
        Kept::Within(slots) => entered_from(alloc, entering, slots),
    }
}

/// The caller's slots with the result in its place.
fn taken(returning: Option<Returning>, slots: Vec<SlotRange>, callee: &[SlotRange]) -> IntervalState
    ensures exact { result ≡ operations.returned (taken_of returning) slots.items callee.now }
{
    match returning {
        None => within(slots),
        Some(Returning::Link { to: _, from: _ }) => within(slots),
        Some(Returning::Numeric { to, from }) => within(with_range(slots, to, range(callee, from))),
    }
}

/// The state after a call.
#[tactic(auto, unfolding(dom_interval_meaning::specs::Operations::leave))]
pub fn left(
    returning: Option<Returning>,
    s: &IntervalState,
    done: &IntervalState,
) -> Result<IntervalState, AllocError>
    ensures exact { IfOk result (λ t. t ≡ operations.leave (taken_of returning) s.now done.now) }
{
    match (&s.kept, &done.kept) {
        (Kept::Within(slots), Kept::Within(callee)) => {
            Ok(taken(returning, copied(slots)?, callee))
        }
        (Kept::Empty, _) => Ok(empty()),
        (_, Kept::Empty) => Ok(empty()),
    }
}

//! Runs: how one ends, and how often it stands at a location (`run`).
ghost use Rattle.std.specs.Prelude.{◌≡◌, ◌+◌, ◌<◌, ◌-◌, length, ◌^◌, Some, slice_get, IfOk};
ghost use Rattle.std.specs.Option.{option_copied};
ghost use Rattle.concrete_sem.specs.Steps.{start};
ghost use Rattle.concrete_sem.specs.Runs.{run_from};
ghost use Rattle.imp_run.specs.Machine.{config_of, work_of};
ghost use Rattle.imp_run.specs.Outcome.{run_of, stands_at, same_location, is_name_of, item_location, end_location, config_or_none, IsEndAfter, bit};
ghost use Rattle.concrete_sem.specs.Reach.{location_of};

use crate::machine::{Activation, RunState, Stepped, step};
use crate::passing::first_slots;
use crate::store::Store;
use crate::work::{Item, push_block};
use base_values::{Memory, Text};
use imp_slots::{Routine, SlotNode};
use imp_syntax::{Location, StmtId};
use imp_words::RunEnd;
use std::alloc::Global;

/// What a run comes to.
#[derive(Clone, Copy, Debug, PartialEq, Eq, Hash)]
pub struct RunResult {
    /// How it ends.
    pub end: RunEnd,
    /// How many of its configurations, the first and the last included, stood at the location.
    pub reached: u64,
}

/// The location of the last frame is this one.
fn stands_at(program: &[Routine], machine: &RunState<'_>, at: Option<&Location>) -> bool
    ensures is { result ≡ stands_at program.now (option_copied at.entry) (config_of machine.now) }
{
    match at {
        None => false,
        Some(location) => stands(program, &machine.last, location),
    }
}

/// The item on top stands at the location.
fn stands(program: &[Routine], last: &Activation<'_>, location: &Location) -> bool
    ensures is { result ≡ same_location (location_of program.now
        (work_of last.now.place last.now.work.items)) location.now }
{
    match last.work.last() {
        Some(item) => is_at(item, location),
        None => is_end(routine_at(program, last.place), location),
    }
}

/// The procedure at a place.
fn routine_at(program: &[Routine], place: u32) -> Option<&Routine>
    ensures at { option_copied result ≡ slice_get program.now place }
{
    program.get(place as usize)
}

/// The item stands at the location.
fn is_at(item: &Item<'_>, location: &Location) -> bool
    ensures is { result ≡ same_location (Some (item_location item.now)) location.now }
{
    match item {
        Item::Do(node, _) => is_before(node.number(), location),
        Item::Done(number, _) => is_after(*number, location),
        Item::Test(number, _, _) => is_head(*number, location),
    }
}

fn is_before(number: u32, location: &Location) -> bool
    ensures is { result ≡ same_location (Some (Location.Before number)) location.now }
{
    match location {
        Location::Before(id) => number == id.number(),
        Location::After(_) => false,
        Location::Head(_) => false,
        Location::End(_) => false,
    }
}

fn is_after(number: u32, location: &Location) -> bool
    ensures is { result ≡ same_location (Some (Location.After number)) location.now }
{
    match location {
        Location::After(id) => number == id.number(),
        Location::Before(_) => false,
        Location::Head(_) => false,
        Location::End(_) => false,
    }
}

fn is_head(number: u32, location: &Location) -> bool
    ensures is { result ≡ same_location (Some (Location.Head number)) location.now }
{
    match location {
        Location::Head(id) => number == id.number(),
        Location::Before(_) => false,
        Location::After(_) => false,
        Location::End(_) => false,
    }
}

fn is_end(routine: Option<&Routine>, location: &Location) -> bool
    ensures is { result ≡ same_location (end_location (option_copied routine.entry)) location.now }
{
    match location {
        Location::End(name) => is_name_of(routine, name),
        Location::Before(_) => false,
        Location::After(_) => false,
        Location::Head(_) => false,
    }
}

fn is_name_of(routine: Option<&Routine>, name: &Text) -> bool
    ensures is { result ≡ is_name_of (option_copied routine.entry) name.now }
{
    match routine {
        Some(routine) => routine.name() == name,
        None => false,
    }
}

/// The machine in the first configuration of a run, where the program has a procedure.
fn first_machine<'a>(
    alloc: Global,
    program: &'a [Routine],
    inputs: &'a [i64],
) -> Result<Option<RunState<'a>>, Memory>
    requires few { length program.now < 2 ^ 32 }
    ensures is { IfOk result (λ machine. config_or_none machine inputs.now ≡
        start program.now inputs.now) }
{
    let Some(main) = program.last() else {
        return Ok(None);
    };
    let slots = first_slots(alloc, main.layout())?;
    let mut work = Vec::new(alloc);
    push_block(&mut work, main.body().statements())?;
    let last = Activation {
        place: (program.len() - 1) as u32,
        slots,
        work,
    };
    Ok(Some(RunState {
        store: Store::new(alloc, inputs),
        last,
        below: Vec::new(alloc),
    }))
}

/// How the run goes on after a step: to its end, or not at all yet.
fn end_after(stepped: Stepped, fuel: u64) -> Option<RunEnd>
    ensures is { IsEndAfter stepped fuel result }
{
    match stepped {
        Stepped::Ended => Some(RunEnd::Ended),
        Stepped::Next => {
            if fuel == 0 {
                Some(RunEnd::FuelUsedUp)
            } else {
                None
            }
        }
        Stepped::Fault(number, fault) => {
            if fuel == 0 {
                Some(RunEnd::FuelUsedUp)
            } else {
                Some(RunEnd::Fault(StmtId::new(number), fault))
            }
        }
        Stepped::NoInput(number) => {
            if fuel == 0 {
                Some(RunEnd::FuelUsedUp)
            } else {
                Some(RunEnd::InputsUsedUp(StmtId::new(number)))
            }
        }
    }
}

/// One more, where a configuration stands at the location.
fn counted(reached: u64, here: bool) -> u64
    requires room { reached < 2 ^ 64 - 1 }
    ensures is { result ≡ reached + bit here }
{
    if here { reached + 1 } else { reached }
}

/// The run from a configuration on.
fn run_machine<'a>(
    alloc: Global,
    program: &'a [Routine],
    machine: &mut RunState<'a>,
    fuel: u64,
    at: Option<&Location>,
) -> Result<RunResult, Memory>
    requires room { fuel < 2 ^ 64 - 1 }
    ensures outcome { IfOk result (λ o. run_of o ≡ run_from program.now
        (stands_at program.now (option_copied at.entry)) fuel (config_of machine.old)) }
{
    let mut left = fuel;
    let mut reached = 0;
    loop {
        let here = stands_at(program, machine, at);
        reached = counted(reached, here);
        let stepped = step(alloc, program, machine)?;
        if let Some(end) = end_after(stepped, left) {
            return Ok(RunResult { end, reached });
        }
        left -= 1;
    }
}

/// The run of a checked program, given as its procedures with main last, with these inputs and at
/// most so many steps. A step that faults, or that finds no input, is a step. With a location,
/// the configurations that stand there are counted, the first and the last included.
///
/// A step takes the time of what it evaluates. An array is copied where it is written while
/// another variable shares it.
pub fn run(
    alloc: Global,
    program: &[Routine],
    inputs: &[i64],
    fuel: u64,
    at: Option<&Location>,
) -> Result<RunResult, Memory>
    requires few { length program.now < 2 ^ 32 }
    requires room { fuel < 2 ^ 64 - 1 }
    ensures outcome { IfOk result (λ o. run_of o ≡ run_from program.now
        (stands_at program.now (option_copied at.entry)) fuel (start program.now inputs.now)) }
{
    match first_machine(alloc, program, inputs)? {
        Some(mut machine) => run_machine(alloc, program, &mut machine, fuel, at),
        None => Ok(RunResult {
            end: RunEnd::Ended,
            reached: 0,
        }),
    }
}

//! The reply to a request for a run: `specs/Runs.antt`.
ghost use Rattle.std.specs.Prelude.{◌≡◌, ◌<◌, ◌^◌, length, IfOk};
ghost use Rattle.std.specs.Option.{option_copied};
ghost use Rattle.imp_check.specs.Slots.{routines_of};
ghost use Rattle.serve_replies.specs.Runs.{reached_at, run_reply, asked_run};

use base_values::Memory;
use call_contexts::place_of;
use imp_run::run;
use imp_slots::Routine;
use imp_syntax::Location;
use imp_table::View;
use request_json::{Refusal, Reply};
use std::alloc::Global;

/// How often a run stood at the location, if one was asked for.
fn reached_at(at: Option<&Location>, reached: u64) -> Option<u64>
    ensures reached { result ≡ reached_at (option_copied at.entry) reached }
{
    match at {
        Some(_) => Some(reached),
        None => None,
    }
}

/// A run with these inputs and so many steps at most.
#[tactic(auto, unfolding(crate::specs::Runs::run_reply))]
fn run_reply(
    alloc: Global,
    routines: &[Routine],
    inputs: &[i64],
    fuel: u32,
    at: Option<&Location>,
) -> Result<Reply, Memory>
    requires few { length routines.now < 2 ^ 32 }
    ensures reply { IfOk result (λ reply. reply ≡ run_reply routines.now inputs.now fuel
        (option_copied at.entry)) }
{
    let outcome = run(alloc, routines, inputs, u64::from(fuel), at)?;
    Ok(Reply::Run {
        end: outcome.end,
        reached: reached_at(at, outcome.reached),
    })
}

/// The reply to a request for a run of a program, whose location the program may not have. It takes the steps of the run.
pub fn asked_run(
    alloc: Global,
    program: &View<'_>,
    routines: &[Routine],
    inputs: &[i64],
    fuel: u32,
    at: Option<&Location>,
) -> Result<Reply, Memory>
    requires same { routines.now ≡ routines_of program.now }
    requires few { length routines.now < 2 ^ 32 }
    ensures reply { IfOk result (λ reply. reply ≡ asked_run routines.now inputs.now fuel
        (option_copied at.entry)) }
{
    match at {
        None => run_reply(alloc, routines, inputs, fuel, None),
        Some(location) => match place_of(program, location) {
            Ok(_) => run_reply(alloc, routines, inputs, fuel, Some(location)),
            Err(why) => Ok(Reply::Refused(Refusal::Query(why))),
        },
    }
}

//! What is told of a session: its cost, its program, runs.
ghost use Rattle.std.specs.Option.{option_copied};
ghost use Rattle.serve_answers.specs.Turns.{cost_turn, listing_turn, program_turn, run_turn};
ghost use Rattle.serve_session.specs.Followed.{TellsReply};

use crate::written::line_of;
use base_values::Memory;
use daig_session::Session;
use domain_laws::Domain;
use imp_syntax::Location;
use request_json::Reply;
use serve_replies::{asked_run, listing, program_reply};
use std::alloc::Global;

/// How many cells the last question filled, and how many are kept.
pub(crate) fn cost_line<D: Domain>(alloc: Global, session: &Session<D>) -> Result<Vec<u8>, Memory>
    ensures line { TellsReply D.operations session.now (λ m. (cost_turn m).reply) result }
{
    let cost = session.cost();
    let kept = session.kept_count() as u64;
    line_of(alloc, Reply::Cost { cost, kept })
}

/// The next statement number, and the program's text.
pub(crate) fn program_line<D: Domain>(
    alloc: Global,
    session: &Session<D>,
) -> Result<Vec<u8>, Memory>
    ensures line { TellsReply D.operations session.now (λ m. (program_turn m).reply) result }
{
    let program = session.program().tree(alloc)?;
    let reply = program_reply(alloc, session.next(), &program)?;
    line_of(alloc, reply)
}

/// The program's text with the numbers of its statements.
pub(crate) fn listing_line<D: Domain>(
    alloc: Global,
    session: &Session<D>,
) -> Result<Vec<u8>, Memory>
    ensures line { TellsReply D.operations session.now (λ m. (listing_turn m).reply) result }
{
    let program = session.program().tree(alloc)?;
    let text = listing(alloc, &program)?;
    line_of(alloc, Reply::Listing(text))
}

/// A run of the program.
pub(crate) fn run_line<D: Domain>(
    alloc: Global,
    session: &Session<D>,
    inputs: &[i64],
    fuel: u32,
    at: Option<&Location>,
) -> Result<Vec<u8>, Memory>
    ensures line { TellsReply D.operations session.now
        (λ m. (run_turn inputs.now fuel (option_copied at.entry) m).reply) result }
{
    let table = session.program();
    table.procs();
    let routines = table.routines(alloc)?;
    let reply = asked_run(alloc, &table.view(), routines.as_slice(), inputs, fuel, at)?;
    line_of(alloc, reply)
}

//! Questions, and their answers from cells.
ghost use Rattle.std.specs.Prelude.{◌≤◌, IfOk, IfErr};
ghost use Rattle.daig_session.specs.Going.{AreAsked};
ghost use Rattle.daig_session.specs.Engines.{IsRightFor, HasCome, RefusesBy, IsFilledForOne};
ghost use Rattle.daig_session.specs.Engines.{SaysForFilled, CoversForFilled, TicksForTargets};

use crate::course::Going;
use crate::error::QueryError;
use base_values::{Items, Memory};
use batch_meaning::QueryRefusal;
use call_contexts::place_of;
use daig_graph::Value;
use daig_query::{Engine, Walk};
use domain_laws::{Domain, Steps};
use imp_flow::{Flow, Target, targets};
use imp_syntax::Location;
use std::alloc::Global;
use std::sync::ledger::Ledger;

/// The targets of a question, or why the program refuses it: the call string has more than two calls; there is no such
/// procedure or statement; there is no such loop; no chain ends in the string.
fn asked_targets<D: Domain>(
    alloc: Global,
    engine: &Engine<D>,
    flow: &Flow<'_>,
    at: &Location,
    string: &[u32],
) -> Result<Items<Target>, QueryError>
    requires right { IsRightFor D.operations engine.now flow.now }
    ensures asked { IfOk result (AreAsked flow.now.program at.now string.now) }
    ensures refused { IfErr result (RefusesBy D.operations engine.now flow.now at.now string.now) }
{
    let _domain = engine.domain();
    if string.len() > 2 {
        return Err(QueryError::Refused(QueryRefusal::LongString));
    }
    let _place = match place_of(flow.program(), at) {
        Ok(place) => place,
        Err(why) => return Err(QueryError::Refused(why)),
    };
    let targets = targets(alloc, flow, at, string)?;
    if targets.is_empty() {
        return Err(QueryError::Refused(QueryRefusal::NoChain));
    }
    Ok(targets)
}

/// A question that is to begin, or why the program refuses it.
pub(crate) fn begun<D: Domain>(
    alloc: Global,
    engine: &Engine<D>,
    flow: &Flow<'_>,
    at: &Location,
    string: &[u32],
) -> Result<Going, QueryError>
    requires right { IsRightFor D.operations engine.now flow.now }
    ensures going { IfOk result (HasCome D.operations engine.now flow.now at.now string.now) }
    ensures refused { IfErr result (RefusesBy D.operations engine.now flow.now at.now string.now) }
{
    let targets = asked_targets(alloc, engine, flow, at, string)?;
    let walk = Walk::new(alloc);
    Ok(Going { targets, walk })
}

/// The answer of a question for which nothing is missing.
pub(crate) fn read_answer<D: Domain, L: Ledger>(
    alloc: Global,
    engine: &Engine<D>,
    walk: &Walk,
    steps: &mut Steps<L>,
) -> Result<Value<D::State>, Memory>
    requires filled { IsFilledForOne D.operations engine.now walk.now }
    ensures says { SaysForFilled D.operations engine.now walk.now result }
    ensures sound { CoversForFilled D.operations engine.now walk.now D.covers result }
    ensures least { steps.old ≤ steps.new }
    ensures ticked { TicksForTargets D.operations engine.now walk.now D.counted
        steps.old steps.new }
{
    match engine.read(alloc, walk, steps)? {
        Some(value) => Ok(value),
        None => unreachable!(),
    }
}

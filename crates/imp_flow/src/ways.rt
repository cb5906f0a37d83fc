//! The targets of a location, one for each chain of calls.
ghost use Rattle.std.specs.Option.{option_copied};
ghost use Rattle.imp_check.specs.Entries.{heads_of};
ghost use Rattle.std.specs.Prelude.{slice_get, ℕ, ◌≡◌, ◌++◌, [], map, reverse, option_map, Some, IfOk, OnOk};
ghost use Rattle.imp_slots.specs.Fits.{IsChecked};
ghost use Rattle.imp_words.specs.declared.refusal.QueryRefusal.{QueryRefusal};
ghost use Rattle.batch_meaning.specs.Answers.{In, Misses, procedure_of};
ghost use Rattle.cell_rows.specs.Targets.{target, targets};
ghost use Rattle.imp_flow_rows.specs.Entered.{node_now};
ghost use Rattle.imp_flow.specs.Reached.{target_of, those_there, into_loops, loops_of, ending_of, reached, node_in_place, way_into, way_along, ending_at, target_from};

use crate::flow::Flow;
use crate::nodes::enter_loops_around;
use crate::steps::{Target, TargetStep};
use base_short::Short;
use base_values::{Items, Memory, Text};
use call_contexts::main_place;
use cell_names::Point;
use imp_flow_rows::{Node, behind_or};
use imp_syntax::{Chain, Location, ProcId, StmtId};
use std::alloc::Global;

/// The steps to a procedure, and its place.
#[derive(Drop)]
struct Reached {
    steps: Short<TargetStep>,
    place: ProcId,
}

/// Where a location is in its procedure: the statement whose loops are around it, if any are, and its point.
#[derive(Clone, Copy, Drop)]
struct Ending<'a> {
    around: Option<Node<'a>>,
    point: Point,
}

/// Adds the steps into the loops around an ending.
#[tactic(auto, using(crate::proofs::EnteredLemmas::into_nothing))]
fn enter_loops(around: &Option<Node<'_>>, steps: &mut Short<TargetStep>) -> Result<(), Memory>
    ensures added { OnOk result (steps.new ≡ steps.old ++ into_loops (loops_of around.now)) }
{
    match around {
        None => Ok(()),
        Some(node) => enter_loops_around(node, steps),
    }
}

/// The statement of a number, if it stands in the procedure at a place.
fn node_in_place<'a>(flow: &'a Flow<'_>, place: ProcId, stmt: StmtId) -> Option<Node<'a>>
    ensures is { option_map node_now result ≡ node_in_place flow.now place stmt }
{
    match flow.node(stmt) {
        Some(node) if node.place() == place => Some(node),
        _ => None,
    }
}

/// Main, which no step leads to.
fn enter_main(alloc: Global, flow: &Flow<'_>) -> Reached
    ensures is { way_along flow.now [] ≡ Some result }
    ensures checked { IsChecked flow.now.program }
{
    Reached {
        steps: Short::new(alloc),
        place: ProcId::new(main_place(flow.program())),
    }
}

/// From a procedure into the one that a statement of it calls.
fn enter_call(flow: &Flow<'_>, caller: Reached, site: StmtId) -> Result<Option<Reached>, Memory>
    ensures is { IfOk result (λ callee. callee ≡ way_into flow.now site caller) }
{
    let Reached { mut steps, place } = caller;
    let Some(node) = node_in_place(flow, place, site) else {
        return Ok(None);
    };
    let Some(callee) = node.callee() else {
        return Ok(None);
    };
    enter_loops_around(&node, &mut steps)?;
    steps.push(TargetStep::Go(site))?;
    Ok(Some(Reached {
        steps,
        place: callee,
    }))
}

/// From main into the last procedure of a chain, which has the outermost call first.
fn enter_chain(alloc: Global, flow: &Flow<'_>, chain: &[StmtId]) -> Result<Option<Reached>, Memory>
    ensures is { IfOk result (λ end. end ≡ way_along flow.now (reverse chain.now)) }
    ensures checked { IsChecked flow.now.program }
{
    let mut now = enter_main(alloc, flow);
    for site in chain {
        match enter_call(flow, now, *site)? {
            None => return Ok(None),
            Some(next) => now = next,
        }
    }
    Ok(Some(now))
}

/// Before a statement, if it stands in the procedure at a place.
fn before<'a>(flow: &'a Flow<'_>, place: ProcId, stmt: StmtId) -> Option<Ending<'a>>
    ensures is { option_map ending_of result ≡ ending_at flow.now (Location.Before stmt) place }
{
    match node_in_place(flow, place, stmt) {
        None => None,
        Some(node) => {
            let point = node.front();
            let around = Some(node);
            Some(Ending { around, point })
        }
    }
}

/// After a statement.
fn after<'a>(flow: &'a Flow<'_>, place: ProcId, stmt: StmtId) -> Option<Ending<'a>>
    ensures is { option_map ending_of result ≡ ending_at flow.now (Location.After stmt) place }
{
    match node_in_place(flow, place, stmt) {
        None => None,
        Some(node) => Some(Ending {
            around: Some(node),
            point: Point::Post(stmt),
        }),
    }
}

/// At the head of a loop: the fixed point of its iterates.
fn head<'a>(flow: &'a Flow<'_>, place: ProcId, stmt: StmtId) -> Option<Ending<'a>>
    ensures is { option_map ending_of result ≡ ending_at flow.now (Location.Head stmt) place }
{
    match node_in_place(flow, place, stmt) {
        Some(node) if node.is_loop() => Some(Ending {
            around: Some(node),
            point: Point::Fix(stmt),
        }),
        _ => None,
    }
}

/// After the body of the procedure at a place, if this is its name.
fn end<'a>(flow: &'a Flow<'_>, place: ProcId, name: &Text) -> Option<Ending<'a>>
    ensures is { option_map ending_of result ≡ ending_at flow.now (Location.End name.now) place }
{
    let prog = flow.program();
    let Some(head) = prog.head(place) else {
        return None;
    };
    if name == head.bare.name() {
        Some(Ending {
            around: None,
            point: behind_or(Point::Entry, head.body.last),
        })
    } else {
        None
    }
}

/// A location in the procedure at a place, if it is there.
fn ending_at<'a>(flow: &'a Flow<'_>, place: ProcId, at: &Location) -> Option<Ending<'a>>
    ensures is { option_map ending_of result ≡ ending_at flow.now at.now place }
{
    match at {
        Location::Before(stmt) => before(flow, place, *stmt),
        Location::After(stmt) => after(flow, place, *stmt),
        Location::Head(stmt) => head(flow, place, *stmt),
        Location::End(name) => end(flow, place, name),
    }
}

/// From a procedure to a location in it.
fn arrive(flow: &Flow<'_>, from: Reached, at: &Location) -> Result<Option<Target>, Memory>
    ensures is { IfOk result (λ o. o ≡ target_from flow.now at.now from) }
{
    let Reached { mut steps, place } = from;
    match ending_at(flow, place, at) {
        None => Ok(None),
        Some(Ending { around, point }) => {
            enter_loops(&around, &mut steps)?;
            Ok(Some(Target { steps, last: point }))
        }
    }
}

/// The target of a location under a chain of calls, or `None` where the program has no such chain, or its last
/// procedure no such location. It takes time linear in the chain and the blocks around its calls and the location.
///
/// # Errors
///
/// [`Memory`] when memory runs out.
pub fn target(
    alloc: Global,
    flow: &Flow<'_>,
    at: &Location,
    chain: &Chain,
) -> Result<Option<Target>, Memory>
    ensures is { IfOk result (λ o. option_map target_of o ≡ target flow.now.program at.now
        (reverse chain.now)) }
{
    match enter_chain(alloc, flow, chain.sites())? {
        None => Ok(None),
        Some(reached) => arrive(flow, reached, at),
    }
}

/// The targets of a location under these chains.
fn all_targets(
    alloc: Global,
    flow: &Flow<'_>,
    at: &Location,
    chains: &[Chain],
) -> Result<Items<Target>, Memory>
    ensures are { IfOk result (λ ts. map target_of ts ≡ those_there (target flow.now.program at.now)
        (map reverse chains.now)) }
{
    let mut found = Items::new(alloc);
    for chain in chains {
        if let Some(target) = target(alloc, flow, at, chain)? {
            found.push(target)?;
        }
    }
    Ok(found)
}

/// The targets of a location, one for each chain that a call string selects, in the chains' order: by the text of the
/// last calls first. The string has the outermost call first. There are none where the program has no such location.
/// It takes the time of [`targets`](call_chains::targets), and that of [`target`] for each chain.
///
/// # Errors
///
/// [`Memory`] when memory runs out.
pub fn targets(
    alloc: Global,
    flow: &Flow<'_>,
    at: &Location,
    string: &[u32],
) -> Result<Items<Target>, Memory>
    ensures are { IfOk result (λ ts. (p : ℕ) → procedure_of flow.now.program at.now ≡ In p →
        targets flow.now.program p at.now string.now ≡ Some (map target_of ts)) }
    ensures none { IfOk result (λ ts. (r : QueryRefusal) →
        procedure_of flow.now.program at.now ≡ Misses r → ts ≡ []) }
{
    let prog = flow.program();
    prog.procs();
    let chains = call_chains::targets(alloc, prog, at, string)?;
    all_targets(alloc, flow, at, chains.as_slice())
}

//! The statements that an answer depends on.
ghost use Rattle.std.specs.Prelude.{◌≡◌, ℕ, List, Some, IfOk};
ghost use Rattle.batch_meaning.specs.Answers.{In, procedure_of};
ghost use Rattle.cell_rows.specs.Targets.{Target as PlainTarget, targets};
ghost use Rattle.cell_graph.specs.Same.{same_name};
ghost use Rattle.daig_query.specs.Answered.{AreFilled};
ghost use Rattle.why_slice.specs.Upstream.{upstream};

use crate::gathering::all_hung;
use crate::seeds::with_fixes;
use base_values::{Items, Memory};
use daig_query::{Engine, Walk};
use domain_laws::Domain;
use imp_flow::Flow;
use imp_syntax::{Location, StmtId};
use std::alloc::Global;

/// The statements that the answer at a location under a call string depends on, rising, each once, where nothing is missing
/// for its targets: the one that the location names, the call sites of the selected chains, and those on which the names
/// that the answer needs hang. It takes time in proportion to the cells of these names and their inputs, and a step more for
/// each 64 numbers up to the greatest of a cell or a statement.
///
/// # Errors
///
/// [`Memory`] alone.
pub fn upstream<D: Domain>(
    alloc: Global,
    engine: &Engine<D>,
    flow: &Flow<'_>,
    at: &Location,
    string: &[u32],
    walk: &Walk,
) -> Result<Items<StmtId>, Memory>
    requires filled { (p : ℕ) × (ts : List PlainTarget) ×
        (procedure_of flow.now.program at.now ≡ In p) ×
        (targets flow.now.program p at.now string.now ≡ Some ts) ×
        AreFilled (D.operations engine.now.domain) engine.now.store walk.now flow.now ts }
    ensures is { (p : ℕ) (ts : List PlainTarget) → procedure_of flow.now.program at.now ≡ In p →
        targets flow.now.program p at.now string.now ≡ Some ts →
        AreFilled (D.operations engine.now.domain) engine.now.store walk.now flow.now ts →
        IfOk result (λ stmts. stmts ≡ upstream (D.operations engine.now.domain) flow.now.engine
        flow.now.program same_name at.now string.now p ts) }
{
    let chains = call_chains::targets(alloc, flow.program(), at, string)?;
    let seeds = with_fixes(alloc, engine.names(), walk.found())?;
    let hung = all_hung(alloc, engine, flow, seeds.as_slice())?;
    why_slice::upstream(alloc, at, chains.as_slice(), hung)
}

//! The join of what is known under the chains of a location.
ghost use Rattle.std.specs.Prelude.{◌≡◌, ◌+◌, ◌⊎◌, IfOk, IfErr};
ghost use Rattle.call_contexts.specs.Joined.{joined, joined_ticks};

use base_values::Memory;
use domain_laws::{Domain, Steps};
use std::alloc::Global;
use std::sync::ledger::Ledger;

/// The state of one more chain, joined to those of the chains before it: its last frame alone, after
/// what is so far, where that is there. It ticks for the shed, and for a join where something is so
/// far; where memory runs out in the shed, there is no join.
pub fn joined<D: Domain, L: Ledger>(
    alloc: Global,
    dom: &D,
    so_far: Option<D::State>,
    next: &D::State,
    steps: &mut Steps<L>,
) -> Result<D::State, Memory>
    ensures value { IfOk result (λ t. t ≡ joined (D.operations dom.now) so_far next.now) }
    ensures ticked { IfOk result (λ _. steps.new ≡ steps.old
        + joined_ticks (D.counted dom.now) so_far) }
    ensures no_memory { IfErr result (λ _. (steps.new ≡ steps.old + D.counted dom.now) ⊎
        (steps.new ≡ steps.old + joined_ticks (D.counted dom.now) so_far)) }
{
    let alone = dom.shed(alloc, next, steps)?;
    match so_far {
        None => Ok(alone),
        Some(before) => dom.join(alloc, &before, &alone, steps),
    }
}

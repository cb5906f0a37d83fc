//! Programs over slots.
ghost use Rattle.std.specs.Prelude.{◌≡◌, ◌<◌, ◌^◌, length, map, IfOk};
ghost use Rattle.imp_check.specs.Slots.{layout_in, routine_of, routines_of};
ghost use Rattle.imp_check.specs.Few.{HasFew, AreFew};

use crate::programs::variables_of;
use crate::resolve::{Resolver, code_in};
use crate::slots::Slots;
use base_values::{Items, Memory};
use imp_slots::Routine;
use imp_syntax::Proc;
use std::alloc::Global;

/// The procedures over slots, in the order of the text. It takes time linear in the program, and fails for want of
/// memory alone.
pub fn routines_of(alloc: Global, procs: &[Proc]) -> Result<Items<Routine>, Memory>
    requires few { AreFew procs.now }
    ensures is { IfOk result (λ routines. routines ≡ routines_of procs.now) }
{
    let known = layouts_of(alloc, procs)?;
    routines_by(alloc, procs, known.as_slice())
}

/// The procedures over slots, by the slots of each.
#[tactic(auto, using(crate::proofs::FewLemmas::routines_step, crate::proofs::SlotLemmas::known_length, crate::proofs::SlotLemmas::known_before, crate::proofs::SlotLemmas::layout_there))]
fn routines_by(alloc: Global, procs: &[Proc], known: &[Slots]) -> Result<Items<Routine>, Memory>
    requires few { length procs.now < 2 ^ 32 }
    requires known { known.now ≡ map layout_in procs.now }
    ensures is { IfOk result (λ routines. routines ≡ routines_of procs.now) }
{
    let mut routines = Items::new(alloc);
    for (i, proc) in procs.iter().enumerate() {
        routines.push(routine_of(alloc, &known[i], &procs[..i], &known[..i], proc)?)?;
    }
    Ok(routines)
}

/// The slots of each procedure.
#[tactic(auto, using(crate::proofs::FewLemmas::few_at, crate::proofs::FewLemmas::layouts_step))]
pub(crate) fn layouts_of(alloc: Global, procs: &[Proc]) -> Result<Vec<Slots>, Memory>
    requires few { AreFew procs.now }
    ensures is { IfOk result (λ known. known.items ≡ map layout_in procs.now) }
{
    let mut known = Vec::new(alloc);
    for proc in procs {
        known.push(slots_of(alloc, proc)?)?;
    }
    Ok(known)
}

fn slots_of(alloc: Global, proc: &Proc) -> Result<Slots, Memory>
    requires few { HasFew proc.now }
    ensures is { IfOk result (λ slots. slots ≡ layout_in proc.now) }
{
    let variables = variables_of(alloc, proc)?;
    Slots::new(alloc, variables.as_slice())
}

/// A procedure, with its slots and those of the procedures before it.
fn routine_of(
    alloc: Global,
    slots: &Slots,
    earlier: &[Proc],
    known: &[Slots],
    proc: &Proc,
) -> Result<Routine, Memory>
    requires few { length earlier.now < 2 ^ 32 }
    requires known { known.now ≡ map layout_in earlier.now }
    requires slots { slots.now ≡ layout_in proc.now }
    ensures is { IfOk result (λ r. r ≡ routine_of earlier.now proc.now) }
{
    let resolver = Resolver::new(slots, earlier, known);
    let code = code_in(alloc, &resolver, proc.body())?;
    let name = proc.name().clone()?;
    let layout = slots.layout().clone()?;
    Routine::new(alloc, name, layout, code)
}

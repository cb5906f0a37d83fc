//! What calls hand down to the procedures that they enter.
ghost use Rattle.std.specs.Prelude.{◌≡◌, ◌<◌, ◌++◌, ◌∷◌, [], length, reverse, IfOk, OnOk};
ghost use Rattle.batch_interp.specs.Handing.{begun, handed_on, all_handed, handed_to, handed_besides, AreHanded};
ghost use Rattle.batch_interp.specs.Totalling.{first_of, behind_first};

use crate::frames::Plan;
use crate::pieces::{append, last_first};
use crate::walks::{Entered, enter_main};
use base_values::{Items, Memory};
use domain_laws::{Domain, Steps};
use std::alloc::Global;
use std::sync::ledger::Ledger;

/// What one call statement hands down.
#[derive(Drop)]
pub(crate) struct Handed<S> {
    /// How many procedures stand before the one that is called.
    pub(crate) place: usize,
    /// That procedure, entered under the chains to the statement so far, in their order.
    pub(crate) entered: Items<Entered<S>>,
}

/// What is handed down to one procedure, and what to others.
#[derive(Drop)]
pub(crate) struct Handover<S> {
    pub(crate) entered: Items<Entered<S>>,
    pub(crate) others: Items<Handed<S>>,
}

/// What a call statement hands down so far: nothing where no chain came yet.
fn begun<S: Drop>(alloc: Global, so_far: Option<Handed<S>>, place: usize) -> Handed<S>
    ensures is { result ≡ begun so_far place }
{
    match so_far {
        Some(handed) => handed,
        None => Handed {
            place,
            entered: Items::new(alloc),
        },
    }
}

/// What a call statement hands down under one more chain, after what it did so far.
fn handed_on<S: Drop>(
    alloc: Global,
    so_far: Option<Handed<S>>,
    next: Entered<S>,
) -> Result<Handed<S>, Memory>
    ensures is { IfOk result (λ h. h ≡ handed_on so_far next) }
{
    let Handed { place, mut entered } = begun(alloc, so_far, next.frame.place);
    entered.push(next)?;
    Ok(Handed { place, entered })
}

/// Adds what one more call statement hands down under one more chain, after what the last one so far did,
/// which goes, where there is one.
fn add_handed<S: Drop>(
    alloc: Global,
    so_far: &mut Items<Handed<S>>,
    next: Entered<S>,
    all: &mut Items<Handed<S>>,
) -> Result<(), Memory>
    ensures rest { OnOk result (behind_first (reverse so_far.old) ≡ reverse so_far.new) }
    ensures added { OnOk result (all.new ≡ all.old ++ handed_on (first_of (reverse so_far.old)) next
        ∷ []) }
{
    let handed = handed_on(alloc, so_far.pop(), next)?;
    all.push(handed)
}

/// What the call statements of a procedure hand down, with what they do under one more chain.
#[tactic(auto, using(crate::proofs::Turned::turned_twice))]
pub(crate) fn all_handed<S: Drop>(
    alloc: Global,
    so_far: Items<Handed<S>>,
    more: Items<Entered<S>>,
) -> Result<Items<Handed<S>>, Memory>
    ensures is { IfOk result (λ all. all ≡ all_handed so_far more) }
{
    let mut before = last_first(so_far);
    let mut left = last_first(more);
    let mut all = Items::with_capacity(alloc, left.len())?;
    while let Some(next) = left.pop() {
        add_handed(alloc, &mut before, next, &mut all)?;
    }
    Ok(all)
}

/// What is handed down to the procedure at a place, and the rest.
pub(crate) fn taken<S: Drop>(
    alloc: Global,
    calls: Items<Handed<S>>,
    place: usize,
) -> Result<Handover<S>, Memory>
    ensures entered { IfOk result (λ t. t.entered ≡ handed_to place calls) }
    ensures others { IfOk result (λ t. t.others ≡ handed_besides place calls) }
{
    let mut left = last_first(calls);
    let mut entered = Items::new(alloc);
    let mut others = Items::new(alloc);
    while let Some(handed) = left.pop() {
        if handed.place == place {
            append(&mut entered, handed.entered)?;
        } else {
            others.push(handed)?;
        }
    }
    Ok(Handover { entered, others })
}

/// Main, entered, as if a call handed it down.
pub(crate) fn main_handed<D: Domain, L: Ledger>(
    alloc: Global,
    dom: &D,
    plan: &Plan,
    steps: &mut Steps<L>,
) -> Result<Items<Handed<D::State>>, Memory>
    requires some { 0 < length plan.now.program }
    ensures handed { IfOk result (AreHanded (D.operations dom.now) plan.now
        (length plan.now.program)) }
{
    let main = enter_main(alloc, dom, plan, steps)?;
    let mut calls = Items::new(alloc);
    calls.push(handed_on(alloc, None, main)?)?;
    Ok(calls)
}

//! The chains that a call string selects.
ghost use Rattle.std.specs.Prelude.{◌≡◌, map, reverse, IfOk};
ghost use Rattle.imp_check.specs.Slots.{routines_of};
ghost use Rattle.imp_chains.specs.Chains.{ends_in, ending_in, selected};
ghost use Rattle.call_chains.specs.Targets.{targets_of};

use base_short::Short;
use base_values::{Items, Memory};
use call_contexts::{chains_to, place_of};
use imp_syntax::{Chain, Location, ProcId, StmtId};
use imp_table::View;
use std::alloc::Global;

/// Whether a chain ends in these calls, both with the last call first.
#[tactic(auto, using(crate::proofs::Filtering::ends_step, crate::proofs::Filtering::ends_short, crate::proofs::Filtering::ends_other, crate::proofs::Filtering::ends_all))]
fn ends_in(calls: &[u32], chain: &[u32]) -> bool
    ensures is { result ≡ ends_in calls.now chain.now }
{
    for (i, call) in calls.iter().enumerate() {
        match chain.get(i) {
            None => return false,
            Some(site) => {
                if *call != *site {
                    return false;
                }
            }
        }
    }
    true
}

/// A chain with its outermost call first.
fn outermost_first(alloc: Global, chain: &[u32]) -> Result<Chain, Memory>
    ensures is { IfOk result (λ z. z ≡ reverse chain.now) }
{
    let sites: Vec<StmtId> = chain
        .iter()
        .rev()
        .map(|site| StmtId::new(*site))
        .collect(alloc)?;
    Ok(Chain::new(Items::from_vec(sites)))
}

/// A call string with its last call first.
fn last_first(alloc: Global, string: &[u32]) -> Result<Vec<u32>, Memory>
    ensures is { IfOk result (λ calls. calls.items ≡ reverse string.now) }
{
    let calls: Vec<u32> = string.iter().rev().copied().collect(alloc)?;
    Ok(calls)
}

/// Of these chains those that end in the calls.
#[tactic(auto, using(crate::proofs::Filtering::ending_taken, crate::proofs::Filtering::ending_left))]
fn ending_in(alloc: Global, calls: &[u32], chains: &[Short<u32>]) -> Result<Items<Chain>, Memory>
    ensures is { IfOk result (λ found. found ≡ map reverse (ending_in calls.now chains.now)) }
{
    let mut found = Items::new(alloc);
    for chain in chains {
        if ends_in(calls, chain.as_slice()) {
            found.push(outermost_first(alloc, chain.as_slice())?)?;
        }
    }
    Ok(found)
}

/// The chains to a procedure that a call string selects, those that end in it, in order: by the
/// text of the last calls first. Chains and the string have the outermost call first. There are
/// none to a procedure that is not there. It takes time linear in the calls of the procedures from
/// this one on and in the chains to them.
pub fn chains(
    alloc: Global,
    prog: &View<'_>,
    proc: ProcId,
    string: &[u32],
) -> Result<Items<Chain>, Memory>
    ensures is { IfOk result (λ found. found ≡ map reverse
        (selected (routines_of prog.now) proc string.now)) }
{
    let all = chains_to(alloc, prog, proc)?;
    let calls = last_first(alloc, string)?;
    ending_in(alloc, calls.as_slice(), all.as_slice())
}

/// The chains of a location that a call string selects: those to its procedure, as [`chains`] gives
/// them, and none where the program has no such location. It takes the time of [`place_of`] and of
/// [`chains`].
pub fn targets(
    alloc: Global,
    prog: &View<'_>,
    at: &Location,
    string: &[u32],
) -> Result<Items<Chain>, Memory>
    ensures is { IfOk result (λ found. found ≡ map reverse
        (targets_of (routines_of prog.now) at.now string.now)) }
{
    match place_of(prog, at) {
        Ok(place) => chains(alloc, prog, place, string),
        Err(_) => Ok(Items::new(alloc)),
    }
}

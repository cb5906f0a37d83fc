//! The chains to the procedures, as sets.
ghost use Rattle.std.specs.Prelude.{◌≡◌, [], List, ℕ, None, true, map, reverse, IfOk, OnOk, if◌then◌else◌};
ghost use Rattle.std.specs.Str.{bytes_eq};
ghost use Rattle.imp_slots.specs.Fits.{IsChecked};
ghost use Rattle.imp_check.specs.Programs.{check_fault};
ghost use Rattle.imp_check.specs.Slots.{routines_of};
ghost use Rattle.imp_chains.specs.Chains.{chains};
ghost use Rattle.cert_lines.specs.Lines.{is_chain};
ghost use Rattle.cert_reading.specs.Table.{chain_in, AreChains};

use base_values::{Items, Memory};
use call_chains::chains;
use call_contexts::procedure_count;
use imp_syntax::{Chain, ProcId, StmtId};
use imp_table::View;
use std::alloc::Global;
use std::collections::HashSet;
use std::marker::Model;

/// Chains, each with the last call first.
#[derive(Drop)]
pub(crate) struct ChainSet {
    chains: HashSet<Items<StmtId>>,
}

impl Model for ChainSet {
    ghost use Rattle.std.specs.Prelude.{ℕ, List};

    ghost Value = { List (List ℕ) };

    ghost view = { λ a. a.chains.keys };
}

impl ChainSet {
    fn new(alloc: Global) -> ChainSet
        ensures empty { result ≡ [] }
    {
        ChainSet {
            chains: HashSet::new(alloc),
        }
    }

    fn has(&self, chain: &Items<StmtId>) -> bool
        ensures is { result ≡ is_chain chain.now self.now }
    {
        self.chains.contains(chain)
    }

    fn insert(&mut self, chain: Items<StmtId>) -> Result<(), Memory>
        ensures added { OnOk result ((z : List ℕ) → is_chain z self.new ≡
            (if bytes_eq z chain then true else is_chain z self.old)) }
    {
        self.chains.insert(chain)?;
        Ok(())
    }
}

/// A chain with its last call first.
fn last_first(alloc: Global, chain: &Chain) -> Result<Items<StmtId>, Memory>
    ensures is { IfOk result (λ z. z ≡ reverse chain.now) }
{
    let sites: Vec<StmtId> = chain.sites().iter().rev().copied().collect(alloc)?;
    Ok(Items::from_vec(sites))
}

/// The set of these chains, which have the outermost call first.
fn set_of(alloc: Global, chains: &[Chain]) -> Result<ChainSet, Memory>
    ensures is { IfOk result (λ s. (z : List ℕ) → is_chain z s ≡
        is_chain z (map reverse chains.now)) }
{
    let mut set = ChainSet::new(alloc);
    for chain in chains {
        set.insert(last_first(alloc, chain)?)?;
    }
    Ok(set)
}

/// The chains to each procedure, by its place.
#[derive(Drop)]
pub(crate) struct ChainSets {
    sets: Items<ChainSet>,
}

impl ChainSets {
    /// The chains to the procedures of a program, which has no fault as it is read. It takes the time of finding them, and
    /// time linear in them.
    pub(crate) fn new(alloc: Global, prog: &View<'_>) -> Result<ChainSets, Memory>
        ensures are { IfOk result (λ t. AreChains (routines_of prog.now) t.sets) }
        ensures faultless { check_fault prog.now ≡ None }
        ensures fit { IsChecked (routines_of prog.now) }
    {
        let mut sets = Items::with_capacity(alloc, prog.procs().len())?;
        for place in 0..procedure_count(prog) {
            let chains = chains(alloc, prog, ProcId::new(place), &[])?;
            sets.push(set_of(alloc, chains.as_slice())?)?;
        }
        Ok(ChainSets { sets })
    }

    /// Whether these calls, the last one first, are a chain to a procedure.
    pub(crate) fn has(&self, proc: ProcId, sites: &Items<StmtId>) -> bool
        ensures is { result ≡ chain_in self.now.sets proc sites.now }
    {
        match self.sets.get(proc.place() as usize) {
            Some(set) => set.has(sites),
            None => false,
        }
    }
}

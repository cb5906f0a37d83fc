//! The chains to procedures, each with the last call first.
ghost use Rattle.std.specs.Prelude.{true, ◌≡◌, ◌++◌, ◌∷◌, [], ◌+◌, ◌-◌, ◌<◌, length, map, ℕ, List, IfOk, OnOk};
ghost use Rattle.imp_slots.specs.Fits.{IsChecked};
ghost use Rattle.imp_check.specs.Entries.{entries_of, entry_of};
ghost use Rattle.imp_check.specs.Programs.{AreNumbered};
ghost use Rattle.imp_check.specs.Slots.{routines_of};
ghost use Rattle.imp_chains.specs.Chains.{chains};
ghost use Rattle.call_contexts.specs.Tables.{chains_up, chains_in, chains_by, through_sites};
ghost use Rattle.call_contexts.specs.Marks.{is_marked, chains_marked, AreCallersMarked};

use crate::callers::marked_callers;
use base_short::Short;
use base_values::{Items, Memory};
use imp_chains::chains_go_through_callers;
use imp_syntax::{ProcId, StmtId};
use imp_table::View;
use std::alloc::Global;

/// A chain with one more call after it.
fn with_call(alloc: Global, site: StmtId, chain: &[u32]) -> Result<Short<u32>, Memory>
    ensures is { IfOk result (λ z. z ≡ site ∷ chain.now) }
{
    let call = site.number();
    Short::with_first(alloc, call, chain)
}

/// Adds these chains, each with one more call after it.
fn add_longer(
    alloc: Global,
    chains: &[Short<u32>],
    site: StmtId,
    found: &mut Items<Short<u32>>,
) -> Result<(), Memory>
    ensures added { OnOk result (found.new ≡ found.old ++ map
        (λ (z : List ℕ). site ∷ z) chains.now) }
{
    for chain in chains {
        found.push(with_call(alloc, site, chain.as_slice())?)?;
    }
    Ok(())
}

/// The chains to the procedure of a call, by a table of chains from those of main on down.
fn chains_to_caller<'a>(
    prog: &View<'_>,
    main: u32,
    table: &'a [Items<Short<u32>>],
    site: StmtId,
) -> &'a [Short<u32>]
    ensures are { result.now ≡ chains_by (chains_in table.now main)
        (entry_of (entries_of prog.now) site) }
{
    let Some(entry) = prog.entry(site) else {
        return &[];
    };
    let caller = entry.context.proc.place();
    match table.get(main.saturating_sub(caller) as usize) {
        Some(chains) => chains.as_slice(),
        None => &[],
    }
}

/// The chains through these call statements.
fn through(
    alloc: Global,
    prog: &View<'_>,
    main: u32,
    table: &[Items<Short<u32>>],
    sites: &[StmtId],
) -> Result<Items<Short<u32>>, Memory>
    ensures is { IfOk result (λ found. found ≡ through_sites (chains_in table.now main)
        (entry_of (entries_of prog.now)) sites.now) }
{
    let mut found = Items::new(alloc);
    for site in sites {
        let chains = chains_to_caller(prog, main, table, *site);
        add_longer(alloc, chains, *site, &mut found)?;
    }
    Ok(found)
}

/// The one chain to main.
fn only_main(alloc: Global) -> Result<Items<Short<u32>>, Memory>
    ensures is { IfOk result (λ found. found ≡ [] ∷ []) }
{
    let mut found = Items::with_capacity(alloc, 1)?;
    found.push(Short::new(alloc))?;
    Ok(found)
}

/// How many procedures there are.
#[tactic(auto, using(crate::proofs::Few::few_heads, imp_check::proofs::TableLemmas::heads_length))]
pub fn procedure_count(prog: &View<'_>) -> u32
    ensures is { result ≡ length prog.now }
{
    prog.procs().len() as u32
}

/// The place of main, the last procedure.
#[tactic(auto, using(crate::proofs::Few::some_heads, crate::proofs::Few::few_heads, crate::proofs::Few::as_many_heads))]
pub fn main_place(prog: &View<'_>) -> u32
    ensures last { result + 1 ≡ length (routines_of prog.now) }
    ensures few { result < 64 }
    ensures checked { IsChecked (routines_of prog.now) }
    ensures numbered { AreNumbered prog.now }
{
    prog.procs().len() as u32 - 1
}

/// The chains to a procedure before main, where those to its callers are known.
fn chains_at(
    alloc: Global,
    prog: &View<'_>,
    main: u32,
    marks: &[bool],
    table: &[Items<Short<u32>>],
    place: u32,
) -> Result<Items<Short<u32>>, Memory>
    requires last { main + 1 ≡ length (routines_of prog.now) }
    requires before { place < main }
    requires callers { AreCallersMarked (routines_of prog.now) marks.now place }
    requires known { table.now ≡ chains_up (chains_marked marks.now (chains (routines_of prog.now)))
        main (main - place) }
    ensures is { IfOk result (λ found. found ≡ chains (routines_of prog.now) place) }
{
    chains_go_through_callers();
    main_place(prog);
    let sites = prog.sites(ProcId::new(place));
    let found = through(alloc, prog, main, table, sites)?;
    Ok(found)
}

/// The same, where the procedure is marked; else none.
fn chains_where_marked(
    alloc: Global,
    prog: &View<'_>,
    main: u32,
    marks: &[bool],
    table: &[Items<Short<u32>>],
    place: u32,
) -> Result<Items<Short<u32>>, Memory>
    requires last { main + 1 ≡ length (routines_of prog.now) }
    requires before { place < main }
    requires within { place < length marks.now }
    requires callers { is_marked marks.now place ≡ true →
        AreCallersMarked (routines_of prog.now) marks.now place }
    requires known { table.now ≡ chains_up (chains_marked marks.now (chains (routines_of prog.now)))
        main (main - place) }
    ensures is { IfOk result (λ found. found ≡ chains_marked marks.now
        (chains (routines_of prog.now)) place) }
{
    if marks[place as usize] {
        chains_at(alloc, prog, main, marks, table, place)
    } else {
        Ok(Items::new(alloc))
    }
}

/// The chains to a procedure, each with the last call first. There are none to a procedure that is not there. They are made
/// from those to its callers, and these from those to theirs: it takes time linear in the calls of the procedures through
/// which chains lead to it and in the chains to these, and a step for each procedure after it.
#[tactic(auto, using(crate::proofs::Tabled::none_past, crate::proofs::Tabled::main_marked, crate::proofs::Tabled::up_more))]
pub fn chains_to(alloc: Global, prog: &View<'_>, proc: ProcId) -> Result<Items<Short<u32>>, Memory>
    ensures is { IfOk result (λ found. found ≡ chains (routines_of prog.now) proc) }
{
    let main = main_place(prog);
    let place = proc.place();
    if place > main {
        return Ok(Items::new(alloc));
    }
    let marks = marked_callers(prog, main, place);
    let mut table: Vec<Items<Short<u32>>> = Vec::new(alloc);
    let mut found = only_main(alloc)?;
    for k in (place..main).rev() {
        table.push(found)?;
        found = chains_where_marked(alloc, prog, main, &marks, table.as_slice(), k)?;
    }
    Ok(found)
}

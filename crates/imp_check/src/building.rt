//! The parts of a program's table.
ghost use Rattle.std.specs.Prelude.{◌≡◌, ◌<◌, ◌^◌, [], length, map, IfOk, OnOk};
ghost use Rattle.imp_check.specs.Fine.{IsFine};
ghost use Rattle.imp_check.specs.Tables.{entry_in, AreOf};
ghost use Rattle.imp_check.specs.Slots.{layout_in};
ghost use Rattle.imp_check.specs.Programs.{nesting, deepest};
ghost use Rattle.imp_check.specs.Entries.{procedure_entries, entries_of};
ghost use Rattle.imp_check.specs.Puts.{no_sites, put_all, with_sites};

use crate::counts::program_count;
use crate::entries::{Making, block_entries};
use crate::entry::{Context, ProcHeader};
use crate::heads::heads_of;
use crate::place::TableSlot;
use crate::resolve::Resolver;
use crate::routines::layouts_of;
use crate::slots::Slots;
use base_values::{Items, Memory};
use imp_syntax::{Proc, ProcId, StmtId};
use std::alloc::Global;

/// No call statements, for each of so many procedures.
#[tactic(auto, using(crate::proofs::SitesMade::none_more))]
fn no_sites(alloc: Global, count: usize) -> Result<Vec<Items<StmtId>>, Memory>
    ensures is { IfOk result (λ sites. sites.items ≡ no_sites count) }
{
    let mut sites: Vec<Items<StmtId>> = Vec::new(alloc);
    while sites.len() < count {
        sites.push(Items::new(alloc))?;
    }
    Ok(sites)
}

/// Adds a procedure.
fn add_procedure(
    alloc: Global,
    slots: &Slots,
    earlier: &[Proc],
    known: &[Slots],
    proc: &Proc,
    making: &mut Making,
) -> Result<(), Memory>
    requires few { length earlier.now < 2 ^ 32 }
    requires known { known.now ≡ map layout_in earlier.now }
    requires slots { slots.now ≡ layout_in proc.now }
    requires shallow { nesting proc.now.body < 2 ^ 32 }
    ensures put { OnOk result (making.new.places.items ≡
        put_all (procedure_entries earlier.now proc.now) making.old.places.items) }
    ensures sites { OnOk result (making.new.sites.items ≡
        with_sites (procedure_entries earlier.now proc.now) making.old.sites.items) }
{
    let resolver = Resolver::new(slots, earlier, known);
    let context = Context {
        proc: ProcId::new(earlier.len() as u32),
        around: None,
        head: None,
        depth: 0,
    };
    block_entries(alloc, &resolver, &context, proc.body(), making)
}

/// Adds the procedures, by the slots of each.
#[tactic(auto, using(crate::proofs::SlotLemmas::known_length, crate::proofs::SlotLemmas::known_before, crate::proofs::SlotLemmas::layout_there, crate::proofs::EntryLemmas::put_step, crate::proofs::EntryLemmas::sites_step, crate::proofs::PartLemmas::body_nesting))]
fn add_procedures(
    alloc: Global,
    procs: &[Proc],
    known: &[Slots],
    making: &mut Making,
) -> Result<(), Memory>
    requires few { length procs.now < 2 ^ 32 }
    requires shallow { deepest procs.now < 2 ^ 32 }
    requires known { known.now ≡ map layout_in procs.now }
    ensures put { OnOk result (making.new.places.items ≡
        put_all (entries_of procs.now) making.old.places.items) }
    ensures sites { OnOk result (making.new.sites.items ≡
        with_sites (entries_of procs.now) making.old.sites.items) }
{
    for (i, proc) in procs.iter().enumerate() {
        add_procedure(alloc, &known[i], &procs[..i], &known[..i], proc, making)?;
    }
    Ok(())
}

/// The statements of all procedures, by the slots of each.
fn making_of(alloc: Global, procs: &[Proc], known: &[Slots]) -> Result<Making, Memory>
    requires few { length procs.now < 2 ^ 32 }
    requires shallow { deepest procs.now < 2 ^ 32 }
    requires known { known.now ≡ map layout_in procs.now }
    ensures put { IfOk result (λ making. making.places.items ≡ put_all (entries_of procs.now) []) }
    ensures sites { IfOk result (λ making. making.sites.items ≡ with_sites (entries_of procs.now)
        (no_sites (length procs.now))) }
{
    let mut making = Making {
        places: Vec::new(alloc),
        sites: no_sites(alloc, procs.len())?,
    };
    add_procedures(alloc, procs, known, &mut making)?;
    Ok(making)
}

/// What a table of a program has.
#[derive(Drop)]
pub struct TableParts {
    /// The procedures without their statements.
    pub heads: Items<ProcHeader>,
    /// What stands at each number.
    pub places: Vec<TableSlot>,
    /// How many statements there are.
    pub count: u32,
    /// The call statements of each procedure.
    pub sites: Items<Items<StmtId>>,
}

/// What the table of a program without faults has. It takes time linear in the program and in its largest number, and
/// fails only when memory runs out.
#[tactic(auto, using(crate::proofs::FewLemmas::few_checked, crate::proofs::FewLemmas::few_statements, crate::proofs::TableLemmas::made))]
pub fn table_parts(alloc: Global, procs: &[Proc]) -> Result<TableParts, Memory>
    requires fine { IsFine procs.now }
    ensures are { IfOk result (λ parts. AreOf procs.now (entry_in parts.places.items) parts.count
        parts.heads parts.sites) }
{
    let known = layouts_of(alloc, procs)?;
    let heads = heads_of(alloc, procs, known.as_slice())?;
    let Making { places, sites } = making_of(alloc, procs, known.as_slice())?;
    let count = program_count(procs);
    let sites = Items::from_vec(sites);
    Ok(TableParts {
        heads,
        places,
        count,
        sites,
    })
}

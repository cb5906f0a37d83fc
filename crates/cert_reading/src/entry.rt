//! One line of a certificate.
ghost use Rattle.std.specs.Prelude.{◌≡◌, IfOk, reverse, option_map, option_and_then};
ghost use Rattle.serde_json.specs.View.{view};
ghost use Rattle.imp_check.specs.Slots.{routines_of};
ghost use Rattle.cert_meaning.specs.Chained.{layout_around, layouts_around};
ghost use Rattle.cert_lines.specs.Lines.{chain_at, is_loop_under, line_in, entry_in, entry_of};
ghost use Rattle.request_json.specs.Members.{number_at, greatest_id};
ghost use Rattle.std.specs.Prelude.{codes};
ghost use Rattle.cert_reading.specs.Table.{AreChains};
ghost use Rattle.cert_reading.specs.Reading.{entry_told, entry_with};

use crate::chain_sets::ChainSets;
use crate::written::loop_key;
use base_values::{Items, Memory};
use call_contexts::place_of;
use cert_meaning::Portable;
use imp_slots::Layout;
use imp_syntax::{Location, StmtId};
use imp_table::{Checked, View};
use request_json::{ids_at, json_of, number_at, text_at};
use serde_json::Value;
use std::alloc::Global;

/// What a line says: a loop with the call sites of a chain, the last one first, and a state.
#[derive(Drop)]
pub(crate) struct CertEntry<S> {
    pub(crate) at: StmtId,
    pub(crate) sites: Items<StmtId>,
    pub(crate) state: S,
}

/// The most calls of a chain.
const MOST_CALLS: usize = 8;

/// The loop of a line.
fn loop_at(line: &Value) -> Option<StmtId>
    ensures is { result ≡ number_at greatest_id (codes "at") (view line.now) }
{
    match number_at(line, "at", 4_294_967_295) {
        Some(number) => Some(StmtId::new(number as u32)),
        None => None,
    }
}

/// The call sites of a line, the last one first.
fn sites_at(alloc: Global, line: &Value) -> Result<Option<Items<StmtId>>, Memory>
    ensures are { IfOk result (λ sites.
        sites ≡ option_map reverse (chain_at (view line.now))) }
{
    let Some(chain) = ids_at(alloc, line, "chain")? else {
        return Ok(None);
    };
    if chain.len() > MOST_CALLS {
        return Ok(None);
    }
    let sites: Vec<StmtId> = chain.as_slice().iter().rev().copied().collect(alloc)?;
    Ok(Some(Items::from_vec(sites)))
}

/// Whether the program has this loop, under a chain with these call sites.
fn is_loop_under(prog: &View<'_>, chains: &ChainSets, at: StmtId, sites: &Items<StmtId>) -> bool
    requires chains { AreChains (routines_of prog.now) chains.now.sets }
    ensures is { result ≡ is_loop_under (routines_of prog.now) at sites.now }
{
    match place_of(prog, &Location::Head(at)) {
        Ok(proc) => chains.has(proc, sites),
        Err(_) => false,
    }
}

/// The layout of the procedure of a statement.
fn layout_around(alloc: Global, prog: &Checked, stmt: StmtId) -> Result<Layout, Memory>
    ensures is { IfOk result (λ l. l ≡ layout_around (routines_of prog.now) stmt) }
{
    if let Ok(proc) = place_of(&prog.view(), &Location::Before(stmt)) {
        if let Some(routine) = prog.routines().get(proc.place() as usize) {
            return Ok(routine.layout().clone()?);
        }
    }
    Layout::new(alloc, Items::new(alloc), Items::new(alloc))
}

/// The layouts of the frames that stand at these statements.
fn layouts_around(alloc: Global, prog: &Checked, stmts: &[StmtId]) -> Result<Items<Layout>, Memory>
    ensures are { IfOk result (λ ls. ls ≡ layouts_around (routines_of prog.now) stmts.now) }
{
    let mut layouts = Items::with_capacity(alloc, stmts.len())?;
    for stmt in stmts {
        layouts.push(layout_around(alloc, prog, *stmt)?)?;
    }
    Ok(layouts)
}

/// The entry of a loop, call sites and the text of a state, where the program has the loop under such a chain and a
/// state of it has the text.
fn entry_with<D: Portable>(
    alloc: Global,
    dom: &D,
    prog: &Checked,
    chains: &ChainSets,
    at: StmtId,
    sites: Items<StmtId>,
    text: &[u8],
) -> Result<Option<CertEntry<D::State>>, Memory>
    requires chains { AreChains (routines_of prog.now) chains.now.sets }
    ensures is { IfOk result (λ o. option_map entry_told o ≡ entry_with (D.port dom.now)
        (routines_of prog.now) at sites text.now) }
{
    if !is_loop_under(&prog.view(), chains, at, &sites) {
        return Ok(None);
    }
    let key = loop_key(alloc, at, sites.as_slice())?;
    let layouts = layouts_around(alloc, prog, key.as_slice())?;
    match dom.take(alloc, layouts.as_slice(), text)? {
        Some(state) => Ok(Some(CertEntry { at, sites, state })),
        None => Ok(None),
    }
}

/// The entry of a value.
fn entry_in<D: Portable>(
    alloc: Global,
    dom: &D,
    prog: &Checked,
    chains: &ChainSets,
    line: &Value,
) -> Result<Option<CertEntry<D::State>>, Memory>
    requires chains { AreChains (routines_of prog.now) chains.now.sets }
    ensures is { IfOk result (λ o. option_map entry_told o ≡
        option_and_then (entry_in (D.port dom.now) (routines_of prog.now))
        (line_in (view line.now))) }
{
    let Some(at) = loop_at(line) else {
        return Ok(None);
    };
    let Some(sites) = sites_at(alloc, line)? else {
        return Ok(None);
    };
    let Some(text) = text_at(line, "state") else {
        return Ok(None);
    };
    entry_with(alloc, dom, prog, chains, at, sites, text.as_bytes())
}

/// The entry of a line, or None where the line is bad by itself.
#[tactic(auto, unfolding(cert_lines::specs::Lines::line_of))]
pub(crate) fn entry_of<D: Portable>(
    alloc: Global,
    dom: &D,
    prog: &Checked,
    chains: &ChainSets,
    line: &[u8],
) -> Result<Option<CertEntry<D::State>>, Memory>
    requires chains { AreChains (routines_of prog.now) chains.now.sets }
    ensures is { IfOk result (λ o. option_map entry_told o ≡
        entry_of (D.port dom.now) (routines_of prog.now) line.now) }
{
    match json_of(alloc, line)? {
        Some(value) => entry_in(alloc, dom, prog, chains, &value),
        None => Ok(None),
    }
}

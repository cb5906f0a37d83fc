//! Stale cells that hold again what they held.
//!
//! The inputs of a stale cell are looked at in order. Where each holds what was read of it, the cell holds what it held, and
//! is kept again without its row and without the domain; so an edit costs what it changes ("early cutoff").
ghost use Rattle.std.specs.Prelude.{◌≡◌, false, IfOk, OnErr, OnOk};
ghost use Rattle.daig_query.specs.Kept.{kept};
ghost use Rattle.daig_query.specs.Opened.{name_of, Computes, IsOpen, Puts, StaysOpen};
ghost use Rattle.daig_query.specs.Revalidated.{Finds, IsNextRead, IsValid, Looks};
ghost use Rattle.daig_query.specs.Right.{IsRight};

use crate::held::Held;
use crate::opening::{Absent, Open};
use crate::stale::{Read, Reads};
use crate::store::Store;
use base_values::Memory;
use daig_graph::Value;
use domain_laws::Domain;
use imp_flow::Flow;

/// What a look at the inputs of a name finds that has no cell.
#[derive(Clone, Copy)]
pub(crate) enum Revalidation {
    /// Its cell is not stale, or an input holds something else than was read of it.
    Changed,
    /// Each input before this one holds what was read of it, and this one has no cell.
    Waits(Absent),
    /// Each input holds what was read of it: so the cell holds this again.
    Valid(Held),
}

/// Looks at an input of a name, where those before it hold what was read of them: whether it does so too. Then it is found;
/// else nothing more can be.
#[inline(always)]
fn look<D: Domain>(
    dom: &D,
    flow: &Flow<'_>,
    store: &Store<D::State>,
    entry: &mut Open,
    place: usize,
    read: Read,
) -> Result<Option<Revalidation>, Memory>
    requires right { IsRight (D.operations dom.now) flow.now store.now }
    requires entry { IsOpen (D.operations dom.now) flow.now store.now entry.old }
    requires next { IsNextRead (D.operations dom.now) flow.now store.now entry.old place read }
    ensures stays { StaysOpen (D.operations dom.now) flow.now store.now entry.old entry.new }
    ensures looks { IfOk result (Looks (D.operations dom.now) flow.now store.now entry.new read) }
{
    let is_next = entry.inputs.len() == place;
    match store.graph.value(read.cell) {
        None if is_next => Ok(Some(Revalidation::Waits(Absent {
            cell: read.cell,
            name: store.names.get(read.cell),
        }))),
        Some(Value::State(held)) if *held == read.held => {
            if is_next {
                entry.inputs.push(read.cell)?;
            }
            Ok(None)
        }
        _ => Ok(Some(Revalidation::Changed)),
    }
}

/// Whether a name that has no cell can be filled with what its stale cell held.
#[inline(always)]
pub(crate) fn revalidate<D: Domain>(
    dom: &D,
    flow: &Flow<'_>,
    store: &Store<D::State>,
    entry: &mut Open,
) -> Result<Revalidation, Memory>
    requires right { IsRight (D.operations dom.now) flow.now store.now }
    requires entry { IsOpen (D.operations dom.now) flow.now store.now entry.old }
    ensures stays { StaysOpen (D.operations dom.now) flow.now store.now entry.old entry.new }
    ensures finds { IfOk result (Finds (D.operations dom.now) flow.now store.now entry.new) }
{
    let Some(stale) = store.stale.get(entry.cell) else {
        return Ok(Revalidation::Changed);
    };
    let count = match stale.reads {
        Reads::Nothing => 0,
        Reads::One(only) => {
            if let Some(end) = look(dom, flow, store, entry, 0, only)? {
                return Ok(end);
            }
            1
        }
        Reads::Two(left, right) => {
            if let Some(end) = look(dom, flow, store, entry, 0, left)? {
                return Ok(end);
            }
            if let Some(end) = look(dom, flow, store, entry, 1, right)? {
                return Ok(end);
            }
            2
        }
    };
    if entry.inputs.len() == count {
        Ok(Revalidation::Valid(stale.held))
    } else {
        Ok(Revalidation::Changed)
    }
}

/// Fills a name with what its stale cell held, where it is valid. It does not tick.
#[inline(always)]
pub(crate) fn keep_again<D: Domain>(
    dom: &D,
    flow: &Flow<'_>,
    store: &mut Store<D::State>,
    entry: Open,
    held: Held,
) -> Result<(), Memory>
    requires right { IsRight (D.operations dom.now) flow.now store.old }
    requires entry { IsOpen (D.operations dom.now) flow.now store.old entry }
    requires valid { IsValid (D.operations dom.now) flow.now store.old entry held }
    requires absent { kept store.old (name_of store.old entry) ≡ false }
    ensures puts { OnOk result (Puts (D.operations dom.now) flow.now store.old store.new
        (name_of store.old entry)) }
    ensures err { OnErr result (Computes (D.operations dom.now) flow.now store.old store.new) }
{
    let owner = store.names.owner(&entry.name);
    let Open {
        cell,
        name: _,
        inputs,
    } = entry;
    store.graph.fill(cell, owner, Value::State(held), inputs)
}

//! The procedures of a program without their statements.
ghost use Rattle.std.specs.Prelude.{◌≡◌, ◌≤◌, length, map, slice_get, option_map, IfOk};
ghost use Rattle.imp_syntax.specs.Plain.{number_of};
ghost use Rattle.imp_check.specs.Parts.{ends_of};
ghost use Rattle.imp_check.specs.Entries.{head_of, heads_of, place_headed, is_headed};
ghost use Rattle.imp_check.specs.Slots.{layout_in};

use crate::entry::{BlockEnds, ProcHeader};
use crate::names::same_name;
use crate::slots::Slots;
use base_values::{Items, Memory, Text};
use imp_syntax::{Block, Proc, Stmt, StmtId};
use std::alloc::Global;

/// The number of the statement at a place of a block.
pub(crate) fn number_at(stmts: &[Stmt], at: usize) -> Option<StmtId>
    ensures is { result ≡ option_map number_of (slice_get stmts.now at) }
{
    match stmts.get(at) {
        Some(stmt) => Some(stmt.id()),
        None => None,
    }
}

/// The first and the last statement of a block.
#[tactic(auto, using(crate::proofs::PartLemmas::ends_are))]
pub(crate) fn ends_of(block: &Block) -> BlockEnds
    ensures is { result ≡ ends_of block.now }
{
    let stmts = block.as_slice();
    BlockEnds {
        first: number_at(stmts, 0),
        last: number_at(stmts, stmts.len().saturating_sub(1)),
    }
}

/// A procedure with these slots, without its statements.
pub(crate) fn head_of(proc: &Proc, slots: &Slots) -> Result<ProcHeader, Memory>
    requires slots { slots.now ≡ layout_in proc.now }
    ensures is { IfOk result (λ head. head ≡ head_of proc.now) }
{
    let bare = proc.with_body(Block::empty())?;
    let layout = slots.layout().clone()?;
    let body = ends_of(proc.body());
    Ok(ProcHeader { bare, layout, body })
}

/// The procedures with these slots, without their statements.
#[tactic(auto, using(crate::proofs::SlotLemmas::known_length, crate::proofs::SlotLemmas::layout_there, crate::proofs::EntryLemmas::heads_step))]
pub(crate) fn heads_of(
    alloc: Global,
    procs: &[Proc],
    known: &[Slots],
) -> Result<Items<ProcHeader>, Memory>
    requires known { known.now ≡ map layout_in procs.now }
    ensures is { IfOk result (λ heads. heads ≡ heads_of procs.now) }
{
    let mut heads = Items::with_capacity(alloc, procs.len())?;
    for (i, proc) in procs.iter().enumerate() {
        heads.push(head_of(proc, &known[i])?)?;
    }
    Ok(heads)
}

/// Whether a procedure has this name.
pub fn is_headed(heads: &[ProcHeader], name: &Text) -> bool
    ensures is { result ≡ is_headed heads.now name.now }
{
    for head in heads {
        if same_name(head.bare.name(), name) {
            return true;
        }
    }
    false
}

/// The place of the first procedure of this name, or how many there are.
pub fn place_headed(heads: &[ProcHeader], name: &Text) -> usize
    ensures is { result ≡ place_headed heads.now name.now }
    ensures within { result ≤ length heads.now }
{
    for (i, head) in heads.iter().enumerate() {
        if same_name(head.bare.name(), name) {
            return i;
        }
    }
    heads.len()
}

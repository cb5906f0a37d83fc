//! The tree of a program, from the table of its statements.
ghost use Rattle.std.specs.Prelude.{◌≡◌, IfOk};
ghost use Rattle.std.specs.Option.{option_copied};
ghost use Rattle.imp_check.specs.Rebuilt.{next_in, statement_with, block_from, procedure_from, program_from};
ghost use Rattle.imp_table.specs.Pages.{entry_at};

use crate::page::Page;
use crate::pages::entry_at;
use base_values::{Items, Memory};
use imp_check::{Entry, ProcHeader};
use imp_syntax::{Block, Proc, Stmt, StmtId, StmtNode};
use std::alloc::Global;

/// The statement of an entry, with these blocks.
fn statement_with(alloc: Global, entry: &Entry, inner: Block, other: Block) -> Result<Stmt, Memory>
    ensures is { IfOk result (λ stmt. stmt ≡ statement_with entry.now.part inner other) }
{
    let node = match entry.part.node() {
        StmtNode::If(cond, _, _) => StmtNode::If(cond.clone()?, inner, other),
        StmtNode::While(cond, _) => StmtNode::While(cond.clone()?, inner),
        _ => return Ok(entry.part.clone()?),
    };
    Stmt::new(alloc, entry.part.id(), node)
}

/// What stands at a number, if so many more statements there are.
fn next_in(pages: &[Page], most: u32, at: Option<StmtId>) -> Option<&Entry>
    ensures is { option_copied result ≡ next_in (entry_at pages.now) most at }
{
    if most == 0 {
        return None;
    }
    match at {
        Some(id) => entry_at(pages, id.number() as usize),
        None => None,
    }
}

/// The block whose first statement has this number.
#[tactic(auto, using(imp_check::proofs::StepLemmas::step_some, imp_check::proofs::StepLemmas::step_is, imp_check::proofs::StepLemmas::step_none, imp_check::proofs::StepLemmas::block_is_of))]
fn block_from(
    alloc: Global,
    pages: &[Page],
    most: u32,
    first: Option<StmtId>,
) -> Result<Block, Memory>
    ensures is { IfOk result (λ block. block ≡ block_from (entry_at pages.now) most first) }
{
    let mut stmts = Items::new(alloc);
    let mut left = most;
    let mut at = first;
    while let Some(entry) = next_in(pages, left, at) {
        left -= 1;
        let inner = block_from(alloc, pages, left, entry.inner.first)?;
        let other = block_from(alloc, pages, left, entry.other.first)?;
        stmts.push(statement_with(alloc, entry, inner, other)?)?;
        at = entry.next;
    }
    Block::new(alloc, stmts)
}

/// The procedures, with their statements.
pub(crate) fn procedures_from(
    alloc: Global,
    pages: &[Page],
    most: u32,
    heads: &[ProcHeader],
) -> Result<Items<Proc>, Memory>
    ensures is { IfOk result (λ procs. procs ≡ program_from (entry_at pages.now) most heads.now) }
{
    let mut procs = Items::with_capacity(alloc, heads.len())?;
    for head in heads {
        let body = block_from(alloc, pages, most, head.body.first)?;
        procs.push(head.bare.with_body(body)?)?;
    }
    Ok(procs)
}

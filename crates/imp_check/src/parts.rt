//! A statement without those inside it, and what is told of its blocks.
ghost use Rattle.std.specs.Prelude.{◌≡◌, ◌++◌, ◌+◌, ◌<◌, ◌^◌, IfOk, OnOk};
ghost use Rattle.imp_check.specs.Parts.{part_of, first_ends, second_ends, leaving_in, leaving, breaks_of};
ghost use Rattle.imp_check.specs.Entries.{inside, inside_loop};

use crate::entry::{Around, BlockEnds, Context, Which};
use crate::heads::ends_of;
use base_values::{Items, Memory};
use imp_syntax::{Block, Stmt, StmtId, StmtNode};
use std::alloc::Global;

/// A statement with its blocks empty.
pub fn part_of(alloc: Global, stmt: &Stmt) -> Result<Stmt, Memory>
    ensures is { IfOk result (λ part. part ≡ part_of stmt.now) }
{
    let node = match stmt.node() {
        StmtNode::If(cond, _, _) => StmtNode::If(cond.clone()?, Block::empty(), Block::empty()),
        StmtNode::While(cond, _) => StmtNode::While(cond.clone()?, Block::empty()),
        _ => return Ok(stmt.clone()?),
    };
    Stmt::new(alloc, stmt.id(), node)
}

const NO_ENDS: BlockEnds = BlockEnds {
    first: None,
    last: None,
};

/// The ends of the first block of an if or of the body of a while.
pub fn first_ends(stmt: &Stmt) -> BlockEnds
    ensures is { result ≡ first_ends stmt.now }
{
    match stmt.node() {
        StmtNode::If(_, then, _) => ends_of(then),
        StmtNode::While(_, body) => ends_of(body),
        _ => NO_ENDS,
    }
}

/// The ends of the second block of an if.
pub fn second_ends(stmt: &Stmt) -> BlockEnds
    ensures is { result ≡ second_ends stmt.now }
{
    match stmt.node() {
        StmtNode::If(_, _, els) => ends_of(els),
        _ => NO_ENDS,
    }
}

/// Adds the breaks that leave the loop around a block, in the order of the text.
#[cycle(leaving)]
#[tactic(auto, using(imp_syntax::specs::Blocks::member_smaller, imp_syntax::specs::Blocks::block_rest))]
pub fn add_leaving(block: &Block, breaks: &mut Items<StmtId>) -> Result<(), Memory>
    ensures added { OnOk result (breaks.new ≡ breaks.old ++ leaving block.now) }
{
    for stmt in block.as_slice() {
        add_leaving_in(stmt, breaks)?;
    }
    Ok(())
}

#[cycle(leaving)]
fn add_leaving_in(stmt: &Stmt, breaks: &mut Items<StmtId>) -> Result<(), Memory>
    ensures added { OnOk result (breaks.new ≡ breaks.old ++ leaving_in stmt.now) }
{
    match stmt.node() {
        StmtNode::Break => breaks.push(stmt.id()),
        StmtNode::If(_, then, els) => {
            add_leaving(then, breaks)?;
            add_leaving(els, breaks)
        }
        _ => Ok(()),
    }
}

/// The breaks that leave a while. Over a whole program this takes linear time: each statement is looked at for its
/// innermost loop alone.
pub fn breaks_of(alloc: Global, stmt: &Stmt) -> Result<Items<StmtId>, Memory>
    ensures is { IfOk result (λ breaks. breaks ≡ breaks_of stmt.now) }
{
    let mut breaks = Items::new(alloc);
    if let StmtNode::While(_, body) = stmt.node() {
        add_leaving(body, &mut breaks)?;
    }
    Ok(breaks)
}

impl Context {
    /// A block of a statement that stands in this one, at most 2^32 - 2 deep.
    pub fn inside(&self, stmt: StmtId, which: Which) -> Context
        requires shallow { self.now.depth + 1 < 2 ^ 32 }
        ensures is { result ≡ inside self.now stmt which }
    {
        Context {
            proc: self.proc,
            around: Some(Around { stmt, which }),
            head: self.head,
            depth: self.depth + 1,
        }
    }

    /// The body of a while that stands in this block.
    pub fn inside_loop(&self, stmt: StmtId) -> Context
        requires shallow { self.now.depth + 1 < 2 ^ 32 }
        ensures is { result ≡ inside_loop self.now stmt }
    {
        Context {
            proc: self.proc,
            around: Some(Around {
                stmt,
                which: Which::Body,
            }),
            head: Some(stmt),
            depth: self.depth + 1,
        }
    }
}

//! Statements and blocks.
ghost use Rattle.std.specs.Prelude.{◌≡◌, ◌<◌, ◌≤◌, [], ◌++◌, length, ◌↔◌, IsTrue, IfOk, OnOk, slice_get};
ghost use Rattle.std.specs.Option.{option_copied};
ghost use Rattle.imp_syntax.specs.Plain.{Ends, block_of, statements_of, number_of};
ghost use Rattle.imp_syntax.specs.StmtViews.{statement_of};
ghost use Rattle.imp_syntax.specs.Changes.{with_number, with_condition, with_then, with_else, with_body, inserted};

use crate::{Action, Call, Cond, StmtId};
use base_values::{Items, Memory};
use std::alloc::{AllocError, Global};
use std::marker::Model;
use std::rc::Rc;

/// A statement with its number, seen as a plain tree. Copies share it.
#[cycle(stmt)]
#[derive(Debug, Drop)]
pub struct Stmt {
    id: StmtId,
    node: Rc<StmtNode>,
}

/// The outermost part of a statement.
#[cycle(stmt)]
#[derive(Debug, Drop)]
pub enum StmtNode {
    /// A simple statement.
    Simple(Action),
    /// `break`
    Break,
    /// A call.
    Call(Call),
    /// `if`: the condition, the block where it holds, the other block.
    If(Cond, Block, Block),
    /// `while`: the condition and the body.
    While(Cond, Block),
}

/// A list of statements, seen as a plain tree. Copies share it; the empty block allocates nothing.
#[cycle(stmt)]
#[derive(Debug, Drop)]
pub struct Block {
    stmts: Option<Rc<Vec<Stmt>>>,
}

impl Model for Stmt {
    ghost use Rattle.imp_syntax.specs.Plain.{Statement, statement_size};
    ghost use Rattle.imp_syntax.specs.StmtCode.{statement_code};

    ghost Value = { Statement };

    ghost coded = { statement_code };

    ghost use Rattle.imp_syntax.specs.StmtViews.{statement_of};

    ghost view = { λ a. statement_of a.id a.node.value };

    ghost size = { statement_size };

    ghost use Rattle.imp_syntax.specs.Falls.{statement_falls};
    ghost use Rattle.std.proofs.Common.{arith};

    ghost size_decreases = { λ a h. omega (arith, statement_falls a.id a.node.value) };
}

impl Model for Block {
    ghost use Rattle.imp_syntax.specs.Plain.{Statements, block_size};
    ghost use Rattle.imp_syntax.specs.StmtCode.{block_code};

    ghost Value = { Statements };

    ghost coded = { block_code };

    ghost use Rattle.imp_syntax.specs.StmtViews.{shared_block};

    ghost view = { λ a. shared_block a.stmts };

    ghost size = { block_size };

    ghost use Rattle.imp_syntax.specs.Falls.{block_falls};

    ghost size_decreases = { λ a h. block_falls a };
}

impl Stmt {
    /// The statement with this number and outermost part. It fails only when memory runs out.
    pub fn new(alloc: Global, id: StmtId, node: StmtNode) -> Result<Stmt, Memory>
        ensures is { IfOk result (λ s. s ≡ statement_of id node) }
    {
        let node = Rc::new(alloc, node)?;
        Ok(Stmt { id, node })
    }

    /// Its number.
    pub fn id(&self) -> StmtId
        ensures is { result ≡ number_of self.now }
    {
        self.id
    }

    /// Its outermost part.
    pub fn node(&self) -> &StmtNode
        ensures is { statement_of (number_of self.now) result.now ≡ self.now }
    {
        &self.node
    }

    /// The statement under another number. It shares all else, and fails only when memory runs out.
    pub fn with_number(&self, id: StmtId) -> Result<Stmt, Memory>
        ensures is { IfOk result (λ s. s ≡ with_number self.now id) }
    {
        let node = self.node.clone()?;
        Ok(Stmt { id, node })
    }

    /// The if or while with another condition; any other statement stays as it is. It shares all else, and fails for
    /// out of memory alone.
    pub fn with_condition(&self, alloc: Global, cond: Cond) -> Result<Stmt, Memory>
        ensures is { IfOk result (λ s. s ≡ with_condition self.now cond) }
    {
        let node = match self.node() {
            StmtNode::If(_, then, els) => StmtNode::If(cond, then.clone()?, els.clone()?),
            StmtNode::While(_, body) => StmtNode::While(cond, body.clone()?),
            _ => return Ok(self.clone()?),
        };
        Stmt::new(alloc, self.id, node)
    }

    /// The if with another first block; any other statement stays as it is. It shares all else, and fails for want of
    /// memory alone.
    pub fn with_then(&self, alloc: Global, then: Block) -> Result<Stmt, Memory>
        ensures is { IfOk result (λ s. s ≡ with_then self.now then) }
    {
        match self.node() {
            StmtNode::If(cond, _, els) => {
                let node = StmtNode::If(cond.clone()?, then, els.clone()?);
                Stmt::new(alloc, self.id, node)
            }
            _ => Ok(self.clone()?),
        }
    }

    /// The if with another second block; any other statement stays as it is. It shares all else, and fails for want of
    /// memory alone.
    pub fn with_else(&self, alloc: Global, els: Block) -> Result<Stmt, Memory>
        ensures is { IfOk result (λ s. s ≡ with_else self.now els) }
    {
        match self.node() {
            StmtNode::If(cond, then, _) => {
                let node = StmtNode::If(cond.clone()?, then.clone()?, els);
                Stmt::new(alloc, self.id, node)
            }
            _ => Ok(self.clone()?),
        }
    }

    /// The while with another body; any other statement stays as it is. It shares all else, and fails for want of
    /// memory alone.
    pub fn with_body(&self, alloc: Global, body: Block) -> Result<Stmt, Memory>
        ensures is { IfOk result (λ s. s ≡ with_body self.now body) }
    {
        match self.node() {
            StmtNode::While(cond, _) => {
                let node = StmtNode::While(cond.clone()?, body);
                Stmt::new(alloc, self.id, node)
            }
            _ => Ok(self.clone()?),
        }
    }
}

impl Clone for Stmt {
    ghost is_clone = { λ s copy. copy ≡ s };

    fn clone(&self) -> Result<Stmt, AllocError> {
        let node = self.node.clone()?;
        Ok(Stmt { id: self.id, node })
    }
}

impl Block {
    /// The block without statements. It allocates nothing.
    pub fn empty() -> Block
        ensures is { result ≡ Ends }
    {
        Block { stmts: None }
    }

    /// The block of these statements. It fails only when memory runs out.
    pub fn new(alloc: Global, stmts: Items<Stmt>) -> Result<Block, Memory>
        ensures is { IfOk result (λ b. b ≡ block_of stmts) }
    {
        if stmts.is_empty() {
            return Ok(Block { stmts: None });
        }
        let stmts = Rc::new(alloc, stmts.into_vec())?;
        Ok(Block { stmts: Some(stmts) })
    }

    /// The statements, in order.
    #[tactic(auto, using(crate::specs::Blocks::statements_back))]
    pub fn as_slice(&self) -> &[Stmt]
        ensures is { block_of result.now ≡ self.now }
        ensures all { result.now ≡ statements_of self.now }
    {
        match &self.stmts {
            Some(stmts) => stmts.as_slice(),
            None => &[],
        }
    }

    /// How many statements stand in it, those inside them aside.
    pub fn len(&self) -> usize
        ensures count { result ≡ length (statements_of self.now) }
    {
        self.as_slice().len()
    }

    /// Whether no statement stands in it.
    pub fn is_empty(&self) -> bool
        ensures empty { IsTrue result ↔ (statements_of self.now ≡ []) }
    {
        self.as_slice().is_empty()
    }

    /// The statement at a place, counted from 0, or `None` past the end.
    pub fn get(&self, at: usize) -> Option<&Stmt>
        ensures item { option_copied result ≡ slice_get (statements_of self.now) at }
    {
        self.as_slice().get(at)
    }

    /// The block with further statements, which begin at this place. It copies a list of pointers, and fails for want
    /// of memory alone.
    pub fn with_inserted(&self, alloc: Global, at: usize, more: &Block) -> Result<Block, Memory>
        requires within { at ≤ length (statements_of self.now) }
        ensures is { IfOk result (λ b. b ≡ inserted self.now at more.now) }
    {
        let stmts = self.as_slice();
        let mut all = Items::new(alloc);
        append(&mut all, &stmts[..at])?;
        append(&mut all, more.as_slice())?;
        append(&mut all, &stmts[at..])?;
        Block::new(alloc, all)
    }
}

/// Adds statements, shared with what they were.
fn append(all: &mut Items<Stmt>, stmts: &[Stmt]) -> Result<(), Memory>
    ensures added { OnOk result (all.new ≡ all.old ++ stmts.now) }
{
    for stmt in stmts {
        all.push(stmt.clone()?)?;
    }
    Ok(())
}

impl Clone for Block {
    ghost is_clone = { λ b copy. copy ≡ b };

    fn clone(&self) -> Result<Block, AllocError> {
        match &self.stmts {
            Some(stmts) => {
                let stmts = stmts.clone()?;
                Ok(Block { stmts: Some(stmts) })
            }
            None => Ok(Block { stmts: None }),
        }
    }
}

//! Blocks of statements, and procedures.
ghost use Rattle.std.specs.Prelude.{◌≡◌, IfOk};
ghost use Rattle.imp_slots.specs.BlockViews.{code_of, number_of};

use crate::{Layout, SlotAction, SlotCall, SlotCond};
use base_values::{Memory, Text};
use std::alloc::{AllocError, Global};
use std::marker::Model;
use std::rc::Rc;

/// A block: its statements in order, shared by its copies.
#[cycle(slot_block)]
#[derive(Drop)]
pub struct SlotBlock {
    statements: Rc<Vec<SlotNode>>,
}

/// A statement with its number.
#[cycle(slot_block)]
#[derive(Drop)]
pub enum SlotNode {
    /// A simple statement that is neither a call nor a break.
    Simple(u32, SlotAction),
    /// An if: its condition, its first block, its else block.
    If(u32, SlotCond, SlotBlock, SlotBlock),
    /// A while: its condition and its body.
    While(u32, SlotCond, SlotBlock),
    /// A call, and the callee's place in the program.
    Call(u32, SlotCall, u32),
    /// A break.
    Break(u32),
}

impl Model for SlotBlock {
    ghost use Rattle.imp_slots.specs.Plain.{Code};
    ghost use Rattle.imp_slots.specs.BlockCodes.{code_code};

    ghost Value = { Code };

    ghost coded = { code_code };

    ghost use Rattle.imp_slots.specs.BlockViews.{code_of};

    ghost view = { λ a. code_of a.statements.value.items };

    ghost use Rattle.imp_slots.specs.Sizes.{code_size};

    ghost size = { code_size };

    ghost use Rattle.std.proofs.Common.{arith};
    ghost use Rattle.imp_slots.specs.BlockFalls.{most_le};

    ghost size_decreases = { λ a h. omega (arith, most_le a.statements.value.items) };
}

impl SlotBlock {
    /// The block of these statements. It fails only when memory runs out.
    pub fn new(alloc: Global, statements: Vec<SlotNode>) -> Result<SlotBlock, Memory>
        ensures same { IfOk result (λ block. block ≡ code_of statements.items) }
    {
        let statements = Rc::new(alloc, statements)?;
        Ok(SlotBlock { statements })
    }

    /// The statements, in order.
    pub fn statements(&self) -> &[SlotNode]
        ensures same { code_of result.now ≡ self.now }
    {
        self.statements.as_ref().as_slice()
    }
}

impl Clone for SlotBlock {
    ghost is_clone = { λ block copy. copy ≡ block };

    fn clone(&self) -> Result<SlotBlock, AllocError> {
        let statements = self.statements.clone()?;
        Ok(SlotBlock { statements })
    }
}

impl SlotNode {
    /// The statement's number.
    pub fn number(&self) -> u32
        ensures same { result ≡ number_of self.now }
    {
        match self {
            SlotNode::Simple(n, _) => *n,
            SlotNode::If(n, _, _, _) => *n,
            SlotNode::While(n, _, _) => *n,
            SlotNode::Call(n, _, _) => *n,
            SlotNode::Break(n) => *n,
        }
    }
}

impl Clone for SlotNode {
    ghost is_clone = { λ node copy. copy ≡ node };

    fn clone(&self) -> Result<SlotNode, AllocError> {
        let copy = match self {
            SlotNode::Simple(n, action) => SlotNode::Simple(*n, action.clone()?),
            SlotNode::If(n, c, t, e) => SlotNode::If(*n, c.clone()?, t.clone()?, e.clone()?),
            SlotNode::While(n, c, body) => SlotNode::While(*n, c.clone()?, body.clone()?),
            SlotNode::Call(n, call, callee) => SlotNode::Call(*n, call.clone()?, *callee),
            SlotNode::Break(n) => SlotNode::Break(*n),
        };
        Ok(copy)
    }
}

/// A checked procedure, shared by its copies.
#[derive(Drop)]
pub struct Routine {
    parts: Rc<RoutineParts>,
}

#[derive(Drop)]
struct RoutineParts {
    name: Text,
    layout: Layout,
    body: SlotBlock,
}

impl Model for Routine {
    ghost use Rattle.imp_slots.specs.Plain as plain;
    ghost use Rattle.imp_slots.specs.BlockCodes.{routine_code};

    ghost Value = { plain.Routine };

    ghost coded = { routine_code };

    ghost view = { λ a. record {
      name = a.parts.value.name;
      layout = a.parts.value.layout;
      code = a.parts.value.body;
    } };
}

impl Routine {
    /// The procedure of these parts. It fails only when memory runs out.
    pub fn new(
        alloc: Global,
        name: Text,
        layout: Layout,
        body: SlotBlock,
    ) -> Result<Routine, Memory>
        ensures same { IfOk result (λ r. r ≡ record { name = name; layout = layout; code = body }) }
    {
        let parts = RoutineParts { name, layout, body };
        let parts = Rc::new(alloc, parts)?;
        Ok(Routine { parts })
    }

    /// Its name.
    pub fn name(&self) -> &Text
        ensures same { result.now ≡ self.now.name }
    {
        &self.parts.as_ref().name
    }

    /// Its variables.
    pub fn layout(&self) -> &Layout
        ensures same { result.now ≡ self.now.layout }
    {
        &self.parts.as_ref().layout
    }

    /// Its statements.
    pub fn body(&self) -> &SlotBlock
        ensures same { result.now ≡ self.now.code }
    {
        &self.parts.as_ref().body
    }
}

impl Clone for Routine {
    ghost is_clone = { λ routine copy. copy ≡ routine };

    fn clone(&self) -> Result<Routine, AllocError> {
        let parts = self.parts.clone()?;
        Ok(Routine { parts })
    }
}

//! Conditions over slots.
ghost use Rattle.std.specs.Prelude.{◌≡◌, IfOk};
ghost use Rattle.imp_slots.specs.CondViews.{guard_of};

use crate::SlotExpr;
use base_values::Memory;
use imp_syntax::Relation;
use std::alloc::{AllocError, Global};
use std::marker::Model;
use std::rc::Rc;

/// A condition over slots, shared by its copies.
#[cycle(slot_cond)]
#[derive(Drop)]
pub struct SlotCond {
    node: Rc<SlotCondNode>,
}

/// The outermost part of a condition.
#[cycle(slot_cond)]
#[derive(Drop)]
pub enum SlotCondNode {
    /// A relation between two ints.
    Compare(Relation, SlotExpr, SlotExpr),
    /// `==` between two links, or `!=` where the first part is false. `None` is null.
    CompareLinks(bool, Option<u32>, Option<u32>),
    /// `!(c)`
    Not(SlotCond),
    /// `c && d`
    And(SlotCond, SlotCond),
    /// `c || d`
    Or(SlotCond, SlotCond),
}

impl Model for SlotCond {
    ghost use Rattle.imp_slots.specs.Plain.{Guard};
    ghost use Rattle.imp_slots.specs.Codes.{guard_code};

    ghost Value = { Guard };

    ghost coded = { guard_code };

    ghost use Rattle.imp_slots.specs.CondViews.{guard_of};

    ghost view = { λ a. guard_of a.node.value };

    ghost use Rattle.imp_slots.specs.Sizes.{guard_size};

    ghost size = { guard_size };

    ghost use Rattle.std.proofs.Common.{arith};

    ghost size_decreases = { λ a h. Prim.grind (arith) };
}

impl SlotCond {
    /// The condition of this outermost part. It fails only when memory runs out.
    pub fn new(alloc: Global, node: SlotCondNode) -> Result<SlotCond, Memory>
        ensures same { IfOk result (λ c. c ≡ guard_of node) }
    {
        let node = Rc::new(alloc, node)?;
        Ok(SlotCond { node })
    }

    /// The outermost part.
    pub fn node(&self) -> &SlotCondNode
        ensures same { guard_of result.now ≡ self.now }
    {
        self.node.as_ref()
    }
}

impl Clone for SlotCond {
    ghost is_clone = { λ c copy. copy ≡ c };

    fn clone(&self) -> Result<SlotCond, AllocError> {
        let node = self.node.clone()?;
        Ok(SlotCond { node })
    }
}

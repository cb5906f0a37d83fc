//! Expressions over slots.
ghost use Rattle.std.specs.Prelude.{◌≡◌, IfOk};
ghost use Rattle.imp_slots.specs.ExprViews.{term_of};

use base_values::{Memory, Number};
use imp_syntax::Operator;
use std::alloc::{AllocError, Global};
use std::marker::Model;
use std::rc::Rc;

/// An expression over numeric slots, shared by its copies.
#[cycle(slot_expr)]
#[derive(Drop)]
pub struct SlotExpr {
    node: Rc<SlotExprNode>,
}

/// The outermost part of an expression.
#[cycle(slot_expr)]
#[derive(Drop)]
pub enum SlotExprNode {
    /// A number.
    Literal(Number),
    /// The int of a numeric slot.
    Slot(u32),
    /// The length of the array of a numeric slot.
    Length(u32),
    /// `-e`
    Negative(SlotExpr),
    /// An operator between two expressions.
    Binary(Operator, SlotExpr, SlotExpr),
}

impl Model for SlotExpr {
    ghost use Rattle.imp_slots.specs.Plain.{Term};
    ghost use Rattle.imp_slots.specs.Codes.{term_code};

    ghost Value = { Term };

    ghost coded = { term_code };

    ghost use Rattle.imp_slots.specs.ExprViews.{term_of};

    ghost view = { λ a. term_of a.node.value };

    ghost use Rattle.imp_slots.specs.Sizes.{term_size};

    ghost size = { term_size };

    ghost use Rattle.std.proofs.Common.{arith};

    ghost size_decreases = { λ a h. Prim.grind (arith) };
}

impl SlotExpr {
    /// The expression of this outermost part. It fails only when memory runs out.
    pub fn new(alloc: Global, node: SlotExprNode) -> Result<SlotExpr, Memory>
        ensures same { IfOk result (λ e. e ≡ term_of node) }
    {
        let node = Rc::new(alloc, node)?;
        Ok(SlotExpr { node })
    }

    /// The outermost part.
    pub fn node(&self) -> &SlotExprNode
        ensures same { term_of result.now ≡ self.now }
    {
        self.node.as_ref()
    }
}

impl Clone for SlotExpr {
    ghost is_clone = { λ e copy. copy ≡ e };

    fn clone(&self) -> Result<SlotExpr, AllocError> {
        let node = self.node.clone()?;
        Ok(SlotExpr { node })
    }
}

//! Conditions, seen as plain trees (`condition_of`).
ghost use Rattle.std.specs.Prelude.{◌≡◌, IfOk};
ghost use Rattle.imp_syntax.specs.Views.{condition_of};

use crate::{Relation, Side};
use base_values::Memory;
use std::alloc::{AllocError, Global};
use std::marker::Model;
use std::rc::Rc;

/// A condition, seen as a plain tree. Copies share it.
#[cycle(cond)]
#[derive(Debug, Drop)]
pub struct Cond {
    node: Rc<CondNode>,
}

/// The outermost part of a condition.
#[cycle(cond)]
#[derive(Debug, Drop)]
pub enum CondNode {
    /// A relation between two sides.
    Compare(Relation, Side, Side),
    /// The opposite.
    Not(Cond),
    /// Both.
    And(Cond, Cond),
    /// One or both.
    Or(Cond, Cond),
}

impl Model for Cond {
    ghost use Rattle.imp_syntax.specs.Plain.{Condition, condition_size};
    ghost use Rattle.imp_syntax.specs.Code.{condition_code};

    ghost Value = { Condition };

    ghost coded = { condition_code };

    ghost use Rattle.imp_syntax.specs.Views.{condition_of};

    ghost view = { λ a. condition_of a.node.value };

    ghost size = { condition_size };

    ghost use Rattle.std.proofs.Common.{arith};

    ghost size_decreases = { λ a h. Prim.grind (arith) };
}

impl Cond {
    /// The condition with this outermost part. It fails only when memory runs out.
    pub fn new(alloc: Global, node: CondNode) -> Result<Cond, Memory>
        ensures is { IfOk result (λ c. c ≡ condition_of node) }
    {
        let node = Rc::new(alloc, node)?;
        Ok(Cond { node })
    }

    /// Its outermost part.
    pub fn node(&self) -> &CondNode
        ensures is { condition_of result.now ≡ self.now }
    {
        &self.node
    }
}

impl Clone for Cond {
    ghost is_clone = { λ c copy. copy ≡ c };

    fn clone(&self) -> Result<Cond, AllocError> {
        let node = self.node.clone()?;
        Ok(Cond { node })
    }
}

//! Expressions and sides, seen as plain trees (`expression_of`, `operand_of`).
ghost use Rattle.std.specs.Prelude.{◌≡◌, IfOk};
ghost use Rattle.imp_syntax.specs.Views.{expression_of};

use crate::Operator;
use base_values::{Memory, Number, Text};
use std::alloc::{AllocError, Global};
use std::marker::Model;
use std::rc::Rc;

/// An expression, seen as a plain tree. Copies share it.
#[cycle(expr)]
#[derive(Debug, Drop)]
pub struct Expr {
    node: Rc<ExprNode>,
}

/// The outermost part of an expression.
#[cycle(expr)]
#[derive(Debug, Drop)]
pub enum ExprNode {
    /// A number.
    Literal(Number),
    /// An int variable, or in an assignment a variable of any kind.
    Variable(Text),
    /// The length of an array variable.
    Length(Text),
    /// The expression with the other sign.
    Negative(Expr),
    /// An operator between two expressions.
    Binary(Operator, Expr, Expr),
}

/// A side of a comparison, or an argument of a call.
#[derive(Debug, Drop)]
pub enum Side {
    /// `null`
    Null,
    /// An expression.
    Expr(Expr),
}

impl Model for Expr {
    ghost use Rattle.imp_syntax.specs.Plain.{Expression, expression_size};
    ghost use Rattle.imp_syntax.specs.Code.{expression_code};

    ghost Value = { Expression };

    ghost coded = { expression_code };

    ghost use Rattle.imp_syntax.specs.Views.{expression_of};

    ghost view = { λ a. expression_of a.node.value };

    ghost size = { expression_size };

    ghost use Rattle.std.proofs.Common.{arith};

    ghost size_decreases = { λ a h. Prim.grind (arith) };
}

impl Expr {
    /// The expression with this outermost part. It fails only when memory runs out.
    pub fn new(alloc: Global, node: ExprNode) -> Result<Expr, Memory>
        ensures is { IfOk result (λ e. e ≡ expression_of node) }
    {
        let node = Rc::new(alloc, node)?;
        Ok(Expr { node })
    }

    /// Its outermost part.
    pub fn node(&self) -> &ExprNode
        ensures is { expression_of result.now ≡ self.now }
    {
        &self.node
    }
}

impl Clone for Expr {
    ghost is_clone = { λ e copy. copy ≡ e };

    fn clone(&self) -> Result<Expr, AllocError> {
        let node = self.node.clone()?;
        Ok(Expr { node })
    }
}

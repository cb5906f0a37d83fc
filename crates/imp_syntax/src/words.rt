//! Kinds, operators, relations and declarations.
ghost use Rattle.std.specs.Prelude.{◌≡◌};

use base_values::Text;
use std::alloc::AllocError;

/// The kind of a variable.
#[derive(Clone, Copy, Debug, PartialEq, Eq, Hash)]
pub enum VariableKind {
    /// A 64-bit signed integer.
    Int,
    /// An array of integers.
    Array,
    /// A link to a list cell, or null.
    List,
}

/// A parameter, a result or a local variable.
#[derive(Debug, Drop)]
pub struct Declaration {
    pub name: Text,
    pub kind: VariableKind,
}

impl Clone for Declaration {
    ghost is_clone = { λ d copy. copy ≡ d };

    fn clone(&self) -> Result<Declaration, AllocError> {
        let name = self.name.clone()?;
        Ok(Declaration {
            name,
            kind: self.kind,
        })
    }
}

/// An operator between two integers.
#[derive(Clone, Copy, Debug, PartialEq, Eq, Hash)]
pub enum Operator {
    /// `+`
    Add,
    /// `-`
    Subtract,
    /// `*`
    Multiply,
    /// `/`, rounded towards zero
    Divide,
    /// `%`, with the dividend's sign
    Remainder,
}

/// A relation between two sides.
#[derive(Clone, Copy, Debug, PartialEq, Eq, Hash)]
pub enum Relation {
    /// `==`
    Equal,
    /// `!=`
    NotEqual,
    /// `<`
    Less,
    /// `<=`
    AtMost,
    /// `>`
    Greater,
    /// `>=`
    AtLeast,
}

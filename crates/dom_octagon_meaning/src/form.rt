//! Linear forms of expressions.

/// The linear form of an expression: a constant, or a slot's value or its negative, and a constant.
#[derive(Clone, Copy, Debug, PartialEq, Eq)]
pub enum Form {
    /// The constant.
    Constant(i128),
    /// What the node of a matrix stands for, and the constant: node 2k stands for the value of slot
    /// k, node 2k + 1 for its negative.
    Node(usize, i128),
}

//! Prints programs: exactly the text of a tree, and the listing with its statements' numbers.
//!
//! [`program_text`] and [`stmt_text`] write two spaces per nesting, one statement or declaration per
//! line, and parentheses only where the tree needs them: around an operand that binds less than its
//! operator, on the right also one that binds as much; those of `!` always. An empty else is not
//! written. [`numbered_text`] puts seven columns and a space before each line: the number of the
//! statement that begins there, right in seven places, or blanks.
//!
//! The definitions are `specs/Expressions.antt`, `specs/Statements.antt` and `specs/Programs.antt`.
//! Printing takes time linear in the text. It writes into one buffer, and makes one small text for
//! each block.
#![tactic(auto)]

mod declarations;
mod expressions;
mod lines;
mod programs;
mod statements;

pub use programs::{numbered_text, program_text, stmt_text};

//! The syntax of programs: expressions, conditions, statements, blocks, procedures and programs as
//! trees, and the locations, places and edits that speak of them.
//!
//! Contracts see plain trees: `Expression`, `Condition`, `Statement`, `Statements`, `Procedure` of
//! `specs/Plain.antt`, and a program as the list of its procedures. How a tree is stored is private:
//! it is made by `new` from its outermost part, and read by `node`, `as_slice` and the like.
//! `expression_of`, `condition_of` and `statement_of` (`specs/Views.antt`, `specs/StmtViews.antt`) say
//! which plain tree has a given outermost part. A literal is 0 to 2^63 - 1 by its type.
//!
//! Trees are shared by reference counts. A copy takes constant time and is equal to its source; a change
//! (`with_inserted`, `with_condition`, `with_body` and the like, by the definitions of
//! `specs/Changes.antt`) copies a list of pointers at most and shares all else.
//! Of all calls only those that answer a `Result` allocate, and they fail only when memory runs out.
//!
//! # Recursion over trees
//!
//! A crate above goes over expressions and conditions by `match expr.node() { .. }`: such a function
//! is found to end with no proof file. Over blocks and statements two functions of one cycle call each other:
//!
//! ```text
//! #[cycle(counts)]
//! #[tactic(auto, using(imp_syntax::specs::Blocks::member_smaller, imp_syntax::specs::Blocks::block_rest))]
//! pub fn count(block: &Block) -> u64
//!     requires small { block_count block.now < 2 ^ 63 }
//!     ensures is { result ≡ block_count block.now }
//! {
//!     let mut total = 0;
//!     for stmt in block.as_slice() {
//!         total += count_in(stmt);
//!     }
//!     total
//! }
//!
//! #[cycle(counts)]
//! pub fn count_in(stmt: &Stmt) -> u64
//!     requires small { statement_count stmt.now < 2 ^ 63 }
//!     ensures is { result ≡ statement_count stmt.now }
//! {
//!     match stmt.node() {
//!         StmtNode::If(_, then, els) => count(then) + count(els) + 1,
//!         StmtNode::While(_, body) => count(body) + 1,
//!         _ => 1,
//!     }
//! }
//! ```
//!
//! The measures are `goal.size-count l` and `goal.size-count_in l`, and the loop's invariant says that
//! the list is the block's, and what is still to be done:
//!
//! ```text
//! invariant-count-loop-stmt l = record {
//!     is : block_of l.stmt-items ≡ l.block;
//!     told : l.total + block_count (block_of (drop l.stmt-index l.stmt-items)) ≡ block_count (block_of l.stmt-items);
//!     few : block_count (block_of l.stmt-items) < 2 ^ 63;
//!   }
//! ```
#![tactic(auto)]

mod action;
mod cond;
mod edit;
mod expr;
mod numbers;
mod program;
mod stmt;
mod words;

pub use action::{Action, Call};
pub use base_values::Number;
pub use cond::{Cond, CondNode};
pub use edit::{Chain, Edit, Location, Place};
pub use expr::{Expr, ExprNode, Side};
pub use numbers::{ProcId, StmtId};
pub use program::{Proc, Program};
pub use stmt::{Block, Stmt, StmtNode};
pub use words::{Declaration, Operator, Relation, VariableKind};

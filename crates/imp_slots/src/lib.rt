//! Checked programs: variables are slots of their procedure, callees are places in the program.
//!
//! `specs/Plain.antt` has them as plain data: a `Layout` lists a procedure's variables, a `Term` is
//! an expression, a `Guard` a condition, an `Effect` what a simple statement does, an `Act` that or
//! a break, an `Invoke` a call, `Code` a block, a `Routine` a procedure. Each type here is seen as
//! that data, or is mapped to it where it is an enum (`effect_of`, `act_of`, `argument_of`,
//! `returning_of`, `code_of`).
//!
//! Trees are read by one level: [`SlotExpr::node`], [`SlotCond::node`], [`SlotBlock::statements`].
//! `specs/Sizes.antt` has their sizes, by which recursion through these readers ends, and
//! `specs/BlockFalls.antt` that a statement is no larger than its block.
//!
//! Copies share: each takes constant time, except [`NumericSlot`], whose name is copied. Equality of
//! expressions, conditions, simple statements, layouts and calls decides identity, and takes time linear
//! in the smaller of the two; hashes respect it, and take time linear in what is hashed. Readers take
//! constant time.
#![tactic(auto)]

mod actions;
mod blocks;
mod calls;
mod conditions;
mod equal;
mod expressions;
mod hashes;
mod layouts;

pub use actions::{SlotAction, SlotStmt};
pub use blocks::{Routine, SlotBlock, SlotNode};
pub use calls::{Argument, Entering, Returning, SlotCall};
pub use conditions::{SlotCond, SlotCondNode};
pub use expressions::{SlotExpr, SlotExprNode};
pub use layouts::{Layout, NumericSlot};

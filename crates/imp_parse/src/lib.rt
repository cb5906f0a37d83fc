//! Reads programs: the whole language's grammar, its faults and its two budgets.
//!
//! [`parse_program`], [`parse_proc`], [`parse_stmts`], [`parse_simple`] and [`parse_cond`] each read a
//! text of one kind: the tree exactly where the grammar has it within the budgets, with statements
//! numbered in the order of the text, and else where the text goes wrong. `Unexpected(i)`: tokens 0 to
//! i - 1 begin some text of the grammar, tokens 0 to i begin none, or the text ends there too early.
//! `TooDeep(i)`: token i is the first `{` of a block at nesting 33, or the first 33rd operator of one
//! outermost expression or condition, and some text of the grammar begins with it and those before.
//! A lexical fault anywhere goes before both. A text has one answer ([`each_text_has_one_answer`]).
//!
//! The grammar is a relation on tokens, one case a production: `specs/Grammar.antt` (expressions and
//! conditions), `specs/Statements.antt` and `specs/Programs.antt`. `specs/Limits.antt` says what the
//! budgets count, `specs/Answer.antt` what a text is: its tree or its fault.
//!
//! Reading goes from left to right with one token ahead, over the tokens up to the first that is too
//! deep, which one scan finds; so it calls itself no deeper than the budgets. It takes time linear in
//! the text, and an allocation for each name and each node of the tree.
#![tactic(auto)]

mod assigned;
mod call;
mod condition;
mod error;
mod expression;
mod limits;
mod marks;
mod parse;
mod procedure;
mod scanned;
mod simple;
mod statement;

pub use error::ParseError;
pub use parse::{
    each_text_has_one_answer, parse_cond, parse_proc, parse_program, parse_simple, parse_stmts,
};

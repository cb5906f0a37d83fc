//! What following a block is lent, and what it comes to.

use batch_interp::CallFrame;
use cert_reading::Written;
use imp_slots::Routine;
use imp_syntax::{Chain, StmtId};
use std::alloc::Global;

/// What each step of following a block is lent: the domain, the program, the written states, and where the block stands.
#[derive(Drop)]
pub(crate) struct Follower<'a, D, S> {
    pub(crate) alloc: Global,
    pub(crate) dom: &'a D,
    pub(crate) routines: &'a [Routine],
    pub(crate) written: &'a Written<S>,
    pub(crate) frame: &'a CallFrame,
}

/// Why what is written of a loop does not do.
#[derive(Clone, Copy, Debug, Drop, PartialEq, Eq)]
pub(crate) enum Why {
    /// No state is written.
    Missing,
    /// The state before the loop is not found below the written one.
    Entry,
    /// What a round makes of the written state is not found below it.
    Step,
}

/// What following a block comes to.
#[derive(Drop)]
pub(crate) enum Followed<S> {
    /// The state after it.
    Behind(S),
    /// The first loop whose written state does not do.
    Fails {
        /// The loop.
        at: StmtId,
        /// The calls from main to its procedure, outermost first.
        chain: Chain,
        /// Why.
        why: Why,
    },
}

//! Tallies of replies.
ghost use Rattle.std.specs.Prelude.{◌≡◌, ◌+◌, ◌<◌, ◌^◌, ℕ, suc, IfOk};
ghost use Rattle.std.specs.String.{string_bytes};
ghost use Rattle.request_json.specs.declared.reply.Reply.{Reply};
ghost use Rattle.request_json.specs.Replies.{reply_text};
ghost use Rattle.gen_summary.specs.Summary.{tally_with, cost_in, counted, kind_of, nothing, summary_text, IsWithin};

use crate::kind::{ReplyKind, kind_of};
use base_values::Memory;
use std::alloc::Global;

/// How many replies there are of each kind, and how many cells the states cost whose cost was asked for straight after.
#[derive(Clone, Copy, Debug, PartialEq, Eq)]
pub struct ReplyTally {
    /// Edits that were made.
    pub edits: u64,
    /// Cells that states cost.
    pub filled: u128,
    /// Loops that used up their budget.
    pub over: u64,
    /// Requests that were refused.
    pub refused: u64,
    /// States.
    pub states: u64,
    /// Whether the last reply told a state or an over.
    pub is_answered: bool,
}

impl ReplyTally {
    /// Nothing was replied yet.
    pub fn new() -> ReplyTally
        ensures is { result ≡ nothing }
        ensures within { IsWithin 0 result }
    {
        ReplyTally {
            edits: 0,
            filled: 0,
            over: 0,
            refused: 0,
            states: 0,
            is_answered: false,
        }
    }

    /// Counts one more.
    fn count(&mut self, kind: ReplyKind, cost: u64)
        requires room { (n : ℕ) × (n < 2 ^ 62) × IsWithin n self.old }
        ensures is { self.new ≡ counted kind cost self.old }
        ensures within { (n : ℕ) → IsWithin n self.old → IsWithin (n + 1) self.new }
    {
        if kind == ReplyKind::Cost && self.is_answered {
            self.filled += cost as u128;
        }
        match kind {
            ReplyKind::Next => self.edits += 1,
            ReplyKind::State => self.states += 1,
            ReplyKind::Over => self.over += 1,
            ReplyKind::Refused => self.refused += 1,
            ReplyKind::Cost | ReplyKind::Other => {}
        }
        self.is_answered = matches!(kind, ReplyKind::State | ReplyKind::Over);
    }

    /// Adds the reply of this line; `cost` is what it tells where it tells a cost.
    pub fn add(&mut self, line: &[u8], cost: u64)
        requires room { (n : ℕ) × (n < 2 ^ 62) × IsWithin n self.old }
        ensures is { (reply : Reply) → line.now ≡ reply_text reply →
            (kind_of reply ≡ ReplyKind.Cost → cost_in reply ≡ cost) →
            self.new ≡ tally_with reply self.old }
        ensures within { (n : ℕ) → IsWithin n self.old → IsWithin (n + 1) self.new }
    {
        self.count(kind_of(line), cost);
    }

    /// The line of the summary.
    ///
    /// # Errors
    ///
    /// [`Memory`] alone.
    #[tactic(auto, unfolding(crate::specs::Summary::summary_text))]
    pub fn line(&self, alloc: Global) -> Result<String, Memory>
        ensures line { IfOk result (λ s. string_bytes s ≡ summary_text self.now) }
    {
        let ReplyTally {
            edits,
            filled,
            over,
            refused,
            states,
            ..
        } = *self;
        let line = format!(in alloc;
            "{{\"edits\":{edits},\"filled\":{filled},\"over\":{over},\"refused\":{refused},\"states\":{states}}}\n"
        )?;
        Ok(line)
    }
}

//! What answers line by line.
ghost use Rattle.std.specs.Prelude.{◌≡◌, ℕ, suc, Some, IfOk, OnOk};
ghost use Rattle.serve_script.specs.Answering.{GoesOn, IsReply};
ghost use Rattle.serve_script.specs.Replies.{LineMachine};

use base_counter::Steps;
use base_values::Memory;
use std::alloc::Global;
use std::sync::ledger::Ledger;

/// What answers line by line, as a machine that it stands for does.
///
/// It may hold more than a state of the machine, as results that it can use again, and several
/// states of its own may stand for one of the machine's. So its replies show the machine alone.
pub trait Answerer {
    /// The states of the machine.
    ghost State: { Type 0 };

    /// The machine's reply to a line, and its state after it.
    ghost machine: { LineMachine State };

    /// It stands for the machine in this state.
    ghost stands: { Self → State → Type 0 };

    /// It can answer so many lines more: what it counts by does not run out before.
    ghost lasts: { Self → ℕ → Type 0 };

    /// The reply to the line, which comes without its LF; `steps` is lent for what is counted.
    /// After an error it stands for no state that is known.
    fn answer<L: Ledger>(
        &mut self,
        alloc: Global,
        line: &[u8],
        steps: &mut Steps<L>,
    ) -> Result<Vec<u8>, Memory>
        requires lasts { (n : ℕ) × lasts self.old (suc n) }
        ensures reply { IfOk result (λ v.
            IsReply machine (stands self.old) (Some line.now) v.items) }
        ensures next { OnOk result (GoesOn machine stands (Some line.now) self.old self.new) }
        ensures lasts { OnOk result ((n : ℕ) → lasts self.old (suc n) → lasts self.new n) };

    /// The reply to a line that is too long. It leaves the machine in its state.
    fn answer_long(&self, alloc: Global) -> Result<Vec<u8>, Memory>
        ensures reply { IfOk result (λ v. v.items ≡ machine.long) };
}

//! What a domain answers: the trait that all interpreters are written over.
ghost use Rattle.std.specs.Prelude.{◌≡◌, ℕ, ◌+◌, ◌≤◌, IfOk, Bool, List};
ghost use Rattle.imp_slots.specs.ActionViews.{act_of};
ghost use Rattle.concrete_sem.specs.Values.{Heap, Variables};
ghost use Rattle.domain_laws.specs.Operations.{Operations};
ghost use Rattle.domain_laws.specs.Laws.{Laws, KeepsDead};

use crate::Verdict;
use base_counter::Steps;
use base_values::{Memory, Text};
use imp_slots::{Layout, SlotCall, SlotCond, SlotStmt};
use std::alloc::Global;
use std::hash::Hash;
use std::sync::ledger::Ledger;

/// A domain: its states, and the operations on them.
///
/// Each operation that is lent a counter ticks it [`ticks`](Domain::ticks) times, also where memory
/// runs out, and nothing else ticks it. Its value is a function of plain arguments (`operations`).
/// The laws say what the values mean: `covers` says which configurations a state describes.
/// The only error is out of memory.
pub trait Domain {
    /// The states. Equal ones are the same.
    type State: Eq + Hash + Drop;

    ghost operations: { Self → Operations Self.State };

    ghost covers: { Self → Self.State → Heap → List Variables → Type 0 };

    ghost counted: { Self → ℕ };

    /// The state before main's body, from main's layout.
    fn init<L: Ledger>(
        &self,
        alloc: Global,
        main: &Layout,
        steps: &mut Steps<L>,
    ) -> Result<Self::State, Memory>
        ensures value { IfOk result (λ t. t ≡ (operations self.now).init main.now) }
        ensures ticked { steps.new ≡ steps.old + counted self.now };

    /// The state after a simple statement but a call, from the one before it. A statement
    /// with a check first assumes it; nothing is described after a break.
    fn post<L: Ledger>(
        &self,
        alloc: Global,
        stmt: &SlotStmt,
        s: &Self::State,
        steps: &mut Steps<L>,
    ) -> Result<Self::State, Memory>
        ensures value { IfOk result (λ t. t ≡ (operations self.now).post (act_of stmt.now) s.now) }
        ensures ticked { steps.new ≡ steps.old + counted self.now };

    /// The state where the condition has this truth value.
    fn assume<L: Ledger>(
        &self,
        alloc: Global,
        c: &SlotCond,
        sense: bool,
        s: &Self::State,
        steps: &mut Steps<L>,
    ) -> Result<Self::State, Memory>
        ensures value { IfOk result (λ t. t ≡ (operations self.now).assume c.now sense s.now) }
        ensures ticked { steps.new ≡ steps.old + counted self.now };

    /// A state that describes what either describes.
    fn join<L: Ledger>(
        &self,
        alloc: Global,
        l: &Self::State,
        r: &Self::State,
        steps: &mut Steps<L>,
    ) -> Result<Self::State, Memory>
        ensures value { IfOk result (λ t. t ≡ (operations self.now).join l.now r.now) }
        ensures ticked { steps.new ≡ steps.old + counted self.now };

    /// The next iterate of a loop, from the one before and what the body makes of it. The thresholds
    /// are those of the loop's procedure, rising.
    fn widen<L: Ledger>(
        &self,
        alloc: Global,
        thresholds: &[i64],
        l: &Self::State,
        r: &Self::State,
        steps: &mut Steps<L>,
    ) -> Result<Self::State, Memory>
        ensures value { IfOk result (λ t. t ≡ (operations self.now).widen thresholds.now l.now
            r.now) }
        ensures ticked { steps.new ≡ steps.old + counted self.now };

    /// The state before a callee's body, from the one before the call.
    fn enter<L: Ledger>(
        &self,
        alloc: Global,
        call: &SlotCall,
        s: &Self::State,
        steps: &mut Steps<L>,
    ) -> Result<Self::State, Memory>
        ensures value { IfOk result (λ t. t ≡ (operations self.now).enter call.now.entering s.now) }
        ensures ticked { steps.new ≡ steps.old + counted self.now };

    /// The state after a call, from the one before it and the one after the callee's body.
    fn leave<L: Ledger>(
        &self,
        alloc: Global,
        call: &SlotCall,
        s: &Self::State,
        done: &Self::State,
        steps: &mut Steps<L>,
    ) -> Result<Self::State, Memory>
        ensures value { IfOk result (λ t. t ≡ (operations self.now).leave call.now.returning s.now
            done.now) }
        ensures ticked { steps.new ≡ steps.old + counted self.now };

    /// The last frame alone.
    fn shed<L: Ledger>(
        &self,
        alloc: Global,
        s: &Self::State,
        steps: &mut Steps<L>,
    ) -> Result<Self::State, Memory>
        ensures value { IfOk result (λ t. t ≡ (operations self.now).shed s.now) }
        ensures ticked { steps.new ≡ steps.old + counted self.now };

    /// How often each of these operations ticks: 1 to 1,000 times.
    fn ticks(&self) -> u32
        ensures count { result ≡ counted self.now }
        ensures some { 1 ≤ result }
        ensures few { result ≤ 1000 };

    /// Whether the state is a dead one: it describes nothing, and simple statements keep it.
    fn dead(&self, s: &Self::State) -> bool
        ensures exact { result ≡ (operations self.now).dead s.now };

    /// What the state before a statement says of its check.
    fn check(&self, alloc: Global, stmt: &SlotStmt, s: &Self::State) -> Result<Verdict, Memory>
        ensures value { IfOk result (λ v. v ≡ (operations self.now).check
            (act_of stmt.now) s.now) };

    /// The text of a state whose last frame has this layout.
    fn text(&self, alloc: Global, layout: &Layout, s: &Self::State) -> Result<Text, Memory>
        ensures value { IfOk result (λ t. t ≡ (operations self.now).text layout.now s.now) };

    /// The same state once more.
    fn copy(&self, alloc: Global, s: &Self::State) -> Result<Self::State, Memory>
        ensures same { IfOk result (λ t. t ≡ s.now) };

    ghost laws: { (d : Self) → Laws (operations d) (covers d) };

    ghost keeps_dead: { (d : Self) → KeepsDead (operations d) };

    ghost tests_equality: { (d : Self) (s t : Self.State) →
        (operations d).same s t ≡ Self.State.eq s t };
}

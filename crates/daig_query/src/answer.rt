//! Answers read from cells.
ghost use Rattle.std.specs.Prelude.{◌≡◌, ℕ, ◌+◌, ◌*◌, ◌≤◌, List, length, map, nat_lt, Some, false, IfOk, option_copied};
ghost use Rattle.imp_syntax.specs.declared.edit.Location.{Location};
ghost use Rattle.batch_meaning.specs.Values.{Value as PlainValue};
ghost use Rattle.batch_meaning.specs.Batch.{LoopOptions};
ghost use Rattle.batch_meaning.specs.Answers.{In, answer_in, procedure_of, summed};
ghost use Rattle.cell_rows.specs.Targets.{Target as PlainTarget, targets, value_of_target};
ghost use Rattle.imp_flow.specs.Plans.{Plan};
ghost use Rattle.daig_query.specs.Right.{found};
ghost use Rattle.daig_demands.specs.Stops.{state_of};
ghost use Rattle.daig_query.specs.Answered.{value_in, AreFilled, Covers, HoldValues, Says};

use crate::engine::Engine;
use crate::store::Store;
use crate::walk::Walk;
use base_values::Memory;
use batch_sound::answers_are_sound;
use call_contexts::joined;
use daig_graph::Value;
use domain_laws::{Domain, Steps};
use std::alloc::Global;
use std::sync::ledger::Ledger;

/// What cells hold, from left to right: the first Over, else the join of their states, each shed.
fn read_cells<D: Domain, L: Ledger>(
    alloc: Global,
    dom: &D,
    store: &Store<D::State>,
    cells: &[usize],
    steps: &mut Steps<L>,
) -> Result<Option<Value<D::State>>, Memory>
    requires there { (vs : List (PlainValue D.State)) × HoldValues store.now cells.now vs }
    ensures says { (engine : LoopOptions) (vs : List (PlainValue D.State)) →
        HoldValues store.now cells.now vs → IfOk result
        (Says (summed (D.operations dom.now) engine vs)) }
    ensures least { steps.old ≤ steps.new }
    ensures most { steps.new ≤ steps.old + D.counted dom.now * (2 * length cells.now) }
{
    let mut so_far: Option<D::State> = None;
    'cells: for cell in cells {
        match store.graph.value(*cell) {
            Some(Value::Over { head, chain }) => {
                let chain = chain.clone()?;
                return Ok(Some(Value::Over { head: *head, chain }));
            }
            Some(Value::State(held)) => {
                let state = store.states.get(held.state);
                so_far = Some(joined(alloc, dom, so_far, state, steps)?);
            }
            None => unreachable!(),
        }
    }
    match so_far {
        None => Ok(None),
        Some(state) => Ok(Some(Value::State(state))),
    }
}

impl<D: Domain> Engine<D> {
    /// The state that a cell holds; `None` where it holds an Over.
    pub fn state(&self, cell: usize) -> Option<&D::State>
        requires there { (v : PlainValue D.State) × (value_in self.now.store cell ≡ Some v) }
        ensures is { (v : PlainValue D.State) → value_in self.now.store cell ≡ Some v →
            option_copied result ≡ state_of v }
    {
        match self.store.graph.value(cell) {
            Some(Value::State(held)) => Some(self.store.states.get(held.state)),
            _ => None,
        }
    }

    /// The answer of targets for which nothing is missing: the first Over in their order, else the join of their states
    /// from left to right, each shed. There is `None` where there are no targets. For the targets of a location under a
    /// call string it is the answer of batch interpretation, and a state covers every run there.
    ///
    /// It ticks at most twice an operation of the domain for each target.
    ///
    /// # Errors
    ///
    /// [`Memory`] alone.
    pub fn read<L: Ledger>(
        &self,
        alloc: Global,
        walk: &Walk,
        steps: &mut Steps<L>,
    ) -> Result<Option<Value<D::State>>, Memory>
        requires filled { (plan : Plan) × (ts : List PlainTarget) ×
            AreFilled (D.operations self.now.domain) self.now.store walk.now plan ts }
        ensures read { (plan : Plan) (ts : List PlainTarget) →
            AreFilled (D.operations self.now.domain) self.now.store walk.now plan ts →
            IfOk result (Says (summed (D.operations self.now.domain) plan.engine
            (map (value_of_target (found (D.operations self.now.domain) plan)) ts))) }
        ensures batch { (plan : Plan) (ts : List PlainTarget) (at : Location) (string : List ℕ)
            (p : ℕ) → AreFilled (D.operations self.now.domain) self.now.store walk.now plan ts →
            targets plan.program p at string ≡ Some ts →
            IfOk result (Says (answer_in (D.operations self.now.domain) plan.engine plan.program at
            string (In p))) }
        ensures sound { (plan : Plan) (ts : List PlainTarget) (at : Location) (string : List ℕ)
            (p : ℕ) → AreFilled (D.operations self.now.domain) self.now.store walk.now plan ts →
            nat_lt 2 (length string) ≡ false → procedure_of plan.program at ≡ In p →
            targets plan.program p at string ≡ Some ts →
            IfOk result (Covers (D.covers self.now.domain) plan.program at string) }
        ensures least { steps.old ≤ steps.new }
        ensures ticked { (plan : Plan) (ts : List PlainTarget) →
            AreFilled (D.operations self.now.domain) self.now.store walk.now plan ts →
            steps.new ≤ steps.old + D.counted self.now.domain * (2 * length ts) }
    {
        answers_are_sound::<D>();
        read_cells(
            alloc,
            &self.domain,
            &self.store,
            walk.found.as_slice(),
            steps,
        )
    }
}

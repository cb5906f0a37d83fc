//! What procedures gave, from the states before their bodies: a table of bounded size.
ghost use Rattle.std.specs.Prelude.{◌≡◌, ◌<◌, length, IfOk, IfSome, OnOk};
ghost use Rattle.domain_laws.specs.Operations.{Operations};
ghost use Rattle.batch_meaning.specs.Values as plain;
ghost use Rattle.batch_interp.specs.Answered.{value_of};
ghost use Rattle.batch_interp.specs.Frames.{Plan, procedure_end};
ghost use Rattle.batch_interp.specs.Remembering.{Gives, IsRight, AreRight, StaysRight};
ghost use Rattle.batch_interp.specs.Here.{here, AreRightHere, GivesHere};

use crate::Answer;
use crate::frames::Interpreter;
use base_hash::NumberHasher;
use base_values::Memory;
use domain_laws::Domain;
use std::alloc::Global;
use std::hash::{Hash, Hasher};

/// How many results a table has at most.
const MOST: u64 = 1024;

/// What a procedure gave.
#[derive(Drop)]
pub(crate) struct Outcome<S> {
    /// How many procedures stand before it.
    place: usize,
    /// The state before its body.
    entered: S,
    /// The state after its body.
    end: S,
}

/// What procedures gave. A result stands at an index that comes of the procedure and the state before its
/// body; a later one at the same index takes its place.
#[derive(Drop)]
pub(crate) struct Remembered<S> {
    outcomes: Vec<Option<Outcome<S>>>,
}

impl<S: Drop> Remembered<S> {
    /// Nothing so far.
    pub(crate) fn new(alloc: Global) -> Remembered<S>
        ensures right { (dom : Operations S) (plan : Plan) → AreRight dom plan result }
    {
        Remembered {
            outcomes: Vec::new(alloc),
        }
    }

    /// Makes the table so long that it has an index.
    fn reach(&mut self, index: usize) -> Result<(), Memory>
        ensures long { OnOk result (index < length self.new.outcomes.items) }
        ensures right { StaysRight self.old self.new }
    {
        while self.outcomes.len() <= index {
            self.outcomes.push(None)?;
        }
        Ok(())
    }

    /// Puts what a procedure gave at an index, in place of what stands there.
    fn put(&mut self, index: usize, outcome: Outcome<S>) -> Result<(), Memory>
        ensures right { (dom : Operations S) (plan : Plan) → AreRight dom plan self.old →
            IsRight dom plan (Some outcome) → AreRight dom plan self.new }
    {
        self.reach(index)?;
        self.outcomes[index] = Some(outcome);
        Ok(())
    }
}

/// Where what a procedure gives from a state stands.
fn index_of<S: Hash>(place: usize, entered: &S) -> usize {
    let mut hasher = NumberHasher::default();
    hasher.write_usize(place);
    entered.hash(&mut hasher);
    (hasher.finish() % MOST) as usize
}

/// What a procedure gave, if it is the procedure of a frame, and from the same state.
fn end_if_same<D: Domain>(
    interpreter: &Interpreter<D>,
    outcome: &Outcome<D::State>,
    entered: &D::State,
) -> Result<Option<D::State>, Memory>
    requires right { Gives (D.operations interpreter.now.dom.now) interpreter.now.plan.now
        outcome.now.place outcome.now.entered outcome.now.end }
    ensures gives { IfOk result
        (λ o. IfSome o (GivesHere D.operations interpreter.now entered.now)) }
{
    if outcome.place == interpreter.frame.place && outcome.entered == *entered {
        let end = interpreter.dom.copy(interpreter.alloc, &outcome.end)?;
        Ok(Some(end))
    } else {
        Ok(None)
    }
}

/// The same of what stands at an index.
fn end_in<D: Domain>(
    interpreter: &Interpreter<D>,
    outcome: &Option<Outcome<D::State>>,
    entered: &D::State,
) -> Result<Option<D::State>, Memory>
    requires right { IsRight (D.operations interpreter.now.dom.now) interpreter.now.plan.now
        outcome.now }
    ensures gives { IfOk result
        (λ o. IfSome o (GivesHere D.operations interpreter.now entered.now)) }
{
    match outcome {
        Some(outcome) => end_if_same(interpreter, outcome, entered),
        None => Ok(None),
    }
}

/// What the procedure of a frame gave from the same state, if that is remembered.
pub(crate) fn recalled<D: Domain>(
    interpreter: &Interpreter<D>,
    remembered: &Remembered<D::State>,
    entered: &D::State,
) -> Result<Option<D::State>, Memory>
    requires right { AreRightHere D.operations interpreter.now remembered.now }
    ensures gives { IfOk result
        (λ o. IfSome o (GivesHere D.operations interpreter.now entered.now)) }
{
    let index = index_of(interpreter.frame.place, entered);
    if index < remembered.outcomes.len() {
        end_in(interpreter, &remembered.outcomes[index], entered)
    } else {
        Ok(None)
    }
}

/// Remembers that the procedure of a frame gave a state. It gives that under any call sites.
fn remember<D: Domain>(
    interpreter: &Interpreter<D>,
    entered: D::State,
    end: &D::State,
    remembered: &mut Remembered<D::State>,
) -> Result<(), Memory>
    requires right { AreRightHere D.operations interpreter.now remembered.old }
    requires gave { here D.operations interpreter.now procedure_end (plain.State entered) ≡
        plain.State end.now }
    ensures right { AreRightHere D.operations interpreter.now remembered.new }
{
    let place = interpreter.frame.place;
    let index = index_of(place, &entered);
    let end = interpreter.dom.copy(interpreter.alloc, end)?;
    let outcome = Outcome {
        place,
        entered,
        end,
    };
    remembered.put(index, outcome)
}

/// Notes what the procedure of a frame gave, if it is a state, and if there is memory for it: an Over names
/// its chain.
pub(crate) fn note<D: Domain>(
    interpreter: &Interpreter<D>,
    entered: D::State,
    answer: &Answer<D::State>,
    remembered: &mut Remembered<D::State>,
)
    requires right { AreRightHere D.operations interpreter.now remembered.old }
    requires gave { here D.operations interpreter.now procedure_end (plain.State entered) ≡
        value_of answer.now }
    ensures right { AreRightHere D.operations interpreter.now remembered.new }
{
    match answer {
        Answer::State(end) => {
            let _ = remember(interpreter, entered, end, remembered);
        }
        Answer::Over { head: _, chain: _ } => {}
    }
}

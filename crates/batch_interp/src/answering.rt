//! The answer to a question, for `answered`, `refused` and `sound` of `answer`.
ghost use Rattle.std.specs.Prelude.{◌≡◌, ◌<◌, length, IfOk, IfErr};
ghost use Rattle.imp_check.specs.Slots.{routines_of};
ghost use Rattle.batch_meaning.specs.Answers.{answer, answer_in, procedure_of, In, Answers};
ghost use Rattle.call_contexts.specs.Settings.{setting_of};
ghost use Rattle.batch_interp.specs.Answered.{value_of, IsPlace, IsAnswer, IsRefused, Describes};

use crate::frames::Plan;
use crate::sums::sum_of;
use crate::{Answer, QueryError};
use batch_meaning::QueryRefusal;
use batch_sound::answers_are_sound;
use call_chains::chains;
use call_contexts::{Setting, place_of};
use domain_laws::{Domain, Steps};
use imp_syntax::{Location, ProcId};
use imp_table::Checked;
use std::alloc::Global;
use std::sync::ledger::Ledger;

/// The procedure of a location.
fn procedure_of(prog: &Checked, at: &Location) -> Result<ProcId, QueryError>
    ensures is { IsPlace (procedure_of (routines_of prog.now) at.now) result }
{
    match place_of(&prog.view(), at) {
        Ok(place) => Ok(place),
        Err(why) => Err(QueryError::Refused(why)),
    }
}

/// What a domain knows at a location of a program under a call string, which has the outermost call
/// first: the states of the chains to the location's procedure that end in the string, each its last
/// frame alone, joined in the order of the chains; or the first loop on the way that takes more than
/// the rounds of the program's setting.
///
/// A state that is answered describes each configuration that a run reaches there, with call sites
/// of which the string is a suffix, under any inputs.
///
/// Each chain is followed once from main, and of each loop that is met at most so many rounds are
/// taken. Nothing is kept for the next call.
///
/// # Errors
///
/// [`QueryError::Refused`], for the first of these causes: [`QueryRefusal::LongString`] where the string has
/// more than two calls, [`QueryRefusal::NoProcedure`] and [`QueryRefusal::NoStatement`] where the program has no
/// such location, [`QueryRefusal::WrongStatement`] where the head of a statement is asked for that is no
/// loop, [`QueryRefusal::NoChain`] where no chain ends in the string. [`QueryError::Memory`] for want of
/// memory.
pub fn answer<D: Domain, L: Ledger>(
    alloc: Global,
    dom: &D,
    prog: &Checked,
    setting: &Setting,
    at: &Location,
    string: &[u32],
    steps: &mut Steps<L>,
) -> Result<Answer<D::State>, QueryError>
    requires setting { setting.now ≡ setting_of setting.now.engine (routines_of prog.now) }
    ensures answered { IfOk result (λ a. answer (D.operations dom.now) setting.now.engine
        (routines_of prog.now) at.now string.now ≡ Answers (value_of a)) }
    ensures refused { IfErr result (IsRefused (answer (D.operations dom.now) setting.now.engine
        (routines_of prog.now) at.now string.now)) }
    ensures sound { IfOk result (Describes (D.covers dom.now)
        (routines_of prog.now) at.now string.now) }
{
    let answer = answer_exactly(alloc, dom, prog, setting, at, string, steps);
    answers_are_sound::<D>();
    prog.routines();
    answer
}

/// The answer at a location of the procedure at a place.
#[tactic(auto, using(base_values::proofs::Lists::all_back))]
fn answer_at<D: Domain, L: Ledger>(
    alloc: Global,
    dom: &D,
    plan: &Plan,
    at: &Location,
    place: ProcId,
    string: &[u32],
    steps: &mut Steps<L>,
) -> Result<Answer<D::State>, QueryError>
    requires some { 0 < length plan.now.program }
    ensures is { IsAnswer (answer_in (D.operations dom.now) plan.now.engine plan.now.program at.now
        string.now (In place)) result }
{
    let chains = chains(alloc, &plan.view(), place, string)?;
    sum_of(alloc, dom, plan, at, chains.as_slice(), steps)
}

/// The answer, as one fact.
fn answer_exactly<D: Domain, L: Ledger>(
    alloc: Global,
    dom: &D,
    prog: &Checked,
    setting: &Setting,
    at: &Location,
    string: &[u32],
    steps: &mut Steps<L>,
) -> Result<Answer<D::State>, QueryError>
    requires setting { setting.now ≡ setting_of setting.now.engine (routines_of prog.now) }
    ensures is { IsAnswer (answer (D.operations dom.now) setting.now.engine
        (routines_of prog.now) at.now string.now) result }
{
    if string.len() > 2 {
        return Err(QueryError::Refused(QueryRefusal::LongString));
    }
    match procedure_of(prog, at) {
        Err(error) => Err(error),
        Ok(place) => {
            prog.routines();
            let plan = Plan::new(prog, setting);
            answer_at(alloc, dom, &plan, at, place, string, steps)
        }
    }
}

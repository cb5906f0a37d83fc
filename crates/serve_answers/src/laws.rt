//! What holds of the turns of lines.
ghost use Rattle.serve_answers.specs.Claims.{RefusalsAreSafe};
ghost use Rattle.serve_answers.specs.Fine.{LinesKeepFine, SourcesAreFine};
ghost use Rattle.serve_answers.specs.Histories.{HistoriesDoNotMatter, RedoRestores, UndoRestores};
ghost use Rattle.serve_answers.specs.Overs.{OversAreAnswers};
ghost use Rattle.serve_answers.specs.Sound.{MomentsAreSound, TurnsAreSound};

use batch_sound::{answers_are_sound, reports_are_sound};
use domain_laws::Domain;
use fault_verdicts::faults_are_sound;
use why_slice::answers_stay;

/// A line that is refused leaves the machine as it is, except a step of a ticket whose location is gone: that closes the
/// ticket.
pub fn refusals_change_nothing<D: Domain>()
    ensures same { (d : D) → RefusalsAreSafe (D.operations d) }
{}

/// The present program of a machine, those before it and those after it never have a fault: the program of a source that is
/// accepted has none, and each line leaves it so.
pub fn machines_stay_fine<D: Domain>()
    ensures source { SourcesAreFine }
    ensures line { (d : D) → LinesKeepFine (D.operations d) }
{}

/// A reply that is a state, to a question or to a step of a ticket, describes each configuration that a run of the present
/// program reaches there. A reply that is a report calls no check safe that a run fails, and no statement dead that a run
/// comes to. A report of faults tells each fault with which a run ends, and each of its verdicts is so in all runs. A reply
/// that is a list of statements has all that the answer depends on: another simple statement in the place of one that is not
/// listed leaves the answer as it is, where the thresholds of all procedures stay. So it is after any lines of any script.
pub fn replies_are_sound<D: Domain>()
    ensures turn { (d : D) → TurnsAreSound (D.operations d) (D.covers d) }
    ensures moment { (d : D) → MomentsAreSound (D.operations d) (D.covers d) }
{
    answers_are_sound::<D>();
    reports_are_sound::<D>();
    faults_are_sound::<D>();
    answers_stay::<D>();
}

/// Machines that hold the same program, with the same numbers, give the same answers and write the same replies to what
/// asks for the program alone, whatever was asked and edited before. An undo restores all of these as they were before the
/// last accepted edit, whatever questions, reports, runs and steps stand in between; a redo likewise as after it.
pub fn histories_do_not_matter<D: Domain>()
    ensures alike { (d : D) → HistoriesDoNotMatter (D.operations d) }
    ensures undo { (d : D) → UndoRestores (D.operations d) }
    ensures redo { (d : D) → RedoRestores (D.operations d) }
{}

/// A reply is an over only where the answer of the present program, interpreted from scratch, is one.
pub fn overs_are_answers<D: Domain>()
    ensures over { (d : D) → OversAreAnswers (D.operations d) }
{}

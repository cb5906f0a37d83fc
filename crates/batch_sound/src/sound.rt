//! The theorems, each the contract of a function that does nothing.

ghost use Rattle.batch_sound.specs.Theorem.{AreAnswersSound, AreReportsSound};

use concrete_sem::{steps_are_determined, steps_keep_data};
use domain_laws::Domain;
use imp_chains::{places_are_found, thresholds_rise};

/// Where the answer of a checked program at a location under a call string is a state, the state
/// describes each configuration of a run that stands there, with call sites of which the string is a
/// suffix: its last frame alone, under any inputs.
pub fn answers_are_sound<D: Domain>()
    ensures sound { (d : D) → AreAnswersSound (D.operations d) (D.covers d) }
{
    steps_keep_data();
    thresholds_rise();
    places_are_found();
}

/// Where the report of a checked program says safe of a statement, no run under any inputs ends with
/// the fault of its check there; where it says dead, no run comes to the statement.
pub fn reports_are_sound<D: Domain>()
    ensures sound { (d : D) → AreReportsSound (D.operations d) }
{
    steps_are_determined();
    steps_keep_data();
    thresholds_rise();
    places_are_found();
}

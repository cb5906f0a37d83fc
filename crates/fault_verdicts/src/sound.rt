//! The theorem on reports of faults, the contract of a function that does nothing.
ghost use Rattle.fault_verdicts.specs.Theorem.{AreFaultsSound};

use concrete_sem::{steps_are_determined, steps_keep_data};
use domain_laws::Domain;
use fault_points::points_are_exact;
use imp_chains::{places_are_found, thresholds_rise};

/// A theorem, and no work: what a report of faults says of runs, for every domain.
pub fn faults_are_sound<D: Domain>()
    ensures sound { (d : D) → AreFaultsSound (D.operations d) }
{
    steps_are_determined();
    steps_keep_data();
    thresholds_rise();
    places_are_found();
    points_are_exact();
}

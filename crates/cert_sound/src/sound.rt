//! The theorem, the contract of a function that does nothing.
ghost use Rattle.std.specs.Prelude.{Bool};
ghost use Rattle.cert_meaning.specs.Portable.{IsSoundOrder};
ghost use Rattle.cert_sound.specs.Theorem.{AreCertificatesSound};

use concrete_sem::steps_keep_data;
use domain_laws::Domain;
use imp_chains::{places_are_found, thresholds_rise};

/// Where following a checked program with written states in place of the heads of its loops finds nothing,
/// whoever wrote them, each configuration of a run that stands at the test of a loop is described, with all
/// its frames, by the state that is written of the loop under the configuration's call sites. The states are
/// to be of the frames that stand there, and the order by which they are compared is to be sound.
pub fn certificates_are_sound<D: Domain>()
    ensures sound { (d : D) (leq : D.State → D.State → Bool) →
        IsSoundOrder (D.operations d) (D.covers d) leq →
        AreCertificatesSound (D.operations d) (D.covers d) leq }
{
    steps_keep_data();
    thresholds_rise();
    places_are_found();
}

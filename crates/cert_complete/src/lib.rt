//! That the certificates of batch interpretation hold, for every domain with upper bounds, from its laws.
//!
//! [`certificates_hold`] does nothing when it runs, and carries the theorem as its clause. The proof goes
//! through batch interpretation and following side by side: each block gives the same states in both, since
//! the head of a loop is what is written of it, is above the state before the loop, and above what a
//! round makes of it.
#![tactic(auto)]

ghost use Rattle.std.specs.Prelude.{Bool};
ghost use Rattle.cert_meaning.specs.Portable.{HasUpperBounds};
ghost use Rattle.cert_complete.specs.Theorem.{CertificatesHold, HeadsAreOfFrames};

use domain_laws::Domain;
use imp_chains::{chains_go_through_callers, places_are_found, thresholds_rise};

/// Where no loop of a checked program used up its budget, following the program with the states that batch
/// interpretation has at the heads of its loops finds nothing, whatever else is written. Joins and widenings are
/// to be above both sides, by the order by which states are compared.
pub fn certificates_hold<D: Domain>()
    ensures hold { (d : D) (leq : D.State → D.State → Bool) → HasUpperBounds (D.operations d) leq →
        CertificatesHold (D.operations d) leq }
{
    thresholds_rise();
    places_are_found();
    chains_go_through_callers();
}

/// What batch interpretation has at the head of a loop under call sites is a state of the frames of all their
/// procedures.
pub fn heads_are_of_frames<D: Domain>()
    ensures frames { (d : D) → HeadsAreOfFrames (D.operations d) }
{
    thresholds_rise();
    places_are_found();
}

//! The test decides what is kept.
ghost use Rattle.cell_kept_set.specs.KeptTestClaims.{KeptIsDecided};

use domain_laws::Domain;

/// Over an edit of a checked program, of cells that are closed under inputs: the test holds exactly of the kept names.
pub fn kept_is_decided<D: Domain>()
    ensures decided { (d : D) → KeptIsDecided (D.operations d) }
{}

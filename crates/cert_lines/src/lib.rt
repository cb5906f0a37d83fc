//! The lines of certificates: what is written of a program, what checking comes to, and what a yes says.
//!
//! `specs/Certificate.antt` has the lines that are written, `specs/Lines.antt` how lines are read and which
//! one is bad, `specs/Verify.antt` the answer. [`a_yes_is_sound`] does nothing when it runs, and carries the
//! theorem that a yes covers every run, whoever wrote the lines.
#![tactic(auto)]

ghost use Rattle.cert_meaning.specs.Portable.{Portable, PortableLaws};
ghost use Rattle.cert_lines.specs.Theorem.{IsYesSound};

use cert_sound::certificates_are_sound;
use domain_laws::Domain;

/// Where checking a certificate of a checked program answers yes, each configuration of a run that stands at
/// the test of a loop is described, with all its frames, by the state of a line of that loop under the
/// configuration's call sites.
pub fn a_yes_is_sound<D: Domain>()
    ensures sound { (d : D) (port : Portable D.State) → PortableLaws (D.operations d)
        (D.covers d) port → IsYesSound (D.operations d) (D.covers d) port }
{
    certificates_are_sound::<D>();
}

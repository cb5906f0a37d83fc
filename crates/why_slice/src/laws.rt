//! The theorems, each the contract of a function that does nothing.
ghost use Rattle.why_slice.specs.Claims.{AnswersStay, UpstreamIsTold, UpstreamRises, UpstreamSuffices};

use cell_rows::rows_give_values;
use domain_laws::Domain;
use imp_chains::thresholds_rise;

/// Where an accepted edit replaces a simple statement by another one, neither of them a call or a break, each answer that
/// does not depend on the statement stays, an Over too, if the thresholds of all procedures stay. So it is where the statement is
/// not in the list of those that the answer depends on.
pub fn answers_stay<D: Domain>()
    ensures stay { (d : D) → AnswersStay (D.operations d) }
    ensures listed { (d : D) → UpstreamSuffices (D.operations d) }
{
    thresholds_rise();
    rows_give_values::<D>();
}

/// The list of the statements that an answer depends on has exactly these, rising, each once.
pub fn upstream_is_told<D: Domain>()
    ensures told { (d : D) → UpstreamIsTold (D.operations d) }
    ensures rises { (d : D) → UpstreamRises (D.operations d) }
{}

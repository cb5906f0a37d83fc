//! The theorems, each the contract of a function that does nothing.
ghost use Rattle.reuse_laws.specs.Rest.{MissesRest};
ghost use Rattle.reuse_laws.specs.Shorter.{MomentsShorten, MoreIsShorter};

use domain_laws::Domain;

/// What is missing over more kept names is the rest of what was missing: no more names, in the same order.
pub fn kept_names_help<T>()
    ensures rest { MissesRest T }
{}

/// A machine that keeps more fills no more for a question and for a report. So after any lines of any script a question, a
/// report or a step fills no more where other questions, reports and steps came in between.
pub fn questions_get_no_longer<D: Domain>()
    ensures machines { (d : D) → MoreIsShorter (D.operations d) }
    ensures moments { (d : D) → MomentsShorten (D.operations d) }
{}

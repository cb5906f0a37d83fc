//! What a domain of states is: its operations, and the laws that tie them to the meaning of programs.
//!
//! [`Domain`] is the trait. Its ghost member `operations` (`specs/Operations.antt`) has the
//! operations as functions of plain data, and each method's value is the function of its plain
//! arguments; `covers` says which heaps and variables a state describes. The laws
//! (`specs/Laws.antt`) say that what is described before a step is described after it, that
//! states that fit the layouts of frames stay so, and what the verdicts on checks promise.
//!
//! `specs/Checks.antt` gives the check of a statement and the negation of a condition, and
//! `specs/Guards.antt` how a domain assumes a condition from what it does with comparisons. A
//! domain whose comparisons and joins are right assumes conditions rightly, and its verdicts are
//! right (`proofs/GuardLaws.antt`).
//!
//! A trait has no cost of its own: each domain says what its operations cost.
#![tactic(auto)]

ghost use Rattle.domain_laws.specs.Claims.{PassesFindChecksTrue, FailuresFindChecksFalse, NegationIsExact};

mod checks;
mod domain;

pub use base_counter::Steps;
pub use checks::{check_of, check_of_action};
pub use domain::Domain;
pub use imp_words::{Check, Finding, Findings, Verdict};

/// A theorem, and no work: the check of a statement holds where the statement goes on, and not
/// where the statement fails with the fault of its check.
pub fn checks_are_exact()
    ensures passed { PassesFindChecksTrue }
    ensures failed { FailuresFindChecksFalse }
{}

/// A theorem, and no work: pushing a negation inwards keeps what a condition says.
pub fn negation_is_exact()
    ensures exact { NegationIsExact }
{}

//! What octagons mean: their operations as functions of plain data, and the laws of a domain.
//!
//! A state is nothing, or a matrix of bounds on the values of the last frame's numeric slots, on
//! their sums and their differences. `specs/Forms.antt` gives the linear form of an expression,
//! `specs/Ranges.antt` its range, `specs/Matrices.antt` what an operation makes of a matrix,
//! `specs/Operations.antt` the operations, each closing what it is given and what it gives,
//! `specs/Text.antt` texts, and `specs/Covers.antt` which configurations a state describes: those
//! of whose last frame every bound holds. The domain is that of A. Miné, "The Octagon Abstract
//! Domain", 2006, over 64-bit integers and the lengths of arrays.
//!
//! A program has at most 16 numeric slots a procedure. Of a layout with more the definitions describe
//! the first 16 alone, so every operation is defined and right for every layout.
#![tactic(auto)]

ghost use Rattle.domain_laws.specs.Laws.{KeepsDead, Laws};
ghost use Rattle.dom_octagon_meaning.specs.Claims.{FormsAreSmall};
ghost use Rattle.dom_octagon_meaning.specs.Convergence.{WideningEnds};
ghost use Rattle.dom_octagon_meaning.specs.Covers.{covers};
ghost use Rattle.dom_octagon_meaning.specs.Domain.{octagons};

mod form;
mod source;

pub use form::Form;
pub use source::ArgumentSource;

/// A theorem, and no work: octagons keep the laws of a domain.
pub fn octagons_are_a_domain()
    ensures laws { Laws octagons covers }
    ensures keeps_dead { KeepsDead octagons }
{}

/// A theorem, and no work: a state of v slots changes at most 4v²(m + 1) times under widening with m
/// thresholds, whatever it is widened with, since widening never closes its left matrix.
pub fn widening_ends()
    ensures ends { WideningEnds }
{}

/// A theorem, and no work: the linear form of an expression that has a range has a constant from
/// -2^64 to 2^64, however deep the expression is. So every matrix that is closed has small bounds.
pub fn forms_are_small()
    ensures small { FormsAreSmall }
{}

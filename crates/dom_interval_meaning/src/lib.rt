//! What the domain of intervals is: its states, its operations, and their laws.
//!
//! A state is `Empty`, which describes nothing, or a range for each numeric slot of the last frame
//! ([`SlotRange`]). `specs/Ranges.antt` gives the range of an expression, `specs/Operations.antt`
//! the operations, `specs/Widening.antt` widening to thresholds, `specs/Text.antt` texts, and
//! `specs/Covers.antt` which configurations a state describes: those of whose last frame each
//! numeric slot lies in its range. `specs/Domain.antt` puts the operations together, and
//! `specs/Convergence.antt` counts how often a state can still change under widening.
//!
//! The functions do nothing when they run: each carries laws as its clauses. Code that computes
//! these operations is held to them elsewhere.
#![tactic(auto)]

ghost use Rattle.domain_laws.specs.Laws.{Laws, KeepsDead};
ghost use Rattle.dom_interval_meaning.specs.Covers.{covers};
ghost use Rattle.dom_interval_meaning.specs.Domain.{intervals};
ghost use Rattle.dom_interval_meaning.specs.Convergence.{WideningEnds};

mod slot_range;

pub use slot_range::SlotRange;

/// The operations are those of a domain: what is described before a step is described after
/// it, states that fit stay so, verdicts are right, and simple statements change no dead state.
pub fn intervals_are_a_domain()
    ensures laws { Laws intervals covers }
    ensures keeps_dead { KeepsDead intervals }
{}

/// A state of v slots changes at most 2v(m + 1) times under widening with m thresholds, whatever it is
/// widened with.
pub fn widening_ends()
    ensures ends { WideningEnds }
{}

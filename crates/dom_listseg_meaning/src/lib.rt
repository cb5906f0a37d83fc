//! What the domain of list segments is: its states, its operations, and their laws (after Distefano, O'Hearn and Yang,
//! "A Local Shape Analysis Based on Separation Logic", TACAS 2006).
//!
//! A state is `Top`, of which nothing is known, or a set of folded graphs in their canonical order, at most 64
//! (`specs/State.antt`, `specs/Sets.antt`); the empty set describes nothing. `specs/Operations.antt` gives the
//! operations, `specs/Text.antt` texts, and `specs/Covers.antt` which configurations a state describes: those whose
//! links one of its graphs covers, with the frames turned round, since graphs have main's frame first.
//! `specs/Domain.antt` puts the operations together, and `specs/Convergence.antt` counts how often a state can still
//! change under joins.
//!
//! The functions do nothing when they run: each carries laws as its clauses. Code that computes these operations is
//! held to them elsewhere.
#![tactic(auto)]

ghost use Rattle.domain_laws.specs.Laws.{Laws, KeepsDead};
ghost use Rattle.dom_listseg_meaning.specs.Covers.{covers};
ghost use Rattle.dom_listseg_meaning.specs.Domain.{segments};
ghost use Rattle.dom_listseg_meaning.specs.Convergence.{JoiningEnds, WideningEnds};

/// The operations are those of a domain: what is described before a step is described after it, states that fit
/// stay so, verdicts are right, and simple statements change no dead state.
pub fn segments_are_a_domain()
    ensures laws { Laws segments covers }
    ensures keeps_dead { KeepsDead segments }
{}

/// A state changes at most 65 times under joins and widenings, whatever it is joined with.
pub fn joining_ends()
    ensures joins { JoiningEnds }
    ensures widens { WideningEnds }
{}

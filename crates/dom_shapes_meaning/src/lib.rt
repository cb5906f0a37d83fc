//! What the domain of shapes is: list segments with one graph a shape.
//!
//! States, texts, and which configurations a state describes are those of `dom_listseg_meaning`. A shape is what is left
//! of a graph where kinds are not seen (`specs/Sets.antt`); two graphs of one shape become one, in which a node is `seg`
//! where it is in either. What either covers, that one covers. The operations (`specs/Operations.antt`) are those of list
//! segments, and then one graph a shape is kept; a state that fits has no two of one shape (`specs/Covers.antt`).
//! `specs/Convergence.antt` counts how often a state can still change under joins.
//!
//! The functions do nothing when they run: each carries laws as its clauses. Code that computes these operations is
//! held to them elsewhere.
#![tactic(auto)]

ghost use Rattle.domain_laws.specs.Laws.{Laws, KeepsDead};
ghost use Rattle.dom_listseg_meaning.specs.Covers.{covers};
ghost use Rattle.dom_shapes_meaning.specs.Domain.{shapes};
ghost use Rattle.dom_shapes_meaning.specs.Convergence.{JoiningEnds, WideningEnds};

/// The operations are those of a domain: what is described before a step is described after it, states that fit
/// stay so, verdicts are right, and simple statements change no dead state.
pub fn shapes_are_a_domain()
    ensures laws { Laws shapes covers }
    ensures keeps_dead { KeepsDead shapes }
{}

/// A state changes at most 9,281 times under joins and widenings, whatever it is joined with.
pub fn joining_ends()
    ensures joins { JoiningEnds }
    ensures widens { WideningEnds }
{}

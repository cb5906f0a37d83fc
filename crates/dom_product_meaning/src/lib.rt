//! What the product of two domains is: its operations, and their laws.
//!
//! A state is a state of each domain, and describes what both describe (`covered_by_both` of
//! `specs/Product.antt`). Every operation of `product` acts on the two parts; a verdict is the
//! `stronger` of the parts', and a state is dead where both parts are.
//!
//! The function does nothing when it runs: it carries the laws as its clauses. Code that computes
//! these operations is held to them elsewhere.
#![tactic(auto)]

ghost use Rattle.domain_laws.specs.Laws.{Laws, KeepsDead};
ghost use Rattle.dom_product_meaning.specs.Product.{product, covered_by_both};

use domain_laws::Domain;

/// The operations are those of a domain, whatever the two domains are: what is described before
/// of a step is described after it, states that fit stay so, verdicts are right, and simple
/// statements change no dead state.
pub fn products_are_domains<A: Domain, B: Domain>()
    ensures laws { (a : A) (b : B) → Laws (product (A.operations a) (B.operations b))
        (covered_by_both (A.covers a) (B.covers b)) }
    ensures keeps_dead { (a : A) (b : B) → KeepsDead (product (A.operations a) (B.operations b)) }
{}

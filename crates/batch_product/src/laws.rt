//! The theorems, each the contract of a function that does nothing.
ghost use Rattle.std.specs.Prelude.{ℕ};
ghost use Rattle.dom_product_meaning.specs.Product.{product};
ghost use Rattle.batch_converges.specs.Converges.{Converge, Ending, Grows};
ghost use Rattle.batch_product.specs.Claims.{AnswersPairs, later_of_both, changes_of_both};

use domain_laws::Domain;
use imp_chains::thresholds_rise;

/// With delay 0, where each domain alone answers a state at a location under a call string, their
/// product answers the pair of them.
pub fn products_answer_pairs<A: Domain, B: Domain>()
    ensures pair { (a : A) (b : B) → AnswersPairs (A.operations a) (B.operations b) }
{}

/// Where the states of each domain change a stated number of times in the rounds of a loop, from a stated
/// round on, a pair changes from the later of the two rounds on at most as often as both together, and from
/// the budget on that this states no answer of a checked program is an Over.
pub fn products_converge<A: Domain, B: Domain>()
    ensures changes { (a : A) (b : B) (u v : ℕ → ℕ) (f g : ℕ → ℕ → ℕ) →
        Ending (A.operations a) u f → Ending (B.operations b) v g →
        Ending (product (A.operations a) (B.operations b)) (later_of_both u v)
        (changes_of_both f g) }
    ensures end { (a : A) (b : B) (u v : ℕ → ℕ) (f g : ℕ → ℕ → ℕ) → Ending (A.operations a) u f →
        Ending (B.operations b) v g → Grows f → Grows g →
        Converge (product (A.operations a) (B.operations b)) (later_of_both u v)
        (changes_of_both f g) }
{
    thresholds_rise();
}

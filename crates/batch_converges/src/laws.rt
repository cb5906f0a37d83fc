//! The theorems, each the contract of a function that does nothing.
ghost use Rattle.std.specs.Prelude.{ℕ};
ghost use Rattle.batch_converges.specs.Converges.{Converge, Ending, Grows, IntervalsConverge, OctagonsConverge, SegmentsConverge, ShapesConverge};

use domain_laws::Domain;
use imp_chains::thresholds_rise;

/// Where states change a stated number of times in the rounds of a loop, from a stated round on, no answer of a
/// checked program is an Over, from a budget on that is stated from the two.
pub fn answers_converge<D: Domain>()
    ensures end { (d : D) (wait : ℕ → ℕ) (most : ℕ → ℕ → ℕ) → Ending (D.operations d) wait most →
        Grows most → Converge (D.operations d) wait most }
{
    thresholds_rise();
}

/// By intervals no answer of a checked program is an Over where the budget is 2v(m + 1) + D + 2 or more: v the
/// greatest number of numeric slots of a procedure, m the greatest number of thresholds, D the delay.
pub fn intervals_converge()
    ensures end { IntervalsConverge }
{
    thresholds_rise();
}

/// By octagons no answer of a checked program is an Over where the budget is 4v²(m + 1) + D + 2 or more: v
/// the greatest number of numeric slots of a procedure, m the greatest number of thresholds, D the delay.
pub fn octagons_converge()
    ensures end { OctagonsConverge }
{
    thresholds_rise();
}

/// By list segments no answer of a checked program is an Over where the budget is 66 or more, whatever the delay.
pub fn segments_converge()
    ensures end { SegmentsConverge }
{
    thresholds_rise();
}

/// By shapes no answer of a checked program is an Over where the budget is 9,282 or more, whatever the delay.
pub fn shapes_converge()
    ensures end { ShapesConverge }
{
    thresholds_rise();
}

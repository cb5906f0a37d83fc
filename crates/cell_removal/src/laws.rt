//! What a plan leaves.
ghost use Rattle.cell_removal.specs.Removal.{RestStays};

/// The cells of a plan are gone, and the others are as they were.
pub fn rest_stays<V>()
    ensures rest { RestStays V }
{}

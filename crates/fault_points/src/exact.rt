//! The law of fault points, the contract of a function that does nothing.
ghost use Rattle.fault_points.specs.Exact.{PointsAreExact};

/// A theorem, and no work: where a condition, a simple statement or the arguments of a call are evaluated to
/// the end, the claim of each of their fault points holds; where they end with a fault, the claim of a point
/// of its kind fails.
pub fn points_are_exact()
    ensures exact { PointsAreExact }
{}

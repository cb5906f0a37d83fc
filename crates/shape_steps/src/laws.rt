//! Theorems on the steps, each the contract of a function that does nothing.

ghost use Rattle.shape_steps.specs.Laws.{NullIsCovered, CopyIsCovered, NewIsCovered, ReadIsCovered, WriteIsCovered, EnterIsCovered, RemovalIsCovered, ShedIsCovered, LeaveIsCovered, NilIsNull, NodeIsCell, EqualityIsTold};

/// What each concrete step makes of what a graph covers, the step on graphs makes a graph that covers it.
pub fn steps_are_covered()
    ensures null { NullIsCovered }
    ensures copied { CopyIsCovered }
    ensures allocated { NewIsCovered }
    ensures read { ReadIsCovered }
    ensures written { WriteIsCovered }
    ensures entered { EnterIsCovered }
    ensures removed { RemovalIsCovered }
    ensures shed { ShedIsCovered }
    ensures left { LeaveIsCovered }
{}

/// What stands in a slot of the last frame tells what its variable is, in all that the graph covers: null
/// for nil, a cell for a node, and equal variables exactly where the targets are equal.
pub fn slots_tell_variables()
    ensures null { NilIsNull }
    ensures cell { NodeIsCell }
    ensures equal { EqualityIsTold }
{}

//! The laws of steps, each the contract of a function that does nothing.

ghost use Rattle.concrete_sem.specs.Claims.{StepsGoOn, StepsKeepForm, StartIsWellFormed, PushesItems, BreakLeavesItems};
ghost use Rattle.concrete_sem.specs.Keeping.{EffectsKeep, PassingKeeps, ReturnsKeep, LastAloneKeeps, StartKeeps};

/// Each well-formed configuration of a checked program that is not ended has exactly one step: a next
/// configuration, which is well-formed again, a fault, or an input wanted where none is left. Runs begin
/// in well-formed configurations.
pub fn steps_are_determined()
    ensures goes_on { StepsGoOn }
    ensures keeps_form { StepsKeepForm }
    ensures starts { StartIsWellFormed }
{}

/// Steps keep heaps and variables as the layouts say: a simple statement, a call, a return, the last
/// frame alone, the first frame.
pub fn steps_keep_data()
    ensures effects { EffectsKeep }
    ensures calls { PassingKeeps }
    ensures returns { ReturnsKeep }
    ensures last_alone { LastAloneKeeps }
    ensures starts { StartKeeps }
{}

/// A frame's work as a list of items, one for each statement to be done: a block is pushed as its Do
/// items, and a break removes the items before the first Test, which becomes a Done.
pub fn work_is_items()
    ensures pushes { PushesItems }
    ensures leaves { BreakLeavesItems }
{}

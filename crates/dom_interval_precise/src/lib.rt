//! Which operations of intervals give the smallest sound state.
//!
//! A state is best for a set of configurations where it covers them all, and is part of every state that does
//! (`specs/Best.antt`). The sets are those that an operation has to cover (`specs/Sets.antt`). `specs/Claims.antt` says
//! which operations are best, and `specs/Losses.antt` by examples which are not.
//!
//! The functions do nothing when they run; each carries its theorems as its clauses.
#![tactic(auto)]

ghost use Rattle.dom_interval_precise.specs.Claims.{AssertionIsBest, ComparisonIsBest, EnterIsBest, IndexCheckIsBest, JoinIsBest, LeaveIsBest, NegationIsBest, OperationIsBest, PartIsInclusion, PlainIsBest, ReadIsBest, UpdateIsBest, WriteIsBest};
ghost use Rattle.dom_interval_precise.specs.Losses.{FailureLoses, OneOnBothSidesLoses, OneTwiceLoses, RemainderLoses, SeveralOperationsLose, TwoComparisonsLose, TwoStepsLose, WideningLoses};

/// Joins, single comparisons, calls and statements of at most one operation give the best state, each as its clause limits
/// it: one comparison of two operands that are not of one variable, or the check of an index; a sum, difference, product or
/// quotient of such operands, or a negation, that never fails; `x = x + n` and `x = -x` in any case; an element that is read
/// or written; the start of a procedure whose int arguments are operands, and what is taken back at its end.
pub fn single_steps_are_best()
    ensures order { PartIsInclusion }
    ensures join { JoinIsBest }
    ensures comparison { ComparisonIsBest }
    ensures assertion { AssertionIsBest }
    ensures index_check { IndexCheckIsBest }
    ensures plain { PlainIsBest }
    ensures write { WriteIsBest }
    ensures read { ReadIsBest }
    ensures operation { OperationIsBest }
    ensures update { UpdateIsBest }
    ensures negation { NegationIsBest }
    ensures enter { EnterIsBest }
    ensures leave { LeaveIsBest }
{}

/// Other steps may lose. Each clause has an example, in which the state is sound but not best.
pub fn other_steps_lose()
    ensures one_on_both_sides { OneOnBothSidesLoses }
    ensures two_comparisons { TwoComparisonsLose }
    ensures two_steps { TwoStepsLose }
    ensures several_operations { SeveralOperationsLose }
    ensures one_twice { OneTwiceLoses }
    ensures remainder { RemainderLoses }
    ensures failure { FailureLoses }
    ensures widening { WideningLoses }
{}

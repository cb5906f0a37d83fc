//! The theorems, each the contract of a function that does nothing.

ghost use Rattle.daig_demands.specs.Claims.{AnswersAreJoined, AnswersAreTargets, CellsCompareStates, DemandedAreNames, DemandIsNext, FirstOverAnswers, IndexIsZero, IteratesHaveNone, LastTwoGoOn, LastTwoStop, MachineRuns, NeededAreNames, ReportFillsOnce, ReportFillsUnion, ReportIsOneDemand, RowsAnswer, VerdictsAreRead, WalkAsks, WalkFinds, WalkGoes, WalkHasAll, WalkStarts};

use cell_rows::rows_give_values;
use domain_laws::Domain;

/// The cells that targets ask for, one by one: by the values of all those before, or by a walk that keeps the
/// path so far and the targets that are left.
pub fn demands_are_walked<S>()
    ensures next { DemandIsNext S }
    ensures starts { WalkStarts S }
    ensures asks { WalkAsks S }
    ensures goes { WalkGoes S }
    ensures all { WalkHasAll S }
    ensures finds { WalkFinds S }
{}

/// The answer at a location: the join, from left to right, of what is found at its targets, each shed; or the
/// first Over.
pub fn answers_are_joined<D: Domain>()
    ensures targets { (d : D) → AnswersAreTargets (D.operations d) }
    ensures states { (d : D) → AnswersAreJoined (D.operations d) }
    ensures over { (d : D) → FirstOverAnswers (D.operations d) }
{}

/// The rows of a checked program run the machine of demands: the values of a row's first inputs ask for the
/// next, those of all give the name's. All that a query needs are names of the program.
pub fn rows_are_a_machine<D: Domain>()
    ensures rows { (d : D) → RowsAnswer (D.operations d) }
    ensures runs { (d : D) → MachineRuns (D.operations d) }
    ensures demanded { (d : D) → DemandedAreNames (D.operations d) }
    ensures needed { (d : D) → NeededAreNames (D.operations d) }
{
    rows_give_values::<D>();
}

/// A report fills each cell that one of its statements needs and that was not kept, once: so many it costs.
/// Its verdicts are made of what is found at the targets of each checked statement.
pub fn reports_fill_union<D: Domain>()
    ensures one { (d : D) → ReportIsOneDemand (D.operations d) }
    ensures once { (d : D) → ReportFillsOnce (D.operations d) }
    ensures union { (d : D) → ReportFillsUnion (D.operations d) }
    ensures verdicts { (d : D) → VerdictsAreRead (D.operations d) }
{}

/// The cells of fixed points, exits and leaps alone carry an index, so that iterates are the same state
/// exactly where their cells hold the same.
pub fn indices_stay<D: Domain>()
    ensures zero { (d : D) → IndexIsZero (D.operations d) }
    ensures iterates { (d : D) → IteratesHaveNone (D.operations d) }
    ensures compared { CellsCompareStates D.State }
{}

/// The iterates of a loop are asked for, and its fixed point is found, by the last two alone.
pub fn iterates_stop<D: Domain>()
    ensures more { (d : D) → LastTwoGoOn (D.operations d) }
    ensures fixed { (d : D) → LastTwoStop (D.operations d) }
{}

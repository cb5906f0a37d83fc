//! What an edit can empty, told by the text of the program.
//!
//! The control flow graph (`specs/Flow.antt`) has the points of the text as nodes, under each chain of calls, and at each
//! point an equation: where control comes from, and what is done on the way. An edit changes the points whose equation is
//! gone or another, and a path leads from a changed point to each cell that it empties (`specs/Bound.antt`). An edit at a
//! statement changes points of the statement, in it, and straight behind it, and of loops the thresholds and the breaks
//! (`specs/Neighbours.antt`, `specs/Sources.antt`). `specs/Examples.antt` has what may surprise.
//!
//! The functions do nothing when they run; each carries its theorems as its clauses.
#![tactic(auto)]

ghost use Rattle.edit_bound_laws.specs.Bound.{DeadEndsGoAlone, EmptiedAreReached};
ghost use Rattle.edit_bound_laws.specs.Examples.{LastIsDeadEnd, LoopBeforeIsEmptied, OtherProcedureIsEmptied};
ghost use Rattle.edit_bound_laws.specs.Neighbours.{OthersKeepEquations};
ghost use Rattle.edit_bound_laws.specs.Sources.{EmptiedAreBehind};

use domain_laws::Domain;

/// To each cell that an edit, its undoing or its redoing empties a path of the graph leads from a changed point. So whatever
/// an edit puts in the place of a statement, a path leads there from a point of the statement or in it, or straight behind it,
/// or from the head of a loop in its procedure, or behind a loop around it. And where the points of one statement alone
/// change, and control does not leave it, the cells of all others stay.
pub fn emptied_cells_are_reached<D: Domain>()
    ensures reached { (d : D) → EmptiedAreReached (D.operations d) }
    ensures behind { (d : D) → EmptiedAreBehind (D.operations d) }
    ensures alone { (d : D) → DeadEndsGoAlone (D.operations d) }
{}

/// Whatever an edit puts in the place of a statement, it changes points of the statement and in it, and those to which
/// control comes straight from it; of loops in its procedure the thresholds, and of loops around it the breaks; no others.
pub fn edits_change_neighbours()
    ensures others { OthersKeepEquations }
{}

/// Examples. Where the last statement of `main` is replaced, behind a loop, its own cells alone go if loops are widened without
/// thresholds. With them an iterate of the loop goes too, since thresholds come from all constants of a procedure. And an edit
/// can empty cells of a procedure that does not call the edited one: of one that is called after it.
pub fn edits_reach_others<D: Domain>()
    ensures dead_end { LastIsDeadEnd }
    ensures loop_before { (d : D) → LoopBeforeIsEmptied (D.operations d) }
    ensures other_procedure { (d : D) → OtherProcedureIsEmptied (D.operations d) }
{}

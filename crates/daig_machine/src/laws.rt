//! What the machine's turns do to the kept names.
ghost use Rattle.daig_machine.specs.Claims.{FillingKeeps, MovingKeeps, MovingLeaves, PlacesKeep, RedoGoesOn, ReportingKeeps, UndoGoesBack, UndoKeepsAll};

use cell_rows::rows_give_values;
use domain_laws::Domain;

/// With the first of the names that are missing for a question, for a report, or for locations one after another, as a
/// report of faults asks, the kept names are cells of the program again, each once.
pub fn questions_keep_cells<D: Domain>()
    ensures question { (d : D) → FillingKeeps (D.operations d) }
    ensures report { (d : D) → ReportingKeeps (D.operations d) }
    ensures places { (d : D) → PlacesKeep (D.operations d) }
{
    rows_give_values::<D>();
}

/// With another program the kept names are cells of that one, each once; they are the kept set of the change.
pub fn moves_keep_cells<D: Domain>()
    ensures cells { (d : D) → MovingKeeps (D.operations d) }
    ensures leaves { (d : D) → MovingLeaves (D.operations d) }
{}

/// An edit that is undone leads back to the program before it, and redone on to the program after it; straight after the
/// edit its undoing takes no further name out of those that are kept.
pub fn edits_are_undone<D: Domain>()
    ensures back { (d : D) → UndoGoesBack (D.operations d) }
    ensures on { (d : D) → RedoGoesOn (D.operations d) }
    ensures keeps { (d : D) → UndoKeepsAll (D.operations d) }
{}

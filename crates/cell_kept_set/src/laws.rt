//! The theorems, each the contract of a function that does nothing.

ghost use Rattle.cell_kept_set.specs.Claims.{CellsAreTold, KeptByNew, KeptIsRight, PlacesTurn, PlansAreExact, RowsTellKept, RowsTellNames, RowsTellChanged};

use domain_laws::Domain;

/// What is kept over an edit is right: the new program has each kept name, with the same operation, the same inputs and
/// the same value, and the inputs are kept. It is the same set whichever program's values tell the new inputs.
pub fn kept_is_right<D: Domain>()
    ensures right { (d : D) → KeptIsRight (D.operations d) }
    ensures new { (d : D) → KeptByNew (D.operations d) }
{}

/// Where statements keep their places the kept set is told by the rows by number: of each cell its own.
pub fn rows_tell_kept<D: Domain>()
    ensures kept { (d : D) → RowsTellKept (D.operations d) }
    ensures names { (d : D) → RowsTellNames (D.operations d) }
    ensures changed { (d : D) → RowsTellChanged (D.operations d) }
    ensures turn { PlacesTurn }
{}

/// Removal from the cells alone: users first, from those whose own row is changed, it leaves exactly the kept set.
pub fn plans_are_exact<D: Domain>()
    ensures told { (d : D) → CellsAreTold (D.operations d) }
    ensures exact { (d : D) → PlansAreExact (D.operations d) }
{}

//! What a plan leaves, and what still holds of the cells that it takes away.
ghost use Rattle.edit_invalidate.specs.Claims.{CellsAreNamed, CellsRise, OthersKeepRows, PlansLeaveKept, TracesStay, UntouchedHaveTraces, UntouchedKeepRows};

use domain_laws::Domain;

/// The cells of a program have names, and rise above their inputs, so a change of it can be planned. What a plan leaves
/// are exactly the kept names of the change; they are cells of the new program, and keep their values.
pub fn plans_leave_kept<D: Domain, V>()
    ensures named { (d : D) → CellsAreNamed (D.operations d) V }
    ensures rise { (d : D) → CellsRise (D.operations d) V }
    ensures kept { (d : D) → PlansLeaveKept (D.operations d) V }
{}

/// A cell that is not touched keeps its row, though it may be taken away. So what the old row asked for, was given and made
/// is a trace of the new one (crate `daig_traces`): where its inputs get these values again, the cell gets its value again.
pub fn untouched_keep_rows<D: Domain, V>()
    ensures rows { (d : D) → UntouchedKeepRows (D.operations d) V }
    ensures others { OthersKeepRows }
    ensures stay { (d : D) → TracesStay (D.operations d) }
    ensures traces { (d : D) → UntouchedHaveTraces (D.operations d) V }
{}

//! What a removal that is planned for an edit leaves.
ghost use Rattle.edit_keeps.specs.Apart.{EditsLeaveKept};

use domain_laws::Domain;

/// Of two programs that one accepted edit lies between: what the plan for the change from one to the other leaves are
/// exactly the kept names of that change. They are cells of the program that it leads to, and keep their values.
pub fn edits_leave_kept<D: Domain, V>()
    ensures kept { (d : D) → EditsLeaveKept (D.operations d) V }
{}

//! The numbers of a part in which no call stands, found from one statement to the next.
ghost use Rattle.std.specs.Prelude.{◌≡◌, ◌++◌, IfOk, true};
ghost use Rattle.imp_check.specs.Entries.{entries_of, entry_of};
ghost use Rattle.imp_check.specs.Walks.{walk};
ghost use Rattle.imp_edit.specs.CallFreeParts.{is_call, quiet_from};

use base_values::{Items, Memory};
use edit_breaks::next_in;
use imp_syntax::{Stmt, StmtId, StmtNode};
use imp_table::Table;

/// Whether a statement is a call.
pub(crate) fn is_call(stmt: &Stmt) -> bool
    ensures is { result ≡ is_call stmt.now }
{
    match stmt.node() {
        StmtNode::Call(_) => true,
        StmtNode::Simple(_) | StmtNode::Break | StmtNode::If(_, _, _) | StmtNode::While(_, _) => {
            false
        }
    }
}

/// Whether no call stands in the block whose first statement has this number. It adds the numbers of the block, each
/// followed by those inside it, up to the first call. `most` is more than there are statements.
#[tactic(auto, using(imp_check::proofs::StepLemmas::step_some, crate::proofs::CallFreeLemmas::quiet_step, crate::proofs::CallFreeLemmas::quiet_none, imp_check::proofs::WalkLemmas::walk_step, imp_check::proofs::WalkLemmas::walk_none))]
pub(crate) fn add_quiet(
    table: &Table,
    most: u32,
    first: Option<StmtId>,
    found: &mut Items<StmtId>,
) -> Result<bool, Memory>
    ensures is { IfOk result (λ quiet. quiet ≡ quiet_from (entry_of (entries_of table.now.program))
        most first) }
    ensures added { IfOk result (λ quiet. quiet ≡ true →
        found.new ≡ found.old ++ walk (entry_of (entries_of table.now.program)) most first) }
{
    let mut left = most;
    let mut at = first;
    while let Some(entry) = next_in(table, left, at) {
        left -= 1;
        if is_call(&entry.part) {
            return Ok(false);
        }
        found.push(entry.number)?;
        if !add_quiet(table, left, entry.inner.first, found)? {
            return Ok(false);
        }
        if !add_quiet(table, left, entry.other.first, found)? {
            return Ok(false);
        }
        at = entry.next;
    }
    Ok(true)
}

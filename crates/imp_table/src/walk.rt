//! The statements of a block, found from one to the next.
ghost use Rattle.std.specs.Prelude.{◌≡◌, ◌++◌, OnOk};
ghost use Rattle.std.specs.Option.{option_copied};
ghost use Rattle.imp_check.specs.Entries.{entries_of, entry_of};
ghost use Rattle.imp_check.specs.Rebuilt.{next_in};
ghost use Rattle.imp_check.specs.Walks.{walk};

use crate::view::View;
use base_values::{Items, Memory};
use imp_check::Entry;
use imp_syntax::StmtId;

/// What stands at a number, if so many more statements there are.
fn next_in<'a>(view: &View<'a>, most: u32, at: Option<StmtId>) -> Option<&'a Entry>
    ensures is { option_copied result ≡ next_in (entry_of (entries_of view.now)) most at }
{
    if most == 0 {
        return None;
    }
    match at {
        Some(id) => view.entry(id),
        None => None,
    }
}

/// Adds the numbers of the block whose first statement has this number, each followed by those inside it. `most` is more
/// than there are statements.
#[tactic(auto, using(imp_check::proofs::StepLemmas::step_some, imp_check::proofs::WalkLemmas::walk_step, imp_check::proofs::WalkLemmas::walk_none))]
pub(crate) fn add_block(
    view: &View<'_>,
    most: u32,
    first: Option<StmtId>,
    found: &mut Items<StmtId>,
) -> Result<(), Memory>
    ensures added { OnOk result (found.new ≡ found.old ++ walk (entry_of (entries_of view.now)) most
        first) }
{
    let mut left = most;
    let mut at = first;
    while let Some(entry) = next_in(view, left, at) {
        left -= 1;
        found.push(entry.number)?;
        add_block(view, left, entry.inner.first, found)?;
        add_block(view, left, entry.other.first, found)?;
        at = entry.next;
    }
    Ok(())
}

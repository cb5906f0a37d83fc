//! The numbers that an edit uses.
ghost use Rattle.std.specs.Prelude.{◌≡◌, ◌-◌, ◌^◌, min, cond, Some, None};
ghost use Rattle.imp_edit.specs.Edited.{next_after, uses};
ghost use Rattle.imp_edit.specs.Refusals.{passes};

use imp_check::{block_count, statement_count};
use imp_syntax::Edit;

/// The greatest number of a statement.
const MOST_NUMBER: u64 = 1_000_000;

/// How many numbers the edit uses, up to 2^32 - 1.
fn uses(edit: &Edit) -> u32
    ensures is { result ≡ min (uses edit.now) (2 ^ 32 - 1) }
{
    match edit {
        Edit::Replace(_, stmt) => statement_count(stmt),
        Edit::Insert(_, more) => block_count(more),
        Edit::AddProc { before: _, proc } => block_count(proc.body()),
        Edit::Delete(_) | Edit::Guard(_, _) | Edit::Declare(_, _) | Edit::DropProc(_) => 0,
    }
}

/// The next number after those of the edit, or `None` where one would pass 1,000,000. It takes time linear in the
/// edit.
#[tactic(auto, using(crate::proofs::NextLemmas::too_many, crate::proofs::NextLemmas::none_new, crate::proofs::NextLemmas::few_new))]
pub(crate) fn next_after(edit: &Edit, next: u32) -> Option<u32>
    ensures is { result ≡ cond (passes (uses edit.now) next) None
        (Some (next_after edit.now next)) }
{
    let count = uses(edit);
    if count > 0 && u64::from(next) + u64::from(count) > MOST_NUMBER + 1 {
        None
    } else {
        Some(next + count)
    }
}

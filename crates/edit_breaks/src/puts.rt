//! Entries of a change, by falling numbers.
ghost use Rattle.std.specs.Prelude.{◌≡◌, ℕ, ◌<◌, ◌==◌, cond, OnOk, Option};
ghost use Rattle.imp_table.specs.Changes.{AreFalling, AreWithin, overlay};
ghost use Rattle.imp_check.specs.declared.entry.Entry.{Entry};

use base_values::Memory;
use imp_check::TableSlot;
use imp_syntax::StmtId;
use imp_table::Put;

/// Puts something at a number, in place of what the change has there. It takes time in proportion to the entries of
/// less numbers.
///
/// # Errors
///
/// [`Memory`] alone: then the change is of no use.
#[tactic(auto, using(crate::proofs::PutLemmas::exchanged_overlay, crate::proofs::PutLemmas::exchanged_falling, crate::proofs::PutLemmas::exchanged_within, crate::proofs::PutLemmas::added_overlay, crate::proofs::PutLemmas::added_falling, crate::proofs::PutLemmas::added_within))]
pub fn put_at(puts: &mut Vec<Put>, number: StmtId, entry: TableSlot) -> Result<(), Memory>
    requires falling { AreFalling puts.old.items }
    ensures is { OnOk result ((at : ℕ → Option Entry) (m : ℕ) →
        overlay puts.new.items at m ≡ cond (number == m) entry (overlay puts.old.items at m)) }
    ensures falling { OnOk result (AreFalling puts.new.items) }
    ensures within { OnOk result ((b : ℕ) → number < b → AreWithin b puts.old.items →
        AreWithin b puts.new.items) }
{
    let number = number.number();
    let mut at = puts.len();
    while at > 0 && puts[at - 1].number < number {
        at -= 1;
    }
    let put = Put { number, entry };
    if at > 0 && puts[at - 1].number == number {
        puts[at - 1] = put;
        return Ok(());
    }
    puts.insert(at, put)?;
    Ok(())
}

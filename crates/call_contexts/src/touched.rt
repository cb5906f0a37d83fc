//! The procedures that a change touches.
ghost use Rattle.std.specs.Prelude.{◌≡◌, ℕ, ◌==◌, ◌||◌, false, IfOk, OnOk};
ghost use Rattle.std.specs.Option.{option_copied};
ghost use Rattle.std.specs.BTreeSet.{contains};
ghost use Rattle.std.specs.Ordering.{nat_cmp};
ghost use Rattle.imp_check.specs.Entries.{entries_of, entry_of};
ghost use Rattle.call_contexts.specs.Touches.{stands_in, touches};

use base_values::Memory;
use imp_check::Entry;
use imp_syntax::StmtId;
use imp_table::{Put, View};
use std::alloc::Global;
use std::collections::BTreeSet;

/// Adds the procedure of a statement, if it is there.
fn add_place(touched: &mut BTreeSet<u32>, stmt: Option<&Entry>) -> Result<(), Memory>
    ensures added { OnOk result ((k : ℕ) → contains nat_cmp touched.new k ≡
        (stands_in (option_copied stmt.entry) k || contains nat_cmp touched.old k)) }
{
    if let Some(entry) = stmt {
        touched.insert(entry.context.proc.place())?;
    }
    Ok(())
}

/// The procedures from which a change takes statements or to which it brings statements.
pub(crate) fn touched_places(
    alloc: Global,
    old: &View<'_>,
    puts: &[Put],
) -> Result<BTreeSet<u32>, Memory>
    ensures are { IfOk result (λ touched. (k : ℕ) → contains nat_cmp touched k ≡
        touches (entry_of (entries_of old.now)) puts.now k) }
{
    let mut touched = BTreeSet::new(alloc);
    for put in puts {
        add_place(&mut touched, old.entry(StmtId::new(put.number)))?;
        add_place(&mut touched, put.entry.entry())?;
    }
    Ok(touched)
}

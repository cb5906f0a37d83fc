//! Entries put into a table.
ghost use Rattle.std.specs.Prelude.{◌≡◌, OnOk, Some};
ghost use Rattle.imp_check.specs.Puts.{put_at};

use crate::entry::Entry;
use crate::place::TableSlot;
use base_values::Memory;
use std::alloc::Global;

/// Puts an entry at its number.
#[tactic(auto, using(crate::proofs::PutLemmas::put_more, crate::proofs::PutLemmas::put_there, crate::proofs::PutLemmas::put_end))]
pub(crate) fn put_entry(
    alloc: Global,
    places: &mut Vec<TableSlot>,
    entry: Entry,
) -> Result<(), Memory>
    ensures put { OnOk result (places.new.items ≡ put_at places.old.items entry.number
        (Some entry)) }
{
    let number = entry.number.number() as usize;
    let place = TableSlot::of(alloc, entry)?;
    while places.len() < number {
        places.push(TableSlot::free())?;
    }
    if number < places.len() {
        places[number] = place;
    } else {
        places.push(place)?;
    }
    Ok(())
}

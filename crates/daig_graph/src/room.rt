//! Room for new places.
ghost use Rattle.std.specs.Prelude.{◌≡◌, ◌<◌, OnOk, vec_capacity};

use std::alloc::AllocError;

/// Room for the places of a number and of all below it, made at once. There are as many places as before.
#[inline]
pub(crate) fn make_room<T>(places: &mut Vec<T>, cell: usize) -> Result<(), AllocError>
    ensures room { OnOk result (cell < vec_capacity places.new) }
    ensures same { places.new.items ≡ places.old.items }
{
    let wanted = cell.checked_add(1).ok_or(AllocError)?;
    places.reserve(wanted.saturating_sub(places.len()))
}

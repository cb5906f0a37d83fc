//! A slot that stands for a node of the same matrix plus a number.
ghost use Rattle.std.specs.Prelude.{◌<◌, ◌^◌, IfOk, Some, length};
ghost use Rattle.dbm_core.specs.Half.{nodes};
ghost use Rattle.dbm_core.specs.Limits.{IsWithin};
ghost use Rattle.dbm_incremental.specs.ClosedMatrices.{IsClosed};
ghost use Rattle.dbm_narrow.specs.Standing.{StandsIf};
ghost use Rattle.dbm_narrow.specs.Held.{IsNoneIf};

use crate::Narrow;
use crate::standing::stand_by;
use crate::width::Width;
use base_values::Memory;
use std::alloc::Global;

/// A closed matrix in which slot q stands for node y plus c, its own or another's: None where c or a
/// bound leaves the limits.
pub fn stood<W: Width>(
    alloc: Global,
    closed: &Narrow<W>,
    q: usize,
    y: usize,
    c: i128,
) -> Result<Option<Narrow<W>>, Memory>
    requires slot { q < length closed.now.kinds }
    requires node { y < nodes closed.now }
    requires closed { IsClosed closed.now }
    requires small { IsWithin (2 ^ 70) (Some c) }
    ensures stood { IfOk result (StandsIf closed.now q y c) }
    ensures total { IfOk result (IsNoneIf W.checked) }
{
    let kinds = closed.kinds.share()?;
    let mut entries = Vec::from_slice(alloc, closed.entries.as_slice())?;
    if stand_by(kinds.list(), entries.as_mut_slice(), q, y, c) {
        Ok(Some(Narrow { kinds, entries }))
    } else {
        Ok(None)
    }
}

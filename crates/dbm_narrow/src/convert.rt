//! Narrow matrices of those of `dbm_core`, and back, and of one width from another.
ghost use Rattle.std.specs.Prelude.{◌≡◌, ◌<◌, ◌*◌, IfOk, Some, true};
ghost use Rattle.std.specs.Bool.{MatchBool};
ghost use Rattle.dbm_core.specs.Half.{entry, nodes};
ghost use Rattle.dbm_core.specs.Limits.{IsWithin};
ghost use Rattle.dbm_incremental.specs.ClosedMatrices.{IsClosed, IsWhole};
ghost use Rattle.dbm_incremental.specs.Far.{HasFarEntry, HasNoFarEntry, IsBelowHalf, IsFar};
ghost use Rattle.dbm_narrow.specs.Held.{IsEntryOf, IsNarrowOf, TellsWithin};

use crate::Narrow;
use crate::entries::wide_bound;
use crate::entry::Entry;
use crate::kinds::Kinds;
use crate::rows::read;
use crate::width::Width;
use base_values::Memory;
use dbm_core::Matrix;
use std::alloc::Global;

/// The matrix in narrow entries, None exactly where a bound lies outside the limits.
pub fn narrowed<W: Width>(alloc: Global, matrix: &Matrix) -> Result<Option<Narrow<W>>, Memory>
    ensures same { IfOk result (IsNarrowOf W.unit matrix.now) }
{
    let kept = matrix.kept();
    let mut entries = Vec::with_capacity(alloc, kept.len())?;
    for bound in kept {
        match narrow_entry(*bound) {
            Some(entry) => entries.push(entry)?,
            None => return Ok(None),
        }
    }
    let kinds = Kinds::of(alloc, matrix.kinds())?;
    Ok(Some(Narrow { kinds, entries }))
}

/// The entry of a bound, if it lies within the limits.
#[inline]
pub fn narrow_entry<W: Width>(bound: Option<i128>) -> Option<Entry<W>>
    ensures entry { IsEntryOf W.unit bound result }
{
    if fits::<W>(bound) {
        Some(entry_of(bound))
    } else {
        None
    }
}

/// Whether a bound lies within the limits.
#[inline]
pub fn fits<W: Width>(bound: Option<i128>) -> bool
    ensures within { TellsWithin W.unit bound result }
{
    match bound {
        None => true,
        Some(x) => Entry::<W>::least().number() <= x && x <= Entry::<W>::greatest().number(),
    }
}

// The entry of a bound that does.
#[inline]
fn entry_of<W: Width>(bound: Option<i128>) -> Entry<W>
    requires within { IsWithin (2 * W.unit) bound }
    ensures entry { IsEntryOf W.unit bound (Some result) }
{
    match bound {
        None => Entry::none(),
        Some(x) => Entry::of(x),
    }
}

/// The same matrix in entries of another width, None exactly where a bound lies outside its limits.
pub fn refitted<V: Width, W: Width>(
    alloc: Global,
    matrix: &Narrow<V>,
) -> Result<Option<Narrow<W>>, Memory>
    ensures same { IfOk result (IsNarrowOf W.unit matrix.now) }
{
    let from = matrix.entries.as_slice();
    for k in 0..from.len() {
        if !fits::<W>(wide_bound(read(from, k))) {
            return Ok(None);
        }
    }
    let mut entries = Vec::with_capacity(alloc, from.len())?;
    for k in 0..from.len() {
        entries.push(entry_of(wide_bound(read(from, k))))?;
    }
    let kinds = matrix.kinds.share()?;
    Ok(Some(Narrow { kinds, entries }))
}

/// Whether no entry is 2^63 or more. A closed matrix then obeys the triangle law.
pub fn is_near<W: Width>(matrix: &Narrow<W>) -> bool
    ensures near { MatchBool result (HasNoFarEntry (nodes matrix.now) (entry matrix.now))
        (HasFarEntry (nodes matrix.now) (entry matrix.now)) }
    ensures whole { result ≡ true → IsClosed matrix.now → IsWhole matrix.now }
{
    let entries = matrix.entries.as_slice();
    for k in 0..entries.len() {
        if is_far(wide_bound(read(entries, k))) {
            return false;
        }
    }
    true
}

// Whether a bound is 2^63 or more.
#[inline]
fn is_far(bound: Option<i128>) -> bool
    ensures far { MatchBool result (IsFar bound) (IsBelowHalf bound) }
{
    match bound {
        None => false,
        Some(x) => x >= 9223372036854775808,
    }
}

/// The same matrix in the entries of `dbm_core`.
pub fn widened<W: Width>(alloc: Global, narrow: &Narrow<W>) -> Result<Matrix, Memory>
    ensures same { IfOk result (λ m. m ≡ narrow.now) }
{
    let kinds = narrow.kinds();
    let made = Matrix::from_fn(
        alloc,
        kinds,
        |i: usize, j: usize| -> Option<i128>
            requires row { i < nodes narrow.now }
            requires column { j < nodes narrow.now }
            ensures value { result ≡ entry narrow.entry.now i j }
        { narrow.get(i, j) },
    )?;
    Ok(made)
}

//! Operations on the matrices of states: on narrow ones where these fit, else on wide ones.
ghost use Rattle.std.specs.Prelude.{◌≡◌, ◌<◌, ◌^◌, true, IfOk, length};
ghost use Rattle.dbm_close.specs.Close.{slot_high, slot_low};
ghost use Rattle.dbm_core.specs.Half.{HasEntries, entry, nodes};
ghost use Rattle.dbm_core.specs.Limits.{AreWithin};
ghost use Rattle.dbm_core.specs.Operations.{forgotten, joined, widened};
ghost use Rattle.dbm_incremental.specs.ClosedMatrices.{IsClosed, IsWhole};
ghost use Rattle.dbm_narrow.specs.Widenings.{WidensIf};
ghost use Rattle.dom_octagon_states.specs.Held.{IsSmallIf};
ghost use Rattle.dom_octagon_states.specs.Limits.{AreWords, IsInLimits};

use crate::bounds::{Bounds, Held, hold, large, small};
use crate::transitive::is_transitive;
use base_values::Memory;
use dbm_narrow::Narrow;
use std::alloc::Global;

/// The ends of a slot's range: the least and the greatest value that its own two bounds leave
/// within the extremes of its kind.
pub fn slot_range(m: &Bounds, slot: usize) -> (i128, i128)
    requires slot { slot < length m.now.kinds }
    requires within { AreWithin (nodes m.now) (2 ^ 70) (entry m.now) }
    ensures low { result.0 ≡ slot_low m.now.kinds (entry m.now) slot }
    ensures high { result.1 ≡ slot_high m.now.kinds (entry m.now) slot }
{
    match &m.held {
        Held::Small(narrow) => dbm_narrow::slot_range(narrow.as_ref(), slot),
        Held::Large(wide) => dbm_narrow::slot_range(wide.as_ref(), slot),
    }
}

/// The bounds on a slot dropped: the slot may then have any value. The diagonal stays.
pub fn forget(alloc: Global, m: &Bounds, slot: usize) -> Result<Bounds, Memory>
    ensures entries { IfOk result (HasEntries m.now.kinds (forgotten (entry m.now) slot)) }
{
    match &m.held {
        Held::Small(narrow) => small(alloc, dbm_narrow::forget(alloc, narrow.as_ref(), slot)?),
        Held::Large(wide) => hold(alloc, dbm_narrow::forget(alloc, wide.as_ref(), slot)?),
    }
}

/// The greater of the two bounds at each pair.
pub fn join(alloc: Global, a: &Bounds, b: &Bounds) -> Result<Bounds, Memory>
    requires same_kinds { b.now.kinds ≡ a.now.kinds }
    ensures entries { IfOk result (HasEntries a.now.kinds (joined a.now b.now)) }
{
    match (&a.held, &b.held) {
        (Held::Small(m), Held::Small(n)) => {
            small(alloc, dbm_narrow::join(alloc, m.as_ref(), n.as_ref())?)
        }
        (Held::Small(m), Held::Large(n)) => {
            join_large(alloc, &large(alloc, m.as_ref())?, n.as_ref())
        }
        (Held::Large(m), Held::Small(n)) => {
            join_large(alloc, m.as_ref(), &large(alloc, n.as_ref())?)
        }
        (Held::Large(m), Held::Large(n)) => join_large(alloc, m.as_ref(), n.as_ref()),
    }
}

// The same of wide matrices.
fn join_large(alloc: Global, a: &Narrow<i128>, b: &Narrow<i128>) -> Result<Bounds, Memory>
    requires same_kinds { b.now.kinds ≡ a.now.kinds }
    ensures entries { IfOk result (HasEntries a.now.kinds (joined a.now b.now)) }
{
    hold(alloc, dbm_narrow::join(alloc, a, b)?)
}

/// The left matrix widened by the right one.
pub fn widen(alloc: Global, thresholds: &[i64], a: &Bounds, b: &Bounds) -> Result<Bounds, Memory>
    requires same_kinds { b.now.kinds ≡ a.now.kinds }
    ensures entries { IfOk result (HasEntries a.now.kinds (widened thresholds.now a.now b.now)) }
    ensures limited { IsInLimits a.now → IsInLimits b.now → IfOk result IsInLimits }
{
    match (&a.held, &b.held) {
        (Held::Small(m), Held::Small(n)) => {
            match widen_small(alloc, thresholds, m.as_ref(), n.as_ref())? {
                Some(widening) => Ok(widening),
                None => {
                    let left = large(alloc, m.as_ref())?;
                    let right = large(alloc, n.as_ref())?;
                    widen_large(alloc, thresholds, &left, &right)
                }
            }
        }
        (Held::Small(m), Held::Large(n)) => {
            widen_large(alloc, thresholds, &large(alloc, m.as_ref())?, n.as_ref())
        }
        (Held::Large(m), Held::Small(n)) => {
            widen_large(alloc, thresholds, m.as_ref(), &large(alloc, n.as_ref())?)
        }
        (Held::Large(m), Held::Large(n)) => {
            widen_large(alloc, thresholds, m.as_ref(), n.as_ref())
        }
    }
}

// The same of narrow matrices, where that fits.
fn widen_small(
    alloc: Global,
    thresholds: &[i64],
    a: &Narrow<i32>,
    b: &Narrow<i32>,
) -> Result<Option<Bounds>, Memory>
    requires same_kinds { b.now.kinds ≡ a.now.kinds }
    ensures widens { IfOk result (WidensIf thresholds.now a.now b.now) }
    ensures within { IfOk result IsSmallIf }
{
    match dbm_narrow::widen(alloc, thresholds, a, b)? {
        Some(widening) => {
            let _kinds = widening.kinds();
            Ok(Some(small(alloc, widening)?))
        }
        None => Ok(None),
    }
}

// The same of wide matrices, which each threshold fits.
fn widen_large(
    alloc: Global,
    thresholds: &[i64],
    a: &Narrow<i128>,
    b: &Narrow<i128>,
) -> Result<Bounds, Memory>
    requires same_kinds { b.now.kinds ≡ a.now.kinds }
    ensures entries { IfOk result (HasEntries a.now.kinds (widened thresholds.now a.now b.now)) }
    ensures limited { IsInLimits a.now → IsInLimits b.now → IfOk result IsInLimits }
{
    words(thresholds);
    match dbm_narrow::widen(alloc, thresholds, a, b)? {
        Some(widening) => hold(alloc, widening),
        None => unreachable!(),
    }
}

// Thresholds are numbers of 64 bits: there is nothing to do.
fn words(thresholds: &[i64])
    ensures words { AreWords thresholds.now }
{
    for threshold in thresholds {
        let _word = *threshold;
    }
}

/// Whether a matrix obeys the triangle law, if it is closed: no bound is 2^63 or more, or its bounds are
/// transitive.
pub fn is_whole(m: &Bounds) -> bool
    ensures whole { result ≡ true → IsClosed m.now → IsWhole m.now }
{
    match &m.held {
        Held::Small(narrow) => is_small(narrow.as_ref()),
        Held::Large(wide) => is_large_whole(wide.as_ref()),
    }
}

// No bound of a narrow matrix is 2^63 or more.
fn is_small(narrow: &Narrow<i32>) -> bool
    ensures whole { result ≡ true → IsClosed narrow.now → IsWhole narrow.now }
{
    let _kinds = narrow.kinds();
    true
}

// The same of one that does not fit the narrow form.
fn is_large_whole(m: &Narrow<i128>) -> bool
    ensures whole { result ≡ true → IsClosed m.now → IsWhole m.now }
{
    dbm_narrow::is_near(m) || is_transitive(m)
}

//! Kept entries, rewritten in place or joined.
ghost use Rattle.std.specs.Prelude.{◌≡◌, ◌<◌, ◌≤◌, ◌+◌, ◌*◌, ◌/◌, ℕ, None, IfOk, cond, eqb, length, slice_index_or};
ghost use Rattle.dbm_core.specs.Half.{row_start, row_width};
ghost use Rattle.dbm_core.specs.Nodes.{IsOfSlot};
ghost use Rattle.dbm_core.specs.Operations.{lower_pair};
ghost use Rattle.dbm_core.specs.Weights.{greatest};

use crate::bounds::{greater, smaller};
use crate::nodes::{place, width};
use base_values::Memory;
use std::alloc::Global;

/// Gives each kept entry of this many slots the value that the closure makes of it.
pub fn update_kept<F: Fn(usize, usize, Option<i128>) -> Option<i128>>(
    entries: &mut [Option<i128>],
    slots: usize,
    value: F,
)
    requires few { slots ≤ 16 }
    requires size { length entries.old ≡ row_start (2 * slots) }
    requires callable { (i j : ℕ) → i < 2 * slots → j < row_width i →
        F.pre value i j (slice_index_or entries.old (row_start i + j) None) }
    ensures size { length entries.new ≡ length entries.old }
    ensures kept { (i j : ℕ) → i < 2 * slots → j < row_width i →
        F.post value i j (slice_index_or entries.old (row_start i + j) None)
        (slice_index_or entries.new (row_start i + j) None) }
{
    let mut at = 0;
    for i in 0..2 * slots {
        for j in 0..width(i) {
            let bound = entries[at];
            entries[at] = value(i, j, bound);
            at += 1;
        }
    }
}

// The first column of row i that has a node of the slot in its pair, where i is not before the slot.
fn first_column(slot: usize, i: usize) -> usize
    requires slot { slot < 16 }
    ensures first { result ≡ cond (eqb (i / 2) slot) 0 (2 * slot) }
{
    if i / 2 == slot { 0 } else { 2 * slot }
}

/// Gives each kept entry of a pair with a node of this slot the value that the closure makes of it.
pub fn update_slot_kept<F: Fn(usize, usize, Option<i128>) -> Option<i128>>(
    entries: &mut [Option<i128>],
    slots: usize,
    slot: usize,
    value: F,
)
    requires few { slots ≤ 16 }
    requires slot { slot < slots }
    requires size { length entries.old ≡ row_start (2 * slots) }
    requires callable { (i j : ℕ) → i < 2 * slots → j < row_width i → IsOfSlot slot i j →
        F.pre value i j (slice_index_or entries.old (row_start i + j) None) }
    ensures size { length entries.new ≡ length entries.old }
    ensures changed { (i j : ℕ) → i < 2 * slots → j < row_width i → IsOfSlot slot i j →
        F.post value i j (slice_index_or entries.old (row_start i + j) None)
        (slice_index_or entries.new (row_start i + j) None) }
    ensures rest { (i j : ℕ) → i < 2 * slots → j < row_width i → (IsOfSlot slot i j → ⊥) →
        slice_index_or entries.new (row_start i + j) None ≡ slice_index_or entries.old
        (row_start i + j) None }
{
    for i in 2 * slot..2 * slots {
        for j in first_column(slot, i)..2 * slot + 2 {
            let at = place(i, j);
            let bound = entries[at];
            entries[at] = value(i, j, bound);
        }
    }
}

/// The greater of the two bounds at each place.
pub fn greater_each(
    alloc: Global,
    left: &[Option<i128>],
    right: &[Option<i128>],
) -> Result<Vec<Option<i128>>, Memory>
    requires same_length { length right.now ≡ length left.now }
    ensures size { IfOk result (λ v. length v.items ≡ length left.now) }
    ensures greater { IfOk result (λ v. (p : ℕ) → slice_index_or v.items p None ≡
        greatest (slice_index_or left.now p None) (slice_index_or right.now p None)) }
{
    let mut joined = Vec::with_capacity(alloc, left.len())?;
    for (p, bound) in left.iter().enumerate() {
        joined.push(greater(*bound, right[p]))?;
    }
    Ok(joined)
}

/// Makes the entry of the pair (i, j), where it is kept, at most the bound.
pub fn lower_kept(entries: &mut [Option<i128>], i: usize, j: usize, bound: i128)
    requires row { i < 32 }
    requires room { j < row_width i → row_start i + j < length entries.old }
    ensures lowered { entries.new ≡ lower_pair entries.old i j bound }
{
    if j < width(i) {
        let at = place(i, j);
        entries[at] = smaller(entries[at], Some(bound));
    }
}

//! Joins, widenings, and slots that are forgotten.
ghost use Rattle.std.specs.Prelude.{◌≡◌, ◌^◌, ◌<◌, ◌≤◌, ◌+◌, ◌*◌, ◌⊎◌, ℕ, None, IfOk, cond, eqb, length};
ghost use Rattle.dbm_core.specs.Half.{HasEntries, entry, nodes};
ghost use Rattle.dbm_core.specs.Limits.{IsWithin, IsLimited};
ghost use Rattle.dbm_core.specs.Operations.{forgotten, joined, widened};
ghost use Rattle.dbm_core.specs.Rises.{rises};
ghost use Rattle.dbm_core.specs.Valuations.{Covers, Frees};

use crate::Matrix;
use crate::nodes::other_sign;
use crate::thresholds::widen_one;
use base_values::Memory;
use std::alloc::Global;

impl Matrix {
    /// The greater of the two bounds at each pair: what satisfies either matrix satisfies the join.
    pub fn join(&self, alloc: Global, other: &Matrix) -> Result<Matrix, Memory>
        requires same_kinds { other.now.kinds ≡ self.now.kinds }
        ensures entries { IfOk result (HasEntries self.now.kinds (joined self.now other.now)) }
        ensures covers_left { IfOk result (Covers self.now) }
        ensures covers_right { IfOk result (Covers other.now) }
        ensures limited { (b : ℕ) → IsLimited b self.now → IsLimited b other.now →
            IfOk result (IsLimited b) }
    {
        let _kinds = self.kinds();
        let _slots = other.kinds();
        self.joined_with(alloc, other)
    }

    /// The bounds on a slot dropped: the slot may then have any value. The diagonal stays.
    pub fn forget(&self, alloc: Global, slot: usize) -> Result<Matrix, Memory>
        ensures entries { IfOk result (HasEntries self.now.kinds
            (forgotten (entry self.now) slot)) }
        ensures frees { IfOk result (Frees self.now slot) }
        ensures limited { (b : ℕ) → IsLimited b self.now → IfOk result (IsLimited b) }
    {
        let _kinds = self.kinds();
        let mut matrix = self.copy(alloc)?;
        matrix.drop_bounds(slot);
        Ok(matrix)
    }

    // Drops the bounds on a slot, in place.
    fn drop_bounds(&mut self, slot: usize)
        ensures entries { HasEntries self.old.kinds (forgotten (entry self.old) slot) self.new }
    {
        if slot >= self.kinds().len() {
            return;
        }
        self.update_slot(
            slot,
            |i: usize, j: usize, bound: Option<i128>| -> Option<i128>
                ensures value { result ≡ cond (eqb i j) bound None }
            { if i == j { bound } else { None } },
        );
    }

    /// The widening of this matrix by another: neither is closed here.
    ///
    /// A bound stays where the other's is not greater. Any other bound becomes the least of the
    /// thresholds that is not less than the other's, and none where there is no such threshold; for a pair
    /// (i, i'), whose bound is on twice a slot's value, the thresholds are doubled. So each entry
    /// rises at most once for each threshold and once more, and never falls.
    pub fn widen(&self, alloc: Global, thresholds: &[i64], other: &Matrix) -> Result<Matrix, Memory>
        requires same_kinds { other.now.kinds ≡ self.now.kinds }
        ensures entries { IfOk result (HasEntries self.now.kinds
            (widened thresholds.now self.now other.now)) }
        ensures covers_left { IfOk result (Covers self.now) }
        ensures covers_right { IfOk result (Covers other.now) }
        ensures limited { IsLimited (2 ^ 64) self.now → IsLimited (2 ^ 64) other.now →
            IfOk result (IsLimited (2 ^ 64)) }
        ensures rises { IfOk result (λ m. (m ≡ self.now) ⊎
            (rises thresholds.now m < rises thresholds.now self.now)) }
        ensures few_rises { rises thresholds.now self.now ≤ nodes self.now
            * (nodes self.now * (length thresholds.now + 1)) }
    {
        let kinds = self.kinds();
        let _slots = other.kinds();
        Matrix::from_fn(
            alloc,
            kinds,
            |i: usize, j: usize| -> Option<i128>
                requires row { i < nodes self.now }
                requires column { j < nodes self.now }
                requires few { nodes self.now < 2 ^ 32 }
                requires same { other.now.kinds ≡ self.now.kinds }
                ensures value { result ≡ widened thresholds.entry.now self.entry.now other.entry.now
                    i j }
                ensures within { IsWithin (2 ^ 64) (entry self.entry.now i j) →
                    IsWithin (2 ^ 64) result }
            {
                widen_one(
                    thresholds,
                    j == other_sign(i),
                    self.get(i, j),
                    other.get(i, j),
                )
            },
        )
    }
}

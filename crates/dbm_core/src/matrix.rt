//! Matrices: their slots and entries.
ghost use Rattle.std.specs.Prelude.{◌≡◌, ◌<◌, ◌≤◌, ◌+◌, ◌*◌, ◌++◌, ℕ, ℤ, Option, Some, IfOk, length};
ghost use Rattle.std.specs.Hash as fed;
ghost use Rattle.std.specs.Cmp.{partial_equiv_from_equiv};
ghost use Rattle.dbm_core.specs.Half.{HasEntries, IsMatrix, entry, nodes, row_width};
ghost use Rattle.dbm_core.specs.Limits.{AreWithin, IsWithin, IsLimited, IsZeroAtMost};
ghost use Rattle.dbm_core.specs.Nodes.{IsOfSlot};
ghost use Rattle.dbm_core.specs.Operations.{joined, lowered, unbounded};
ghost use Rattle.dbm_core.specs.Same.{same_matrix, same_matrix-equiv, same_matrix-hash};
ghost use Rattle.dbm_core.specs.Valuations.{IsSatisfiedBy, AddsBound};

use crate::kept::{greater_each, lower_kept, update_kept, update_slot_kept};
use crate::nodes::{other_sign, place, width};
use base_values::Memory;
use std::alloc::Global;
use std::hash::{Hash, Hasher};
use std::marker::Model;

/// Bounds on the values of at most 16 slots, each an int or an array's length.
///
/// Its value is the list of kinds and the list of kept entries, whatever the capacity and the
/// allocator. The type's invariant: the number of kept entries is 2n(n + 1) for n slots, and a
/// slot's two diagonal entries are equal.
#[derive(Drop)]
pub struct Matrix {
    kinds: Vec<bool>,
    entries: Vec<Option<i128>>,
}

impl Model for Matrix {
    ghost use Rattle.dbm_core.specs.Half.{HalfMatrix, IsMatrix};

    ghost Value = { HalfMatrix };

    ghost view = { λ a. record { kinds = a.kinds.items; kept = a.entries.items } };

    ghost invariant = { λ a. IsMatrix (record { kinds = a.kinds.items; kept = a.entries.items }) };
}

/// Two matrices are equal where their kinds and their entries are.
impl PartialEq for Matrix {
    ghost eq = { same_matrix };

    ghost laws = { partial_equiv_from_equiv same_matrix-equiv };

    fn eq(&self, other: &Matrix) -> bool {
        self.kinds == other.kinds && self.entries == other.entries
    }
}

impl Eq for Matrix {
    ghost laws = { same_matrix-equiv };
}

impl Hash for Matrix {
    ghost hash_input = { λ m. fed.slice fed.bool m.kinds
        ++ fed.slice (fed.option fed.i128) m.kept };

    ghost respects_eq = { λ a b e. same_matrix-hash (λ m. fed.slice fed.bool m.kinds
        ++ fed.slice (fed.option fed.i128) m.kept) a b e };

    fn hash<H: Hasher>(&self, state: &mut H) {
        self.kinds.hash(state);
        self.entries.hash(state);
    }
}

impl Matrix {
    /// The matrix with no bounds but the diagonal's 0: every valuation satisfies it.
    ///
    /// `arrays[k]` says that slot k is an array's length.
    ///
    /// ```text
    /// let mut m = Matrix::new(alloc, &[false, false])?;
    /// m.set_least(1, 0, 10); // 2 x_0 <= 10
    /// m.set_least(0, 2, -1); // x_1 - x_0 <= -1
    /// ```
    pub fn new(alloc: Global, arrays: &[bool]) -> Result<Matrix, Memory>
        requires few_slots { length arrays.now ≤ 16 }
        ensures entries { IfOk result (HasEntries arrays.now unbounded) }
        ensures limited { IfOk result (IsLimited 0) }
        ensures free { IfOk result (λ m. (x : ℕ → ℤ) → IsSatisfiedBy m x) }
    {
        Matrix::from_fn(
            alloc,
            arrays,
            |i: usize, j: usize| -> Option<i128>
                ensures value { result ≡ unbounded i j }
            { if i == j { Some(0) } else { None } },
        )
    }

    /// The kinds of the slots: true for an array's length.
    pub fn kinds(&self) -> &[bool]
        ensures value { result.now ≡ self.now.kinds }
        ensures matrix { IsMatrix self.now }
    {
        self.kinds.as_slice()
    }

    /// The bound on `v_j - v_i`, `None` where there is none. It takes no memory.
    pub fn get(&self, i: usize, j: usize) -> Option<i128>
        requires row { i < nodes self.now }
        requires column { j < nodes self.now }
        ensures bound { result ≡ entry self.now i j }
    {
        let entries = self.entries.as_slice();
        if j < width(i) {
            entries[place(i, j)]
        } else {
            entries[place(other_sign(j), other_sign(i))]
        }
    }

    /// Makes the bound on `v_j - v_i`, which is that of the mirror image too, at most this one.
    /// It takes no memory.
    pub fn set_least(&mut self, i: usize, j: usize, bound: i128)
        requires row { i < nodes self.old }
        requires column { j < nodes self.old }
        ensures entries { HasEntries self.old.kinds (lowered (entry self.old) i j bound) self.new }
        ensures adds_bound { AddsBound self.old i j bound self.new }
        ensures diagonal { IsZeroAtMost (nodes self.old) (entry self.old) →
            IsZeroAtMost (nodes self.new) (entry self.new) }
        ensures within { (b : ℕ) → IsWithin b (Some bound) →
            AreWithin (nodes self.old) b (entry self.old) →
            AreWithin (nodes self.new) b (entry self.new) }
    {
        let entries = self.entries.as_mut_slice();
        lower_kept(entries, i, j, bound);
        lower_kept(entries, other_sign(j), other_sign(i), bound);
    }

    /// The matrix with the value that the closure gives for each kept pair.
    pub fn from_fn<F: Fn(usize, usize) -> Option<i128>>(
        alloc: Global,
        kinds: &[bool],
        value: F,
    ) -> Result<Matrix, Memory>
        requires few_slots { length kinds.now ≤ 16 }
        requires callable { (i j : ℕ) → i < 2 * length kinds.now → j < row_width i →
            F.pre value i j }
        requires diagonal { (h : ℕ) (a b : Option ℤ) → h < length kinds.now →
            F.post value (2 * h) (2 * h) a → F.post value (2 * h + 1) (2 * h + 1) b → a ≡ b }
        ensures matrix { IfOk result IsMatrix }
        ensures same_kinds { IfOk result (λ m. m.kinds ≡ kinds.now) }
        ensures kept { IfOk result (λ m. (i j : ℕ) → i < 2 * length kinds.now → j < row_width i →
            F.post value i j (entry m i j)) }
    {
        let own = Vec::from_slice(alloc, kinds)?;
        let slots = kinds.len();
        let mut entries: Vec<Option<i128>> = Vec::with_capacity(alloc, 2 * slots * (slots + 1))?;
        for i in 0..2 * slots {
            for j in 0..width(i) {
                entries.push(value(i, j))?;
            }
        }
        Ok(Matrix {
            kinds: own,
            entries,
        })
    }

    /// Gives each kept pair the bound that the closure makes of the pair and its old bound, in
    /// place. It takes no memory.
    pub fn update<F: Fn(usize, usize, Option<i128>) -> Option<i128>>(&mut self, value: F)
        requires callable { (i j : ℕ) → i < nodes self.old → j < row_width i →
            F.pre value i j (entry self.old i j) }
        requires diagonal { (h : ℕ) (a b : Option ℤ) → h < length self.old.kinds →
            F.post value (2 * h) (2 * h) (entry self.old (2 * h) (2 * h)) a →
            F.post value (2 * h + 1) (2 * h + 1) (entry self.old (2 * h + 1) (2 * h + 1)) b →
            a ≡ b }
        ensures matrix { IsMatrix self.new }
        ensures same_kinds { self.new.kinds ≡ self.old.kinds }
        ensures kept { (i j : ℕ) → i < nodes self.old → j < row_width i →
            F.post value i j (entry self.old i j) (entry self.new i j) }
    {
        let slots = self.kinds.len();
        let entries = self.entries.as_mut_slice();
        update_kept(entries, slots, value);
    }

    /// Gives each kept pair with a node of this slot the bound that the closure makes of the pair and
    /// its old bound, in place; the other entries stay. It takes no memory, and time for the slot's
    /// pairs alone.
    pub fn update_slot<F: Fn(usize, usize, Option<i128>) -> Option<i128>>(
        &mut self,
        slot: usize,
        value: F,
    )
        requires slot { slot < length self.old.kinds }
        requires callable { (i j : ℕ) → i < nodes self.old → j < row_width i → IsOfSlot slot i j →
            F.pre value i j (entry self.old i j) }
        requires diagonal { (a b : Option ℤ) → F.post value (2 * slot) (2 * slot)
            (entry self.old (2 * slot) (2 * slot)) a →
            F.post value (2 * slot + 1) (2 * slot + 1)
            (entry self.old (2 * slot + 1) (2 * slot + 1)) b → a ≡ b }
        ensures matrix { IsMatrix self.new }
        ensures same_kinds { self.new.kinds ≡ self.old.kinds }
        ensures changed { (i j : ℕ) → i < nodes self.old → j < row_width i → IsOfSlot slot i j →
            F.post value i j (entry self.old i j) (entry self.new i j) }
        ensures rest { (i j : ℕ) → i < nodes self.old → j < row_width i → (IsOfSlot slot i j → ⊥) →
            entry self.new i j ≡ entry self.old i j }
    {
        let slots = self.kinds.len();
        let entries = self.entries.as_mut_slice();
        update_slot_kept(entries, slots, slot, value);
    }

    /// The kept entries, row by row: those of row i are its columns up to the last node of i's slot.
    pub fn kept(&self) -> &[Option<i128>]
        ensures value { result.now ≡ self.now.kept }
        ensures matrix { IsMatrix self.now }
    {
        self.entries.as_slice()
    }

    /// The matrix with the greater of the two bounds at each pair.
    pub(crate) fn joined_with(&self, alloc: Global, other: &Matrix) -> Result<Matrix, Memory>
        requires same_kinds { other.now.kinds ≡ self.now.kinds }
        ensures matrix { IfOk result IsMatrix }
        ensures same_kinds { IfOk result (λ m. m.kinds ≡ self.now.kinds) }
        ensures entries { IfOk result (λ m. (i j : ℕ) → entry m i j ≡
            joined self.now other.now i j) }
    {
        let kinds = Vec::from_slice(alloc, self.kinds.as_slice())?;
        let entries = greater_each(alloc, self.entries.as_slice(), other.entries.as_slice())?;
        Ok(Matrix { kinds, entries })
    }

    /// The same matrix.
    pub fn copy(&self, alloc: Global) -> Result<Matrix, Memory>
        ensures same { IfOk result (λ m. m ≡ self.now) }
    {
        let kinds = Vec::from_slice(alloc, self.kinds.as_slice())?;
        let entries = Vec::from_slice(alloc, self.entries.as_slice())?;
        Ok(Matrix { kinds, entries })
    }
}

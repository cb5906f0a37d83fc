//! Matrices of entries of a width.
ghost use Rattle.std.specs.Prelude.{◌≡◌, ◌<◌, ◌*◌, IfOk};
ghost use Rattle.std.specs.Cmp.{partial_equiv_from_equiv};
ghost use Rattle.dbm_core.specs.Half.{IsMatrix, entry, nodes};
ghost use Rattle.dbm_core.specs.Limits.{AreWithin};
ghost use Rattle.dbm_core.specs.Same.{same_matrix, same_matrix-equiv, same_matrix-hash};
ghost use Rattle.dbm_narrow.specs.Feeding.{matrix_fed};

use crate::entries::wide_bound;
use crate::entry::Entry;
use crate::feeding::feed_entries;
use crate::kinds::Kinds;
use crate::rows::entry_at;
use crate::width::Width;
use base_values::Memory;
use std::alloc::Global;
use std::hash::{Hash, Hasher};
use std::marker::Model;

/// Bounds on the values of at most 16 slots, each an int or an array's length, within the limits of a
/// width: from -2^25 to 2^25 at `i32`, from -2^104 to 2^104 at `i128`.
///
/// Its value is that of the matrix of `dbm_core` with the same bounds.
#[derive(Drop)]
pub struct Narrow<W: Width> {
    pub(crate) kinds: Kinds,
    pub(crate) entries: Vec<Entry<W>>,
}

impl<W: Width> Model for Narrow<W> {
    ghost use Rattle.dbm_core.specs.Half.{HalfMatrix};
    ghost use Rattle.dbm_narrow.specs.Entries.{held};
    ghost use Rattle.dbm_narrow.specs.Rounds.{IsNarrow};

    ghost Value = { HalfMatrix };

    ghost view = { λ a. held W.unit a.kinds a.entries.items };

    ghost invariant = { λ a. IsNarrow W.unit a.kinds a.entries.items };
}

/// Two matrices are equal where their kinds and their entries are.
impl<W: Width> PartialEq for Narrow<W> {
    ghost eq = { same_matrix };

    ghost laws = { partial_equiv_from_equiv same_matrix-equiv };

    fn eq(&self, other: &Narrow<W>) -> bool {
        self.kinds.list() == other.kinds.list() && self.entries == other.entries
    }
}

impl<W: Width> Eq for Narrow<W> {
    ghost laws = { same_matrix-equiv };
}

impl<W: Width> Hash for Narrow<W> {
    ghost hash_input = { matrix_fed };

    ghost respects_eq = { same_matrix-hash matrix_fed };

    fn hash<H: Hasher>(&self, state: &mut H) {
        feed_entries(self.entries.as_slice(), state);
    }
}

impl<W: Width> Narrow<W> {
    /// The kinds of the slots: true for an array's length.
    pub fn kinds(&self) -> &[bool]
        ensures value { result.now ≡ self.now.kinds }
        ensures matrix { IsMatrix self.now }
        ensures within { AreWithin (nodes self.now) (2 * W.unit) (entry self.now) }
    {
        self.kinds.list()
    }

    /// The bound on `v_j - v_i`, `None` where there is none. It takes no memory.
    pub fn get(&self, i: usize, j: usize) -> Option<i128>
        requires row { i < nodes self.now }
        requires column { j < nodes self.now }
        ensures bound { result ≡ entry self.now i j }
    {
        wide_bound(entry_at(self.entries.as_slice(), self.kinds.list().len(), i, j))
    }

    /// The same matrix.
    pub fn copy(&self, alloc: Global) -> Result<Narrow<W>, Memory>
        ensures same { IfOk result (λ m. m ≡ self.now) }
    {
        let kinds = self.kinds.share()?;
        let entries = Vec::from_slice(alloc, self.entries.as_slice())?;
        Ok(Narrow { kinds, entries })
    }
}

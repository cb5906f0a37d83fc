//! The inputs of a cell that is to be filled.
ghost use Rattle.std.specs.Prelude.{◌≡◌, [], ◌∷◌, ◌++◌, length, IfOk, OnOk, OnErr};

use base_values::Memory;
use smallvec::SmallVec;
use std::alloc::Global;
use std::marker::Model;

/// The inputs of a cell that is to be filled, from left to right. Two take no memory.
#[derive(Drop)]
pub struct Inputs {
    pub(crate) cells: SmallVec<usize, 2>,
}

impl Model for Inputs {
    ghost use Rattle.std.specs.Prelude.{List, ℕ};

    ghost Value = { List ℕ };

    ghost view = { λ a. a.cells.items };
}

impl Inputs {
    /// No inputs. It takes no memory.
    #[inline]
    pub fn new(alloc: Global) -> Inputs
        ensures empty { result ≡ [] }
    {
        Inputs {
            cells: SmallVec::new(alloc),
        }
    }

    /// One input more, on the right.
    #[inline(always)]
    pub fn push(&mut self, cell: usize) -> Result<(), Memory>
        ensures added { OnOk result (self.new ≡ self.old ++ cell ∷ []) }
        ensures err { OnErr result (self.new ≡ self.old) }
    {
        self.cells.push(cell)?;
        Ok(())
    }

    /// The inputs, from left to right.
    #[inline]
    pub fn as_slice(&self) -> &[usize]
        ensures same { result.now ≡ self.now }
    {
        self.cells.as_slice()
    }

    /// How many there are.
    #[inline]
    pub fn len(&self) -> usize
        ensures count { result ≡ length self.now }
    {
        self.cells.len()
    }
}

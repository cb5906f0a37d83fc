//! The line that is being read.
ghost use Rattle.std.specs.Prelude.{◌≡◌, [], Some, OnOk, option_map};
ghost use Rattle.serve_script.specs.Lines.{grown};

use base_values::Memory;
use std::alloc::Global;
use std::marker::Model;

/// The most bytes of a line, without its LF.
const MOST_LINE: usize = 65536;

/// What came of a line so far, or only that it is too long.
#[derive(Drop)]
pub(crate) struct Pending {
    part: Vec<u8>,
    is_long: bool,
}

impl Model for Pending {
    ghost use Rattle.std.specs.Prelude.{ℕ, List, Option, Some, None, if◌then◌else◌};

    ghost Value = { Option (List ℕ) };

    ghost view = { λ p. if p.is_long then None else Some p.part.items };
}

impl Pending {
    /// Nothing came yet.
    pub(crate) fn new(alloc: Global) -> Pending
        ensures empty { result ≡ Some [] }
    {
        Pending {
            part: Vec::new(alloc),
            is_long: false,
        }
    }

    /// What came, where the line is not too long.
    pub(crate) fn part(&self) -> Option<&[u8]>
        ensures part { option_map (λ part. part.now) result ≡ self.now }
    {
        if self.is_long {
            None
        } else {
            Some(self.part.as_slice())
        }
    }

    /// One byte more came. Of a line that is too long nothing is kept.
    pub(crate) fn push(&mut self, byte: u8) -> Result<(), Memory>
        ensures grown { OnOk result (self.new ≡ grown self.old byte) }
    {
        if self.is_long {
            return Ok(());
        }
        if self.part.len() < MOST_LINE {
            self.part.push(byte)?;
            return Ok(());
        }
        self.part.clear();
        self.is_long = true;
        Ok(())
    }

    /// The line ended.
    pub(crate) fn clear(&mut self)
        ensures empty { self.new ≡ Some [] }
    {
        self.part.clear();
        self.is_long = false;
    }
}

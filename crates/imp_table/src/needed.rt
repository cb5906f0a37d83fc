//! Pages that changes need.
ghost use Rattle.std.specs.Prelude.{ℕ, ◌≡◌, ◌/◌, [], OnOk};
ghost use Rattle.imp_table.specs.Pages.{AreNeeded, IsNeeded};

use crate::change::Change;
use crate::page::PAGE;
use base_values::Memory;
use std::alloc::Global;
use std::marker::Model;

/// Which pages of a table some changes need, seen as a flag for each page.
#[derive(Drop)]
pub struct NeededPages {
    flags: Vec<bool>,
}

impl Model for NeededPages {
    ghost use Rattle.std.specs.Prelude.{List, Bool};
    ghost use Rattle.std.specs.Coded.{coded_list, coded_bool};

    ghost Value = { List Bool };

    ghost coded = { coded_list coded_bool };

    ghost view = { λ a. a.flags.items };
}

impl NeededPages {
    /// No pages.
    pub fn none(alloc: Global) -> NeededPages
        ensures is { result ≡ [] }
    {
        NeededPages {
            flags: Vec::new(alloc),
        }
    }

    /// Adds the pages of a change's numbers. It fails only when memory runs out.
    pub fn add(&mut self, change: &Change) -> Result<(), Memory>
        ensures added { OnOk result (AreNeeded self.new change.now.entries.items) }
        ensures still { (n : ℕ) → IsNeeded self.old n → IsNeeded self.new n }
    {
        for put in change.entries.as_slice() {
            flag(&mut self.flags, put.number as usize / PAGE)?;
        }
        Ok(())
    }

    /// The flags.
    pub(crate) fn flags(&self) -> &[bool]
        ensures are { result.now ≡ self.now }
    {
        self.flags.as_slice()
    }
}

/// Sets the flag of a page.
fn flag(flags: &mut Vec<bool>, page: usize) -> Result<(), Memory>
    ensures flagged { OnOk result ((n : ℕ) → n / 64 ≡ page → IsNeeded flags.new.items n) }
    ensures still { (n : ℕ) → IsNeeded flags.old.items n → IsNeeded flags.new.items n }
{
    while flags.len() <= page {
        flags.push(false)?;
    }
    flags[page] = true;
    Ok(())
}

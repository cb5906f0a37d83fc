//! A place of a table of statements.
ghost use Rattle.std.specs.Prelude.{◌≡◌, IfOk, Some, None};
ghost use Rattle.std.specs.Option.{option_copied};

use crate::entry::Entry;
use base_values::Memory;
use std::alloc::Global;
use std::marker::Model;

/// A place of a table, seen as the entry that stands there, or `None`.
#[derive(Drop)]
pub struct TableSlot {
    entry: Option<Box<Entry>>,
}

impl Model for TableSlot {
    ghost use Rattle.std.specs.Prelude.{Option};
    ghost use Rattle.std.specs.Option.{option_map};
    ghost use Rattle.std.specs.Box.{box_value};
    ghost use Rattle.imp_check.specs.declared.entry.Entry.{Entry};

    ghost Value = { Option Entry };

    ghost use Rattle.std.specs.Coded.{coded_option};
    ghost use Rattle.imp_check.specs.contracts.entry.Entry.{the_row};

    ghost coded = { coded_option the_row.coded };

    ghost view = { λ a. option_map box_value a.entry };
}

impl TableSlot {
    /// A place where nothing stands. It takes no memory.
    pub fn free() -> TableSlot
        ensures is { result ≡ None }
    {
        TableSlot { entry: None }
    }

    /// A place where this entry stands. It fails only when memory runs out.
    pub fn of(alloc: Global, entry: Entry) -> Result<TableSlot, Memory>
        ensures is { IfOk result (λ place. place ≡ Some entry) }
    {
        let entry = Box::new(alloc, entry)?;
        Ok(TableSlot { entry: Some(entry) })
    }

    /// What stands here.
    pub fn entry(&self) -> Option<&Entry>
        ensures is { option_copied result ≡ self.now }
    {
        match &self.entry {
            Some(entry) => Some(entry),
            None => None,
        }
    }
}

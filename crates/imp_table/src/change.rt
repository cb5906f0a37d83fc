//! What an edit changes of a table of statements.
ghost use Rattle.std.specs.Prelude.{◌≡◌, unwrap_or, option_map};

use base_values::Items;
use imp_check::{ProcHeader, TableSlot};
use imp_syntax::StmtId;

/// What comes at a number.
#[derive(Drop)]
pub struct Put {
    pub number: u32,
    /// The entry that comes, or none where the statement goes.
    pub entry: TableSlot,
}

/// A change of a program by the numbers of its statements.
#[derive(Drop)]
pub struct Change {
    /// The entries that come or go, those of greater numbers first. Each number stands once.
    pub entries: Vec<Put>,
    /// The procedures, or `None` where they stay.
    pub heads: Option<Items<ProcHeader>>,
    /// How many statements the program then has.
    pub count: u32,
    /// The call statements of each procedure, or `None` where they stay.
    pub sites: Option<Items<Items<StmtId>>>,
}

/// Exchanges a list for another one, if there is one.
pub(crate) fn exchange_list<T>(list: &mut Items<T>, other: &mut Option<Items<T>>)
    ensures after { list.new ≡ unwrap_or other.old list.old }
    ensures back { other.new ≡ option_map (λ _. list.old) other.old }
{
    match other {
        Some(other) => std::mem::swap(list, other),
        None => {}
    }
}

/// This list, or else another one.
pub(crate) fn list_or<'a, T>(list: &'a Option<Items<T>>, other: &'a [T]) -> &'a [T]
    ensures is { result.now ≡ unwrap_or list.now other.now }
{
    match list {
        Some(list) => list.as_slice(),
        None => other,
    }
}

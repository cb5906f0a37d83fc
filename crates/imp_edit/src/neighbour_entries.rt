//! The entries that change where statements come at a place of a block, or others go.
ghost use Rattle.std.specs.Prelude.{◌≡◌, ℕ, ◌<◌, [], Option, cond, IfOk, OnOk, None, Some, true};
ghost use Rattle.std.specs.List.{All};
ghost use Rattle.std.specs.Option.{option_map};
ghost use Rattle.imp_syntax.specs.Plain.{Statements};
ghost use Rattle.imp_table.specs.Changes.{AreFalling, AreWithin, overlay};
ghost use Rattle.imp_check.specs.Entries.{block_entries, entries_of, entry_of, resolver_at};
ghost use Rattle.imp_check.specs.Faults.{first};
ghost use Rattle.imp_check.specs.Parts.{first_or, last_or};
ghost use Rattle.imp_check.specs.Programs.{has};
ghost use Rattle.imp_check.specs.declared.entry.BlockEnds.{BlockEnds};
ghost use Rattle.imp_check.specs.declared.entry.Entry.{Entry};
ghost use Rattle.edit_entries.specs.Gaps.{ends_in, ends_with, held_in, holder_of, with_ends};
ghost use Rattle.edit_entries.specs.Spliced.{is, rebroken, with_front, with_next};
ghost use Rattle.edit_breaks.specs.Breaks.{loop_breaks};
ghost use Rattle.edit_breaks.specs.Bounds.{IsBelow};
ghost use Rattle.imp_edit.specs.Gaps.{AreBelow, entries_with};

use crate::blocks::{first_or, last_or};
use base_values::Memory;
use edit_breaks::{Gap, entry_again, loop_puts, put_at, rebroken};
use imp_check::{Around, BlockEnds, Entry, ProcHeader, TableSlot, Which};
use imp_syntax::{Block, StmtId};
use imp_table::{Put, Table};
use std::alloc::Global;

/// The ends of a block, once these statements stand at a place of it.
pub(crate) fn ends_with(gap: &Gap, news: &Block, ends: BlockEnds) -> BlockEnds
    ensures is { result ≡ ends_with gap.now.front gap.now.next news.now ends }
{
    let first = match gap.front {
        Some(_) => ends.first,
        None => first_or(news, gap.next),
    };
    let last = match gap.next {
        Some(_) => ends.last,
        None => last_or(news, gap.front),
    };
    BlockEnds { first, last }
}

/// What stands at a number, with another statement after it.
fn with_next(
    alloc: Global,
    table: &Table,
    number: StmtId,
    next: Option<StmtId>,
) -> Result<TableSlot, Memory>
    ensures is { IfOk result (λ place. place ≡ option_map (with_next next)
        (entry_of (entries_of table.now.program) number)) }
{
    match table.entry(number) {
        Some(entry) => {
            let mut entry = entry_again(entry)?;
            entry.next = next;
            TableSlot::of(alloc, entry)
        }
        None => Ok(TableSlot::free()),
    }
}

/// What stands at a number, with another statement before it.
fn with_front(
    alloc: Global,
    table: &Table,
    number: StmtId,
    front: Option<StmtId>,
) -> Result<TableSlot, Memory>
    ensures is { IfOk result (λ place. place ≡ option_map (with_front front)
        (entry_of (entries_of table.now.program) number)) }
{
    match table.entry(number) {
        Some(entry) => {
            let mut entry = entry_again(entry)?;
            entry.front = front;
            TableSlot::of(alloc, entry)
        }
        None => Ok(TableSlot::free()),
    }
}

/// A statement with the ends of one of its blocks as they then are.
fn with_ends(entry: Entry, which: Which, gap: &Gap, news: &Block) -> Entry
    ensures is { result ≡ with_ends which (ends_with gap.now.front gap.now.next news.now
        (ends_in which entry)) entry }
{
    let mut entry = entry;
    match which {
        Which::Then => entry.inner = ends_with(gap, news, entry.inner),
        Which::Else => entry.other = ends_with(gap, news, entry.other),
        Which::Body => entry.inner = ends_with(gap, news, entry.inner),
    }
    entry
}

/// What stands at the number of the statement that has the block, with the ends of the block as they then are and
/// the breaks that there then are.
fn holding(
    alloc: Global,
    table: &Table,
    around: Around,
    gap: &Gap,
    news: &Block,
) -> Result<TableSlot, Memory>
    ensures is { IfOk result (λ place. place ≡ option_map
        (held_in (Some around) (ends_with gap.now.front gap.now.next news.now))
        (rebroken gap.now.context.head (loop_breaks table.now.program gap.now news.now)
        (entry_of (entries_of table.now.program)) around.stmt)) }
{
    match rebroken(alloc, table, gap, news, around.stmt)? {
        Some(entry) => TableSlot::of(alloc, with_ends(entry, around.which, gap, news)),
        None => Ok(TableSlot::free()),
    }
}

/// Whether the ends of the block stay, whatever comes.
pub(crate) fn ends_stay(gap: &Gap) -> bool
    ensures stay { result ≡ true → (news : Statements) (ends : BlockEnds) →
        ends_with gap.now.front gap.now.next news ends ≡ ends }
{
    gap.front.is_some() && gap.next.is_some()
}

/// The changes of the loop around the place and of the statement that has the block.
fn around_puts(alloc: Global, table: &Table, gap: &Gap, news: &Block) -> Result<Vec<Put>, Memory>
    ensures are { IfOk result (λ puts. (m : ℕ) → overlay puts.items
        (entry_of (entries_of table.now.program)) m ≡
        cond (is (holder_of gap.now.context.around) m)
        (option_map (held_in gap.now.context.around (ends_with gap.now.front gap.now.next
        news.now)) (rebroken gap.now.context.head (loop_breaks table.now.program gap.now
        news.now) (entry_of (entries_of table.now.program)) m))
        (rebroken gap.now.context.head (loop_breaks table.now.program gap.now news.now)
        (entry_of (entries_of table.now.program)) m)) }
    ensures falling { IfOk result (λ puts. AreFalling puts.items) }
    ensures within { IfOk result (λ puts. (b : ℕ) → IsBelow b gap.now.context.head →
        IsBelow b (holder_of gap.now.context.around) → AreWithin b puts.items) }
{
    let mut puts = loop_puts(alloc, table, gap, news)?;
    if ends_stay(gap) {
        return Ok(puts);
    }
    match gap.context.around {
        Some(around) => {
            let stmt = around.stmt;
            let place = holding(alloc, table, around, gap, news)?;
            put_at(&mut puts, stmt, place)?;
            Ok(puts)
        }
        None => Ok(puts),
    }
}

/// Puts the statement after the place.
fn put_next(
    alloc: Global,
    table: &Table,
    gap: &Gap,
    news: &Block,
    puts: &mut Vec<Put>,
) -> Result<(), Memory>
    requires falling { AreFalling puts.old.items }
    ensures is { OnOk result ((m : ℕ) → overlay puts.new.items
        (entry_of (entries_of table.now.program)) m ≡
        cond (is gap.now.next m) (option_map (with_front (last_or news.now gap.now.front))
        (entry_of (entries_of table.now.program) m))
        (overlay puts.old.items (entry_of (entries_of table.now.program)) m)) }
    ensures falling { OnOk result (AreFalling puts.new.items) }
    ensures within { OnOk result ((b : ℕ) → IsBelow b gap.now.next → AreWithin b puts.old.items →
        AreWithin b puts.new.items) }
{
    match gap.next {
        Some(next) => {
            let place = with_front(alloc, table, next, last_or(news, gap.front))?;
            put_at(puts, next, place)
        }
        None => Ok(()),
    }
}

/// Puts the statement before the place.
fn put_front(
    alloc: Global,
    table: &Table,
    gap: &Gap,
    news: &Block,
    puts: &mut Vec<Put>,
) -> Result<(), Memory>
    requires falling { AreFalling puts.old.items }
    ensures is { OnOk result ((m : ℕ) → overlay puts.new.items
        (entry_of (entries_of table.now.program)) m ≡
        cond (is gap.now.front m) (option_map (with_next (first_or news.now gap.now.next))
        (entry_of (entries_of table.now.program) m))
        (overlay puts.old.items (entry_of (entries_of table.now.program)) m)) }
    ensures falling { OnOk result (AreFalling puts.new.items) }
    ensures within { OnOk result ((b : ℕ) → IsBelow b gap.now.front → AreWithin b puts.old.items →
        AreWithin b puts.new.items) }
{
    match gap.front {
        Some(front) => {
            let place = with_next(alloc, table, front, first_or(news, gap.next))?;
            put_at(puts, front, place)
        }
        None => Ok(()),
    }
}

/// Puts the statements that come, the last one first.
fn put_come(alloc: Global, entries: Vec<Entry>, puts: &mut Vec<Put>) -> Result<(), Memory>
    requires falling { AreFalling puts.old.items }
    ensures is { OnOk result ((at : ℕ → Option Entry) (m : ℕ) →
        overlay puts.new.items at m ≡ first (entry_of entries.items m)
        (overlay puts.old.items at m)) }
    ensures falling { OnOk result (AreFalling puts.new.items) }
    ensures within { OnOk result ((b : ℕ) → All (λ (e : Entry). e.number < b) entries.items →
        AreWithin b puts.old.items → AreWithin b puts.new.items) }
{
    let mut entries = entries;
    while let Some(entry) = entries.pop() {
        let number = entry.number;
        let place = TableSlot::of(alloc, entry)?;
        put_at(puts, number, place)?;
    }
    Ok(())
}

/// Takes away the statements that go, the last one first.
fn put_gone(gone: &[StmtId], puts: &mut Vec<Put>) -> Result<(), Memory>
    requires falling { AreFalling puts.old.items }
    ensures is { OnOk result ((at : ℕ → Option Entry) (m : ℕ) →
        overlay puts.new.items at m ≡ cond (has gone.now m) None
        (overlay puts.old.items at m)) }
    ensures falling { OnOk result (AreFalling puts.new.items) }
    ensures within { OnOk result ((b : ℕ) → All (λ (n : ℕ). n < b) gone.now →
        AreWithin b puts.old.items → AreWithin b puts.new.items) }
{
    for i in (0..gone.len()).rev() {
        put_at(puts, gone[i], TableSlot::free())?;
    }
    Ok(())
}

/// All entries that change, where these come. It takes time in proportion to those that come and go, to the breaks of the
/// loop around them for each of those that go, and, where a break comes to a loop that keeps others, to the statements of
/// that loop before the place.
pub(crate) fn puts_of(
    alloc: Global,
    table: &Table,
    head: &ProcHeader,
    gap: &Gap,
    news: &Block,
    entries: Vec<Entry>,
) -> Result<Vec<Put>, Memory>
    requires come { entries.items ≡ block_entries (resolver_at [] head.now.bare) gap.now.context
        gap.now.front gap.now.next news.now }
    ensures are { IfOk result (λ puts. (m : ℕ) → overlay puts.items
        (entry_of (entries_of table.now.program)) m ≡
        entries_with table.now.program head.now gap.now news.now m) }
    ensures within { IfOk result (λ puts. (b : ℕ) → AreBelow b gap.now news.now →
        AreWithin b puts.items) }
{
    let mut puts = around_puts(alloc, table, gap, news)?;
    put_next(alloc, table, gap, news, &mut puts)?;
    put_front(alloc, table, gap, news, &mut puts)?;
    put_come(alloc, entries, &mut puts)?;
    put_gone(gap.gone.as_slice(), &mut puts)?;
    Ok(puts)
}

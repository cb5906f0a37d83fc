//! The breaks of the loop around a place, where statements come and go.
ghost use Rattle.std.specs.Prelude.{◌≡◌, ◌++◌, ℕ, suc, IfOk, OnOk, Option, Some, None, false, true};
ghost use Rattle.std.specs.Option.{option_copied, option_map};
ghost use Rattle.imp_table.specs.Changes.{AreFalling, AreWithin, overlay};
ghost use Rattle.imp_check.specs.Entries.{entries_of, entry_of};
ghost use Rattle.imp_check.specs.Parts.{leaving};
ghost use Rattle.imp_check.specs.Programs.{has, program_count};
ghost use Rattle.edit_entries.specs.Spliced.{among, breaking, is, left_of, rebroken};
ghost use Rattle.edit_breaks.specs.Bounds.{IsBelow};
ghost use Rattle.edit_breaks.specs.Breaks.{breaks_with, front_count, loop_breaks};

use crate::closed::are_closed;
use crate::copies::entry_again;
use crate::gap::Gap;
use crate::leaving::front_count;
use crate::puts::put_at;
use base_values::{Items, Memory};
use imp_check::{Entry, TableSlot, add_leaving};
use imp_syntax::{Block, StmtId};
use imp_table::{Put, Table};
use std::alloc::Global;

/// Whether a number is one of these.
fn has(numbers: &[StmtId], number: StmtId) -> bool
    ensures is { result ≡ has numbers.now number }
{
    for other in numbers {
        if *other == number {
            return true;
        }
    }
    false
}

/// The breaks that are left where these statements go. It takes time in proportion to the breaks and to the statements
/// for each.
fn left_of(alloc: Global, gone: &[StmtId], breaks: &[StmtId]) -> Result<Items<StmtId>, Memory>
    ensures are { IfOk result (λ left. left ≡ left_of gone.now breaks.now) }
{
    let mut left = Items::new(alloc);
    for number in breaks {
        if !has(gone, *number) {
            left.push(*number)?;
        }
    }
    Ok(left)
}

/// Adds numbers.
fn add_all(numbers: &[StmtId], all: &mut Items<StmtId>) -> Result<(), Memory>
    ensures added { OnOk result (all.new ≡ all.old ++ numbers.now) }
{
    for number in numbers {
        all.push(*number)?;
    }
    Ok(())
}

/// How many of the breaks that are left stand before those that come, where any are left and any come. Then it takes
/// time in proportion to the statements of the loop before the place.
fn count_before(
    alloc: Global,
    table: &Table,
    gap: &Gap,
    news: &Block,
    left: &[StmtId],
) -> Result<usize, Memory>
    ensures is { IfOk result (λ before. among before (leaving news.now) left.now ≡
        among (front_count (entry_of (entries_of table.now.program))
        (suc (program_count table.now.program)) gap.now.context.around gap.now.front)
        (leaving news.now) left.now) }
{
    if left.is_empty() {
        return Ok(0);
    }
    if are_closed(false, news) {
        return Ok(0);
    }
    front_count(alloc, table, gap)
}

/// The breaks that a loop around the place then has: those of before, without those that go, and among them, where they
/// come, those that leave what comes.
fn breaks_with(
    alloc: Global,
    table: &Table,
    gap: &Gap,
    news: &Block,
    entry: &Entry,
) -> Result<Items<StmtId>, Memory>
    ensures are { IfOk result (λ breaks. breaks ≡ breaks_with table.now.program gap.now news.now
        entry.now) }
{
    let left = left_of(alloc, gap.gone.as_slice(), entry.breaks.as_slice())?;
    let left = left.as_slice();
    let before = count_before(alloc, table, gap, news, left)?.min(left.len());
    let mut breaks = Items::new(alloc);
    add_all(&left[..before], &mut breaks)?;
    add_leaving(news, &mut breaks)?;
    add_all(&left[before..], &mut breaks)?;
    Ok(breaks)
}

/// A copy of what is known of the loop around the place, with the breaks that it then has.
fn breaking(
    alloc: Global,
    table: &Table,
    gap: &Gap,
    news: &Block,
    entry: &Entry,
) -> Result<Entry, Memory>
    ensures is { IfOk result (λ copy. copy ≡ breaking (breaks_with table.now.program gap.now
        news.now entry.now) entry.now) }
{
    let mut copy = entry_again(entry)?;
    copy.breaks = breaks_with(alloc, table, gap, news, entry)?;
    Ok(copy)
}

fn is(loop_around: Option<StmtId>, number: StmtId) -> bool
    ensures is { result ≡ is loop_around number }
{
    match loop_around {
        Some(head) => head == number,
        None => false,
    }
}

/// A copy of what is known of a statement, with the breaks that there then are where it is the loop around the place.
///
/// # Errors
///
/// [`Memory`] alone.
#[tactic(auto, using(crate::proofs::BreakLemmas::loop_breaks_is))]
pub fn rebroken(
    alloc: Global,
    table: &Table,
    gap: &Gap,
    news: &Block,
    number: StmtId,
) -> Result<Option<Entry>, Memory>
    ensures is { IfOk result (λ entry. entry ≡ rebroken gap.now.context.head
        (loop_breaks table.now.program gap.now news.now)
        (entry_of (entries_of table.now.program)) number) }
{
    match table.entry(number) {
        Some(entry) => {
            if is(gap.context.head, number) {
                Ok(Some(breaking(alloc, table, gap, news, entry)?))
            } else {
                Ok(Some(entry_again(entry)?))
            }
        }
        None => Ok(None),
    }
}

/// Whether a loop has breaks that go.
fn loses(entry: &Entry, gone: &[StmtId]) -> bool
    ensures stays { result ≡ false → left_of gone.now entry.now.breaks ≡ entry.now.breaks }
{
    for number in entry.breaks.as_slice() {
        if has(gone, *number) {
            return true;
        }
    }
    false
}

/// Whether the breaks of a loop stay: none of them goes, and none leaves what comes.
#[tactic(auto, using(edit_entries::proofs::Closed::closed_leaving, edit_entries::proofs::Breaks::among_none))]
fn breaks_stay(gap: &Gap, news: &Block, entry: &Entry) -> bool
    ensures stay { result ≡ true → (before : ℕ) → among before (leaving news.now)
        (left_of gap.now.gone entry.now.breaks) ≡ entry.now.breaks }
{
    are_closed(false, news) && !loses(entry, gap.gone.as_slice())
}

/// The change of the loop around the place, if there is one and its breaks do not stay. It takes time in proportion to what
/// comes and, for each statement that goes, to the breaks of the loop, and, where breaks come and others stay, to the
/// statements of the loop before the place.
///
/// # Errors
///
/// [`Memory`] alone.
#[tactic(auto, using(crate::proofs::PutLemmas::none_fall, crate::proofs::PutLemmas::none_within, crate::proofs::BreakLemmas::same_breaks))]
pub fn loop_puts(alloc: Global, table: &Table, gap: &Gap, news: &Block) -> Result<Vec<Put>, Memory>
    ensures are { IfOk result (λ puts. (m : ℕ) → overlay puts.items
        (entry_of (entries_of table.now.program)) m ≡ rebroken gap.now.context.head
        (loop_breaks table.now.program gap.now news.now)
        (entry_of (entries_of table.now.program)) m) }
    ensures falling { IfOk result (λ puts. AreFalling puts.items) }
    ensures within { IfOk result (λ puts. (b : ℕ) → IsBelow b gap.now.context.head →
        AreWithin b puts.items) }
{
    let Some(head) = gap.context.head else {
        return Ok(Vec::new(alloc));
    };
    let Some(entry) = table.entry(head) else {
        return Ok(Vec::new(alloc));
    };
    if breaks_stay(gap, news, entry) {
        return Ok(Vec::new(alloc));
    }
    let place = TableSlot::of(alloc, breaking(alloc, table, gap, news, entry)?)?;
    let mut puts = Vec::new(alloc);
    put_at(&mut puts, head, place)?;
    Ok(puts)
}

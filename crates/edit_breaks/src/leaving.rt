//! The breaks of the loop around a place that stand before it, found from one statement to the next.
ghost use Rattle.std.specs.Prelude.{◌≡◌, ◌+◌, ◌++◌, length, suc, IfOk, OnOk};
ghost use Rattle.std.specs.Option.{option_copied};
ghost use Rattle.imp_check.specs.Entries.{entries_of, entry_of};
ghost use Rattle.imp_check.specs.Programs.{program_count};
ghost use Rattle.imp_check.specs.Rebuilt.{next_in};
ghost use Rattle.edit_breaks.specs.Breaks.{above, front_count, leaving_from, leaving_part, passed, unless_body};

use crate::gap::Gap;
use base_values::{Items, Memory};
use imp_check::{Around, Context, Entry, Which};
use imp_syntax::{StmtId, StmtNode};
use imp_table::Table;
use std::alloc::Global;

/// What stands at a number, if so many more statements there are.
pub fn next_in(table: &Table, most: u32, at: Option<StmtId>) -> Option<&Entry>
    ensures is { option_copied result ≡ next_in (entry_of (entries_of table.now.program)) most at }
{
    if most == 0 {
        return None;
    }
    match at {
        Some(id) => table.entry(id),
        None => None,
    }
}

/// Adds the breaks that leave the loop around the block whose first statement has this number. `most` is more than there
/// are statements.
#[cycle(leaving)]
#[tactic(auto, using(imp_check::proofs::StepLemmas::step_some, crate::proofs::BreakLemmas::leaving_step, crate::proofs::BreakLemmas::leaving_none))]
fn add_leaving_from(
    table: &Table,
    most: u32,
    first: Option<StmtId>,
    found: &mut Items<StmtId>,
) -> Result<(), Memory>
    ensures added { OnOk result (found.new ≡ found.old ++ leaving_from
        (entry_of (entries_of table.now.program)) most first) }
{
    let mut left = most;
    let mut at = first;
    while let Some(entry) = next_in(table, left, at) {
        left -= 1;
        add_leaving_part(table, left, entry, found)?;
        at = entry.next;
    }
    Ok(())
}

/// Adds those of a statement.
#[cycle(leaving)]
fn add_leaving_part(
    table: &Table,
    most: u32,
    entry: &Entry,
    found: &mut Items<StmtId>,
) -> Result<(), Memory>
    ensures added { OnOk result (found.new ≡ found.old ++ leaving_part
        (leaving_from (entry_of (entries_of table.now.program)) most) entry.now
        entry.now.part) }
{
    match entry.part.node() {
        StmtNode::Break => found.push(entry.number),
        StmtNode::If(_, _, _) => {
            add_leaving_from(table, most, entry.inner.first, found)?;
            add_leaving_from(table, most, entry.other.first, found)
        }
        StmtNode::Simple(_) | StmtNode::Call(_) | StmtNode::While(_, _) => Ok(()),
    }
}

/// The statement that has a block, if that is no loop.
fn holder(table: &Table, around: Around) -> Option<&Entry>
    ensures is { option_copied result ≡ unless_body around.which
        (entry_of (entries_of table.now.program) around.stmt) }
{
    match around.which {
        Which::Then | Which::Else => table.entry(around.stmt),
        Which::Body => None,
    }
}

/// The statement before a place, or else the one that has its block, if that is no loop; `None` too if no more
/// statements there are.
fn above<'a>(
    table: &'a Table,
    most: u32,
    context: &Context,
    front: &Option<StmtId>,
) -> Option<&'a Entry>
    ensures is { option_copied result ≡ above (entry_of (entries_of table.now.program)) most
        context.now.around front.now }
{
    if most == 0 {
        return None;
    }
    match front {
        Some(id) => table.entry(*id),
        None => match context.around {
            Some(around) => holder(table, around),
            None => None,
        },
    }
}

/// Adds the breaks of that statement that stand before the place.
fn add_passed(
    table: &Table,
    most: u32,
    context: &Context,
    front: &Option<StmtId>,
    entry: &Entry,
    found: &mut Items<StmtId>,
) -> Result<(), Memory>
    ensures added { OnOk result (found.new ≡ found.old ++ passed
        (leaving_from (entry_of (entries_of table.now.program)) most) context.now.around
        front.now entry.now) }
{
    if front.is_some() {
        return add_leaving_part(table, most, entry, found);
    }
    match context.around {
        Some(around) => match around.which {
            Which::Else => add_leaving_from(table, most, entry.inner.first, found),
            Which::Then | Which::Body => Ok(()),
        },
        None => Ok(()),
    }
}

/// Adds the breaks of the loop around a place that stand before it, in some order.
#[tactic(auto, using(imp_check::proofs::FewLemmas::few_statements, crate::proofs::BreakLemmas::above_some, crate::proofs::BreakLemmas::count_step, crate::proofs::BreakLemmas::count_none))]
fn add_front(table: &Table, gap: &Gap, found: &mut Items<StmtId>) -> Result<(), Memory>
    ensures counted { OnOk result (length found.new ≡ length found.old
        + front_count (entry_of (entries_of table.now.program))
        (suc (program_count table.now.program)) gap.now.context.around gap.now.front) }
{
    table.procs();
    let mut left = table.view().count() + 1;
    let mut context = &gap.context;
    let mut front = &gap.front;
    while let Some(entry) = above(table, left, context, front) {
        left -= 1;
        add_passed(table, left, context, front, entry, found)?;
        context = &entry.context;
        front = &entry.front;
    }
    Ok(())
}

/// How many breaks of the loop around a place stand before it. It takes time in proportion to the statements of the
/// loop that stand there.
pub(crate) fn front_count(alloc: Global, table: &Table, gap: &Gap) -> Result<usize, Memory>
    ensures is { IfOk result (λ count. count ≡ front_count (entry_of (entries_of table.now.program))
        (suc (program_count table.now.program)) gap.now.context.around gap.now.front) }
{
    let mut found = Items::new(alloc);
    add_front(table, gap, &mut found)?;
    Ok(found.len())
}

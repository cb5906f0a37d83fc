//! The change that puts statements at a place of a block, and takes away what goes.
ghost use Rattle.std.specs.Prelude.{◌≡◌, ◌+◌, ◌<◌, [], length, unwrap_or, IfOk, IfErr, None, true};
ghost use Rattle.std.specs.Option.{option_map};
ghost use Rattle.imp_slots.specs.Fits.{FitsCode};
ghost use Rattle.imp_check.specs.Entries.{resolver_at, heads_of};
ghost use Rattle.imp_check.specs.Names.{variables};
ghost use Rattle.imp_check.specs.Programs.{last_of, name_of, nesting, variables_fault};
ghost use Rattle.imp_check.specs.Slots.{code_in, layout_in};
ghost use Rattle.edit_entries.specs.Gaps.{are_quiet, ends_with, head_with, heads_in};
ghost use Rattle.imp_edit.specs.declared.error.EditError.TheVariants.{Fault as refused_by};
ghost use Rattle.imp_edit.specs.Gaps.{IsSplice, count_with, size_fault, splice_fault};
ghost use Rattle.imp_edit.specs.Refusals.{IsRefusal};

use crate::error::EditError;
use crate::neighbour_entries::{ends_stay, ends_with, puts_of};
use crate::new_entries::entries_of;
use base_values::{Items, Memory, Text};
use edit_breaks::Gap;
use imp_check::{Fault, LocatedFault, ProcHeader, block_count, nesting};
use imp_syntax::Block;
use imp_table::{Change, Table};
use std::alloc::Global;

/// The most statements that a program may have.
const MOST_STATEMENTS: u32 = 10_000;

/// The most blocks of a procedure around a statement, but its own.
const MOST_NESTING: u32 = 32;

/// The change that puts statements at a place, in the procedure of this head, and takes away what goes. It takes time in
/// proportion to the statements that come, with those inside them, times the procedure's variables, to those that go and
/// to the breaks of the loop around them for each, to the statements of that loop before the place where a break comes
/// to it and it keeps others, and, where the ends of a body change, to the number of procedures.
///
/// # Errors
///
/// [`EditError::Fault`] where the program then has too many statements, or else where a block is then too deep, or else
/// with the first fault of those that come.
pub(crate) fn splice(
    alloc: Global,
    table: &Table,
    head: &ProcHeader,
    gap: &Gap,
    news: &Block,
) -> Result<Change, EditError>
    requires fine { variables_fault [] (variables head.now.bare) ≡ None }
    requires layout { head.now.layout ≡ layout_in head.now.bare }
    requires quiet { are_quiet news.now ≡ true }
    ensures is { IfOk result (IsSplice table.now.program head.now gap.now news.now) }
    ensures fit { IfOk result (λ _. FitsCode [] (layout_in head.now.bare)
        (code_in (resolver_at [] head.now.bare) news.now)) }
    ensures faultless { IfOk result (λ _. splice_fault table.now.program head.now gap.now news.now ≡
        None) }
    ensures refused { IfErr result (IsRefusal (option_map refused_by
        (splice_fault table.now.program head.now gap.now news.now))) }
{
    let count = count_with(alloc, table, gap, news)?;
    let come = entries_of(alloc, head, gap, news)?;
    let entries = puts_of(alloc, table, head, gap, news, come)?;
    let heads = heads_with(alloc, table, gap, news)?;
    Ok(Change {
        entries,
        heads,
        count,
        sites: None,
    })
}

/// How many statements the program then has.
///
/// # Errors
///
/// [`Fault::Statements`] where there are too many, or else [`Fault::Nesting`] where a block that comes is too deep.
fn count_with(alloc: Global, table: &Table, gap: &Gap, news: &Block) -> Result<u32, EditError>
    ensures is { IfOk result (λ count. count ≡ count_with table.now.program gap.now news.now) }
    ensures small { IfOk result (λ _. size_fault table.now.program gap.now news.now ≡ None) }
    ensures shallow { IfOk result (λ _. gap.now.context.depth + nesting news.now < 33) }
    ensures refused { IfErr result (IsRefusal (option_map refused_by
        (size_fault table.now.program gap.now news.now))) }
{
    let left = (table.view().count() as usize).saturating_sub(gap.gone.len()) as u32;
    let count = left.saturating_add(block_count(news));
    if count > MOST_STATEMENTS {
        return Err(found_last(alloc, table, Fault::Statements)?);
    }
    if gap.context.depth.saturating_add(nesting(news)) > MOST_NESTING {
        return Err(found_last(alloc, table, Fault::Nesting)?);
    }
    Ok(count)
}

/// A fault of the whole program, which stands at the last procedure.
fn found_last(alloc: Global, table: &Table, fault: Fault) -> Result<EditError, Memory>
    ensures is { IfOk result (λ error. error ≡ refused_by
        (record { fault = fault; proc = name_of (last_of table.now.program); at = 0 })) }
{
    let proc = last_name(alloc, table)?;
    Ok(EditError::Fault(LocatedFault { fault, proc, at: 0 }))
}

/// The name of the last procedure.
fn last_name(alloc: Global, table: &Table) -> Result<Text, Memory>
    ensures is { IfOk result (λ name. name ≡ name_of (last_of table.now.program)) }
{
    let heads = table.procs();
    match heads.get(heads.len().saturating_sub(1)) {
        Some(head) => Ok(head.bare.name().clone()?),
        None => Text::from_slice(alloc, b""),
    }
}

/// The procedures, where the ends of a body change; `None` where they stay. It takes time linear in the procedures.
fn heads_with(
    alloc: Global,
    table: &Table,
    gap: &Gap,
    news: &Block,
) -> Result<Option<Items<ProcHeader>>, Memory>
    ensures are { IfOk result (λ heads. unwrap_or heads (heads_of table.now.program) ≡
        heads_in gap.now.context.around (heads_of table.now.program) gap.now.context.proc
        (ends_with gap.now.front gap.now.next news.now)) }
{
    if ends_stay(gap) {
        return Ok(None);
    }
    match gap.context.around {
        Some(_) => Ok(None),
        None => {
            let mut heads = heads_again(alloc, table.procs())?;
            set_body(&mut heads, gap.context.proc.place() as usize, gap, news);
            Ok(Some(Items::from_vec(heads)))
        }
    }
}

/// Sets the ends of the body of the procedure at a place.
#[tactic(auto, using(crate::proofs::SpliceLemmas::head_past))]
fn set_body(heads: &mut Vec<ProcHeader>, proc: usize, gap: &Gap, news: &Block)
    ensures is { heads.new.items ≡ head_with heads.old.items proc
        (ends_with gap.now.front gap.now.next news.now) }
{
    if proc >= heads.len() {
        return;
    }
    heads[proc].body = ends_with(gap, news, heads[proc].body);
}

/// Copies of procedures.
fn heads_again(alloc: Global, heads: &[ProcHeader]) -> Result<Vec<ProcHeader>, Memory>
    ensures are { IfOk result (λ copies. copies.items ≡ heads.now) }
{
    let mut copies = Vec::with_capacity(alloc, heads.len())?;
    for head in heads {
        let bare = head.bare.clone()?;
        let layout = head.layout.clone()?;
        let body = head.body;
        copies.push(ProcHeader { bare, layout, body })?;
    }
    Ok(copies)
}

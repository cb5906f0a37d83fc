//! What is known of statements that come at a place of a block, and of those inside them.
ghost use Rattle.std.specs.Prelude.{◌≡◌, ◌+◌, ◌<◌, ◌^◌, [], ◌∷◌, ◌++◌, drop, IfOk, IfErr, OnOk, None, true};
ghost use Rattle.std.specs.Option.{option_map};
ghost use Rattle.imp_syntax.specs.Plain.{Ends, Starts, block_of, number_of};
ghost use Rattle.imp_slots.specs.Fits.{FitsCode};
ghost use Rattle.imp_check.specs.Entries.{block_entries, entry_at, resolver_at, statement_entries};
ghost use Rattle.imp_check.specs.Faults.{at, in_procedure};
ghost use Rattle.imp_check.specs.Names.{variables};
ghost use Rattle.imp_check.specs.Parts.{first_or};
ghost use Rattle.imp_check.specs.Programs.{nesting, statement_nesting, variables_fault};
ghost use Rattle.imp_check.specs.Single.{FitsAlone, own_fault};
ghost use Rattle.imp_check.specs.Slots.{code_in, layout_in};
ghost use Rattle.imp_check.specs.Statements.{block_fault, statement_fault};
ghost use Rattle.edit_entries.specs.Gaps.{are_quiet, is_quiet, lone};
ghost use Rattle.imp_edit.specs.declared.error.EditError.TheVariants.{Fault as refused_by};
ghost use Rattle.imp_edit.specs.Refusals.{IsRefusal};

use crate::error::EditError;
use crate::single_statements::form_alone;
use base_values::Memory;
use edit_breaks::Gap;
use imp_check::{Context, Entry, ProcHeader, Which, breaks_of, first_ends, part_of, second_ends};
use imp_syntax::{Block, Stmt, StmtId, StmtNode};
use std::alloc::Global;

/// What is known of the statements of a block that comes at a place, each followed by those inside it. It takes time in
/// proportion to the statements, times the procedure's variables.
///
/// # Errors
///
/// [`EditError::Fault`] with their first fault.
pub(crate) fn entries_of(
    alloc: Global,
    head: &ProcHeader,
    gap: &Gap,
    news: &Block,
) -> Result<Vec<Entry>, EditError>
    requires fine { variables_fault [] (variables head.now.bare) ≡ None }
    requires layout { head.now.layout ≡ layout_in head.now.bare }
    requires quiet { are_quiet news.now ≡ true }
    requires shallow { gap.now.context.depth + nesting news.now < 2 ^ 32 }
    ensures are { IfOk result (λ entries. entries.items ≡
        block_entries (resolver_at [] head.now.bare) gap.now.context gap.now.front gap.now.next
        news.now) }
    ensures fit { IfOk result (λ _. FitsCode [] (layout_in head.now.bare)
        (code_in (resolver_at [] head.now.bare) news.now)) }
    ensures faultless { IfOk result (λ _. block_fault (lone (variables head.now.bare)) true
        news.now ≡ None) }
    ensures refused { IfErr result (IsRefusal (option_map refused_by
        (in_procedure head.now.bare.name (block_fault (lone (variables head.now.bare)) true
        news.now)))) }
{
    let site = Site {
        context: gap.context,
        front: gap.front,
        next: gap.next,
    };
    let mut entries = Vec::new(alloc);
    add_block(alloc, head, &site, news, &mut entries)?;
    Ok(entries)
}

/// Where statements come: a block, and two statements of it.
#[derive(Clone, Copy)]
struct Site {
    context: Context,
    front: Option<StmtId>,
    next: Option<StmtId>,
}

/// A whole block.
fn alone_in(context: Context) -> Site
    ensures is { result ≡ record { context = context; front = None; next = None } }
{
    Site {
        context,
        front: None,
        next: None,
    }
}

/// Adds what is known of the statements of a block, between two of the block that they come to, and of those inside them.
///
/// # Errors
///
/// [`EditError::Fault`] with their first fault.
#[cycle(come)]
#[tactic(auto, using(imp_syntax::specs::Blocks::member_smaller, imp_syntax::specs::Blocks::block_rest, imp_check::proofs::PartLemmas::member_nesting))]
fn add_block(
    alloc: Global,
    head: &ProcHeader,
    site: &Site,
    block: &Block,
    entries: &mut Vec<Entry>,
) -> Result<(), EditError>
    requires fine { variables_fault [] (variables head.now.bare) ≡ None }
    requires layout { head.now.layout ≡ layout_in head.now.bare }
    requires quiet { are_quiet block.now ≡ true }
    requires shallow { site.now.context.depth + nesting block.now < 2 ^ 32 }
    ensures added { OnOk result (entries.new.items ≡ entries.old.items ++ block_entries
        (resolver_at [] head.now.bare) site.now.context site.now.front site.now.next
        block.now) }
    ensures fit { OnOk result (FitsCode [] (layout_in head.now.bare)
        (code_in (resolver_at [] head.now.bare) block.now)) }
    ensures faultless { OnOk result (block_fault (lone (variables head.now.bare)) true block.now ≡
        None) }
    ensures refused { IfErr result (IsRefusal (option_map refused_by
        (in_procedure head.now.bare.name (block_fault (lone (variables head.now.bare)) true
        block.now)))) }
{
    let stmts = block.as_slice();
    let mut front = site.front;
    for (i, stmt) in stmts.iter().enumerate() {
        let place = Site {
            context: site.context,
            front,
            next: next_at(stmts, i + 1, site.next),
        };
        add_statement(alloc, head, &place, stmt, entries)?;
        front = Some(stmt.id());
    }
    Ok(())
}

/// Adds what is known of a statement between two of its block, and of those inside it.
///
/// # Errors
///
/// [`EditError::Fault`] with their first fault.
#[cycle(come)]
fn add_statement(
    alloc: Global,
    head: &ProcHeader,
    site: &Site,
    stmt: &Stmt,
    entries: &mut Vec<Entry>,
) -> Result<(), EditError>
    requires fine { variables_fault [] (variables head.now.bare) ≡ None }
    requires layout { head.now.layout ≡ layout_in head.now.bare }
    requires quiet { is_quiet stmt.now ≡ true }
    requires shallow { site.now.context.depth + statement_nesting stmt.now < 2 ^ 32 }
    ensures added { OnOk result (entries.new.items ≡ entries.old.items ++ statement_entries
        (resolver_at [] head.now.bare) site.now.context site.now.front site.now.next stmt.now) }
    ensures fit { OnOk result (FitsCode [] (layout_in head.now.bare)
        (code_in (resolver_at [] head.now.bare) (Starts stmt.now Ends))) }
    ensures faultless { OnOk result (statement_fault (lone (variables head.now.bare)) true
        stmt.now ≡ None) }
    ensures refused { IfErr result (IsRefusal (option_map refused_by
        (in_procedure head.now.bare.name (statement_fault (lone (variables head.now.bare)) true
        stmt.now)))) }
{
    let entry = entry_at(alloc, head, site, stmt)?;
    add(entries, entry)?;
    let id = stmt.id();
    match stmt.node() {
        StmtNode::If(_, then, els) => {
            let first = alone_in(site.context.inside(id, Which::Then));
            let second = alone_in(site.context.inside(id, Which::Else));
            add_block(alloc, head, &first, then, entries)?;
            add_block(alloc, head, &second, els, entries)
        }
        StmtNode::While(_, body) => {
            let whole = alone_in(site.context.inside_loop(id));
            add_block(alloc, head, &whole, body, entries)
        }
        _ => Ok(()),
    }
}

/// What is known of a statement between two of its block.
///
/// # Errors
///
/// [`EditError::Fault`] with its own fault.
fn entry_at(alloc: Global, head: &ProcHeader, site: &Site, stmt: &Stmt) -> Result<Entry, EditError>
    requires fine { variables_fault [] (variables head.now.bare) ≡ None }
    requires layout { head.now.layout ≡ layout_in head.now.bare }
    ensures is { IfOk result (λ entry. entry ≡ entry_at (resolver_at [] head.now.bare)
        site.now.context site.now.front site.now.next stmt.now) }
    ensures fits { IfOk result (λ _. FitsAlone head.now.bare stmt.now) }
    ensures faultless { IfOk result (λ _. own_fault (variables head.now.bare) stmt.now ≡ None) }
    ensures refused { IfErr result (IsRefusal (option_map refused_by
        (in_procedure head.now.bare.name (at (number_of stmt.now)
        (own_fault (variables head.now.bare) stmt.now))))) }
{
    let breaks = breaks_of(alloc, stmt)?;
    let part = part_of(alloc, stmt)?;
    let form = form_alone(alloc, head, stmt.id(), stmt)?;
    Ok(Entry {
        number: stmt.id(),
        part,
        form,
        context: site.context,
        front: site.front,
        next: site.next,
        inner: first_ends(stmt),
        other: second_ends(stmt),
        breaks,
    })
}

/// Adds an entry.
fn add(entries: &mut Vec<Entry>, entry: Entry) -> Result<(), Memory>
    ensures added { OnOk result (entries.new.items ≡ entries.old.items ++ entry ∷ []) }
{
    entries.push(entry)?;
    Ok(())
}

/// The statement at a place of these, or else what stands after them.
fn next_at(stmts: &[Stmt], at: usize, next: Option<StmtId>) -> Option<StmtId>
    ensures is { result ≡ first_or (block_of (drop at stmts.now)) next }
{
    match stmts.get(at) {
        Some(stmt) => Some(stmt.id()),
        None => next,
    }
}

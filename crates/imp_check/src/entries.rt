//! The table of statements, made from the tree.
ghost use Rattle.std.specs.Prelude.{◌≡◌, ◌+◌, ◌<◌, ◌^◌, IfOk, OnOk, Some, None};
ghost use Rattle.imp_check.specs.Programs.{statement_nesting, nesting};
ghost use Rattle.imp_syntax.specs.Plain.{number_of};
ghost use Rattle.imp_syntax.specs.ActionViews.{action_of as operation_of, operands_of};
ghost use Rattle.imp_slots.specs.ActionViews.{action_of};
ghost use Rattle.imp_slots.specs.declared.actions.SlotStmt.TheVariants as act;
ghost use Rattle.imp_check.specs.declared.entry.SlotForm.TheVariants as form;
ghost use Rattle.imp_check.specs.Slots.{effect_in, guard_in, invoke_in, callee_in};
ghost use Rattle.imp_check.specs.Parts.{first_ends, second_ends, part_of, breaks_of};
ghost use Rattle.imp_check.specs.Entries.{form_in, entry_at, statement_entries, block_entries};
ghost use Rattle.imp_check.specs.Puts.{put_at, put_all, with_site, with_sites, with_form};

use crate::entry::{Context, Entry, SlotForm, Which};
use crate::heads::number_at;
use crate::parts::{breaks_of, first_ends, part_of, second_ends};
use crate::place::TableSlot;
use crate::putting::put_entry;
use crate::resolve::Resolver;
use crate::slots::Slots;
use crate::terms::{effect_in, guard_in};
use base_values::{Items, Memory};
use imp_slots::SlotStmt;
use imp_syntax::{Action, Block, Call, Cond, ProcId, Stmt, StmtId, StmtNode};
use std::alloc::Global;

/// What a simple statement does, over slots.
#[tactic(auto, using(crate::proofs::EntryLemmas::action_again))]
fn simple_form(alloc: Global, slots: &Slots, action: &Action) -> Result<SlotForm, Memory>
    ensures is { IfOk result (λ f. f ≡ form.Stmt (act.Simple
        (action_of (effect_in slots.now (operation_of action.now))))) }
{
    let action = effect_in(alloc, slots, action)?;
    Ok(SlotForm::Stmt(SlotStmt::Simple(action)))
}

/// A call, over slots.
fn call_form(alloc: Global, resolver: &Resolver, call: &Call) -> Result<SlotForm, Memory>
    ensures is { IfOk result (λ f. f ≡ form.Call (invoke_in resolver.now call.now.target
        call.now.callee (operands_of call.now.arguments))
        (callee_in resolver.now call.now.callee)) }
{
    let invoke = resolver.invoke(alloc, call)?;
    Ok(SlotForm::Call(invoke, ProcId::new(resolver.callee(call))))
}

/// A condition, over slots.
fn guard_form(alloc: Global, slots: &Slots, cond: &Cond) -> Result<SlotForm, Memory>
    ensures is { IfOk result (λ f. f ≡ form.Cond (guard_in slots.now cond.now)) }
{
    Ok(SlotForm::Cond(guard_in(alloc, slots, cond)?))
}

/// What a statement does, over slots.
#[inline(always)]
pub(crate) fn form_in(alloc: Global, resolver: &Resolver, stmt: &Stmt) -> Result<SlotForm, Memory>
    ensures is { IfOk result (λ form. form ≡ form_in resolver.now stmt.now) }
{
    match stmt.node() {
        StmtNode::Simple(action) => simple_form(alloc, resolver.slots, action),
        StmtNode::Break => Ok(SlotForm::Stmt(SlotStmt::Break)),
        StmtNode::Call(call) => call_form(alloc, resolver, call),
        StmtNode::If(cond, _, _) => guard_form(alloc, resolver.slots, cond),
        StmtNode::While(cond, _) => guard_form(alloc, resolver.slots, cond),
    }
}

/// A statement that does this, with its part and its breaks.
fn entry_of(
    context: &Context,
    front: Option<StmtId>,
    next: Option<StmtId>,
    stmt: &Stmt,
    form: SlotForm,
    told: (Stmt, Items<StmtId>),
) -> Entry
    ensures is { result ≡ record {
      number = number_of stmt.now;
      part = told.0;
      form = form;
      context = context.now;
      front = front;
      next = next;
      inner = first_ends stmt.now;
      other = second_ends stmt.now;
      breaks = told.1;
    } }
{
    let (part, breaks) = told;
    Entry {
        number: stmt.id(),
        part,
        form,
        context: *context,
        front,
        next,
        inner: first_ends(stmt),
        other: second_ends(stmt),
        breaks,
    }
}

/// The part of a statement, and its breaks.
fn told_of(alloc: Global, stmt: &Stmt) -> Result<(Stmt, Items<StmtId>), Memory>
    ensures is { IfOk result (λ told. told ≡ (part_of stmt.now, breaks_of stmt.now)) }
{
    let part = part_of(alloc, stmt)?;
    Ok((part, breaks_of(alloc, stmt)?))
}

/// A statement between these two of its block.
fn entry_at(
    alloc: Global,
    resolver: &Resolver,
    context: &Context,
    front: Option<StmtId>,
    next: Option<StmtId>,
    stmt: &Stmt,
) -> Result<Entry, Memory>
    ensures is { IfOk result (λ entry. entry ≡ entry_at resolver.now context.now front next
        stmt.now) }
{
    let told = told_of(alloc, stmt)?;
    let form = form_in(alloc, resolver, stmt)?;
    Ok(entry_of(context, front, next, stmt, form, told))
}

/// A table that is being made: the places of statements, and the call statements of each procedure.
#[derive(Drop)]
pub(crate) struct Making {
    pub(crate) places: Vec<TableSlot>,
    pub(crate) sites: Vec<Items<StmtId>>,
}

impl Making {
    /// Adds a statement.
    fn add(&mut self, alloc: Global, entry: Entry) -> Result<(), Memory>
        ensures put { OnOk result (self.new.places.items ≡ put_at self.old.places.items entry.number
            (Some entry)) }
        ensures sites { OnOk result (self.new.sites.items ≡
            with_form entry.number entry.form self.old.sites.items) }
    {
        add_call(&mut self.sites, &entry.form, entry.number)?;
        put_entry(alloc, &mut self.places, entry)
    }
}

/// Adds a statement that does this, if it is a call.
fn add_call(sites: &mut Vec<Items<StmtId>>, form: &SlotForm, site: StmtId) -> Result<(), Memory>
    ensures added { OnOk result (sites.new.items ≡ with_form site form.now sites.old.items) }
{
    match form {
        SlotForm::Call(_, callee) => add_site(sites, callee.place(), site),
        _ => Ok(()),
    }
}

/// Adds a call statement of the procedure at a place.
#[tactic(auto, using(crate::proofs::SitesMade::site_there, crate::proofs::SitesMade::site_gone))]
fn add_site(sites: &mut Vec<Items<StmtId>>, place: u32, site: StmtId) -> Result<(), Memory>
    ensures added { OnOk result (sites.new.items ≡ with_site site place sites.old.items) }
{
    let place = place as usize;
    if place < sites.len() {
        sites[place].push(site)?;
    }
    Ok(())
}

/// Adds the statements of a block and all inside them, in the order of the text.
#[cycle(entries)]
#[tactic(auto, using(imp_syntax::specs::Blocks::member_smaller, imp_syntax::specs::Blocks::block_rest, crate::proofs::PartLemmas::member_nesting, crate::proofs::PartLemmas::next_is, crate::proofs::PutLemmas::all_both, crate::proofs::PutLemmas::sites_both))]
pub(crate) fn block_entries(
    alloc: Global,
    resolver: &Resolver,
    context: &Context,
    block: &Block,
    making: &mut Making,
) -> Result<(), Memory>
    requires shallow { context.now.depth + nesting block.now < 2 ^ 32 }
    ensures put { OnOk result (making.new.places.items ≡
        put_all (block_entries resolver.now context.now None None block.now)
        making.old.places.items) }
    ensures sites { OnOk result (making.new.sites.items ≡
        with_sites (block_entries resolver.now context.now None None block.now)
        making.old.sites.items) }
{
    let mut front: Option<StmtId> = None;
    let stmts = block.as_slice();
    for (i, stmt) in stmts.iter().enumerate() {
        let next = number_at(stmts, i + 1);
        statement_entries(alloc, resolver, context, front, next, stmt, making)?;
        front = Some(stmt.id());
    }
    Ok(())
}

/// Adds a statement and all inside it.
#[cycle(entries)]
#[tactic(auto, using(crate::proofs::PartLemmas::below_max_left, crate::proofs::PartLemmas::below_max_right, crate::proofs::PutLemmas::all_both, crate::proofs::PutLemmas::sites_both))]
fn statement_entries(
    alloc: Global,
    resolver: &Resolver,
    context: &Context,
    front: Option<StmtId>,
    next: Option<StmtId>,
    stmt: &Stmt,
    making: &mut Making,
) -> Result<(), Memory>
    requires shallow { context.now.depth + statement_nesting stmt.now < 2 ^ 32 }
    ensures put { OnOk result (making.new.places.items ≡
        put_all (statement_entries resolver.now context.now front next stmt.now)
        making.old.places.items) }
    ensures sites { OnOk result (making.new.sites.items ≡
        with_sites (statement_entries resolver.now context.now front next stmt.now)
        making.old.sites.items) }
{
    making.add(
        alloc,
        entry_at(alloc, resolver, context, front, next, stmt)?,
    )?;
    let id = stmt.id();
    match stmt.node() {
        StmtNode::If(_, then, els) => {
            block_entries(
                alloc,
                resolver,
                &context.inside(id, Which::Then),
                then,
                making,
            )?;
            block_entries(
                alloc,
                resolver,
                &context.inside(id, Which::Else),
                els,
                making,
            )
        }
        StmtNode::While(_, body) => {
            block_entries(alloc, resolver, &context.inside_loop(id), body, making)
        }
        _ => Ok(()),
    }
}

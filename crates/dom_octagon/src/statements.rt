//! Simple statements and their checks.
ghost use Rattle.std.specs.Prelude.{◌≡◌, true, IfOk};
ghost use Rattle.imp_slots.specs.ActionViews.{effect_of, act_of};
ghost use Rattle.domain_laws.specs.Checks as checks;
ghost use Rattle.domain_laws.specs.Guards.{past_check};
ghost use Rattle.dbm_close.specs.CloseOf.{close_of};
ghost use Rattle.dom_octagon_meaning.specs.Matrices as matrices;
ghost use Rattle.dom_octagon_meaning.specs.Operations as operations;
ghost use Rattle.dom_octagon_meaning.specs.States as states;
ghost use Rattle.dom_octagon.specs.Checked.{closed_if};
ghost use Rattle.dom_octagon_states.specs.Limits.{IsTight};

use crate::assign::{close_assigned, close_assigned_within, without};
use crate::evaluate::{evaluate, slot};
use crate::guards::assumed;
use crate::indices::{and_length, zero_and};
use base_values::Memory;
use dom_numeric::LONGEST;
use dom_octagon_states::{Bounds, OctagonState, bounded, closed_copy, closure, empty};
use imp_slots::{SlotAction, SlotExpr, SlotStmt};
use imp_syntax::Relation;
use std::alloc::Global;

/// `0 <= e && e < len a`
#[tactic(auto, unfolding(dom_octagon_meaning::specs::Operations::assume))]
fn in_bounds(alloc: Global, a: u32, e: &SlotExpr, s: &OctagonState) -> Result<OctagonState, Memory>
    ensures exact { IfOk result (λ t. t ≡ operations.assume
        (checks.checked_guard (checks.Within a e.now)) true s.now) }
{
    let first = zero_and(alloc, Relation::AtMost, e, s)?;
    and_length(alloc, Relation::Less, e, a, &first)
}

/// What a link's check leaves: the state itself, since closing it twice is closing it once.
#[tactic(auto, using(dom_octagon_states::proofs::Tight::closed_again))]
fn linked(s: &OctagonState) -> Option<OctagonState>
    ensures exact { closed_if result s.now ≡ states.closed (states.closed s.now) }
{
    let _matrix = closure(s);
    None
}

/// The state where the check of a statement holds, `None` where that is the state itself.
#[tactic(auto, unfolding(dom_octagon_meaning::specs::Operations::assume))]
fn checked(
    alloc: Global,
    action: &SlotAction,
    s: &OctagonState,
) -> Result<Option<OctagonState>, Memory>
    ensures exact { IfOk result (λ t. closed_if t s.now ≡
        states.closed (past_check operations.assume (checks.check_of (effect_of action.now))
        s.now)) }
{
    match action {
        SlotAction::Assert(c) => Ok(Some(assumed(alloc, c, true, s)?)),
        SlotAction::ReadElement(_, a, e) => Ok(Some(in_bounds(alloc, *a, e, s)?)),
        SlotAction::WriteElement(a, e, _) => Ok(Some(in_bounds(alloc, *a, e, s)?)),
        SlotAction::ReadItem(_, _) => Ok(linked(s)),
        SlotAction::ReadNext(_, _) => Ok(linked(s)),
        SlotAction::WriteNext(_, _) => Ok(linked(s)),
        SlotAction::WriteItem(_, _) => Ok(linked(s)),
        SlotAction::Skip => Ok(None),
        SlotAction::SetInt(_, _) => Ok(None),
        SlotAction::Input(_) => Ok(None),
        SlotAction::MakeArray(_, _) => Ok(None),
        SlotAction::CopyArray(_, _) => Ok(None),
        SlotAction::SetNull(_) => Ok(None),
        SlotAction::MakeCell(_) => Ok(None),
        SlotAction::CopyLink(_, _) => Ok(None),
    }
}

/// `x = e`
fn set_int(alloc: Global, x: u32, e: &SlotExpr, m: &Bounds) -> Result<OctagonState, Memory>
    requires tight { IsTight m.now }
    ensures exact { IfOk result (λ t. t ≡ operations.does_set x e.now m.now) }
{
    match evaluate(m, e) {
        None => Ok(empty()),
        Some(value) => close_assigned(alloc, m, x, value.form, value.range),
    }
}

/// `a = array e`
fn make_array(alloc: Global, a: u32, e: &SlotExpr, m: &Bounds) -> Result<OctagonState, Memory>
    requires tight { IsTight m.now }
    ensures exact { IfOk result (λ t. t ≡ operations.does_make a e.now m.now) }
{
    let Some(value) = evaluate(m, e) else {
        return Ok(empty());
    };
    match value.range.cut(0, LONGEST) {
        None => Ok(empty()),
        Some(length) => close_assigned_within(alloc, m, a, value.form, value.range, length),
    }
}

/// `a = b`, of arrays
fn copy_array(alloc: Global, a: u32, b: u32, m: &Bounds) -> Result<OctagonState, Memory>
    requires tight { IsTight m.now }
    ensures exact { IfOk result (λ t. t ≡ operations.does_copy a b m.now) }
{
    let length = slot(m, b);
    close_assigned(alloc, m, a, length.form, length.range)
}

/// A slot gets any value.
fn free(alloc: Global, x: u32, m: &Bounds) -> Result<OctagonState, Memory>
    requires tight { IsTight m.now }
    ensures exact { IfOk result (λ t. t ≡ close_of (matrices.without m.now x)) }
{
    Ok(bounded(without(alloc, m, x as usize)?))
}

/// A statement that asks no more than that an expression has a value.
fn needs_value(alloc: Global, e: &SlotExpr, m: &Bounds) -> Result<OctagonState, Memory>
    requires tight { IsTight m.now }
    ensures exact { IfOk result (λ t. t ≡ operations.does_need e.now m.now) }
{
    match evaluate(m, e) {
        None => Ok(empty()),
        Some(_) => closed_copy(m),
    }
}

/// What a statement does after its check, of a closed matrix.
#[tactic(auto, unfolding(dom_octagon_meaning::specs::Operations::does))]
fn done(alloc: Global, action: &SlotAction, m: &Bounds) -> Result<OctagonState, Memory>
    requires tight { IsTight m.now }
    ensures exact { IfOk result (λ t. t ≡ operations.does (effect_of action.now) m.now) }
{
    match action {
        SlotAction::SetInt(x, e) => set_int(alloc, *x, e, m),
        SlotAction::Input(x) => free(alloc, *x, m),
        SlotAction::ReadElement(x, _, _) => free(alloc, *x, m),
        SlotAction::ReadItem(x, _) => free(alloc, *x, m),
        SlotAction::MakeArray(a, e) => make_array(alloc, *a, e, m),
        SlotAction::CopyArray(a, b) => copy_array(alloc, *a, *b, m),
        SlotAction::WriteElement(_, _, f) => needs_value(alloc, f, m),
        SlotAction::WriteItem(_, e) => needs_value(alloc, e, m),
        SlotAction::Skip => closed_copy(m),
        SlotAction::Assert(_) => closed_copy(m),
        SlotAction::SetNull(_) => closed_copy(m),
        SlotAction::MakeCell(_) => closed_copy(m),
        SlotAction::CopyLink(_, _) => closed_copy(m),
        SlotAction::ReadNext(_, _) => closed_copy(m),
        SlotAction::WriteNext(_, _) => closed_copy(m),
    }
}

/// What a statement does to a state where its check holds.
fn done_in(alloc: Global, action: &SlotAction, s: &OctagonState) -> Result<OctagonState, Memory>
    ensures exact { IfOk result (λ t. t ≡ states.unless_empty (states.closed s.now)
        (operations.does (effect_of action.now))) }
{
    match closure(s) {
        None => Ok(empty()),
        Some(m) => done(alloc, action, m),
    }
}

/// The state after a simple statement or a break.
#[tactic(auto, unfolding(dom_octagon_meaning::specs::Operations::post))]
pub fn behind(alloc: Global, stmt: &SlotStmt, s: &OctagonState) -> Result<OctagonState, Memory>
    ensures exact { IfOk result (λ t. t ≡ operations.post (act_of stmt.now) s.now) }
{
    match stmt {
        SlotStmt::Break => Ok(empty()),
        SlotStmt::Simple(action) => match checked(alloc, action, s)? {
            None => done_in(alloc, action, s),
            Some(inside) => done_in(alloc, action, &inside),
        },
    }
}

//! What simple statements do.
ghost use Rattle.std.specs.Prelude.{◌≡◌};
ghost use Rattle.imp_slots.specs.Plain as plain;
ghost use Rattle.imp_slots.specs.ActionViews.{effect_of as effect};
ghost use Rattle.concrete_sem.specs.Values.{given_or, array_at};
ghost use Rattle.concrete_sem.specs.Effects.{effect_of, cell_of, element};
ghost use Rattle.imp_run.specs.Attempts.{Comes, placed_of};

use crate::elements::Elements;
use crate::evaluation::{truth_of, value_of};
use crate::halt::Halt;
use crate::slots::{SlotValue, Slots};
use crate::store::{ListCell, Store};
use concrete_sem::FaultKind;
use imp_slots::{SlotAction, SlotCond, SlotExpr};
use std::alloc::Global;

#[tactic(auto, unfolding(concrete_sem::specs::Effects::effect_of))]
fn claim(store: &Store<'_>, slots: &Slots, cond: &SlotCond) -> Result<(), Halt>
    ensures is { Comes result (effect_of (plain.Assert cond.now) store.now slots.now) (
      store.now,
      slots.now,
    ) }
{
    match truth_of(slots, cond) {
        Ok(true) => Ok(()),
        Ok(false) => Err(Halt::Fault(FaultKind::Assert)),
        Err(fault) => Err(Halt::Fault(fault)),
    }
}

#[tactic(auto, unfolding(concrete_sem::specs::Effects::effect_of))]
fn set_int(store: &Store<'_>, slots: &mut Slots, x: u32, expr: &SlotExpr) -> Result<(), Halt>
    ensures is { Comes result (effect_of (plain.SetInt x expr.now) store.now slots.old) (
      store.now,
      slots.new,
    ) }
{
    match value_of(slots, expr) {
        Ok(value) => {
            slots.set_number(x, SlotValue::Int(value));
            Ok(())
        }
        Err(fault) => Err(Halt::Fault(fault)),
    }
}

#[tactic(auto, unfolding(concrete_sem::specs::Effects::effect_of))]
fn input(store: &mut Store<'_>, slots: &mut Slots, x: u32) -> Result<(), Halt>
    ensures is { Comes result (effect_of (plain.Input x) store.old slots.old) (
      store.new,
      slots.new,
    ) }
{
    match store.take_input() {
        Some(value) => {
            slots.set_number(x, SlotValue::Int(value));
            Ok(())
        }
        None => Err(Halt::NoInput),
    }
}

#[tactic(auto, unfolding(concrete_sem::specs::Effects::effect_of))]
fn read_item(store: &Store<'_>, slots: &mut Slots, x: u32, q: u32) -> Result<(), Halt>
    ensures is { Comes result (effect_of (plain.ReadItem x q) store.now slots.old) (
      store.now,
      slots.new,
    ) }
{
    match cell_of(store, slots.link_at(q)) {
        Ok((_, cell)) => {
            slots.set_number(x, SlotValue::Int(cell.item));
            Ok(())
        }
        Err(fault) => Err(Halt::Fault(fault)),
    }
}

#[tactic(auto, unfolding(concrete_sem::specs::Effects::effect_of))]
fn read_next(store: &Store<'_>, slots: &mut Slots, p: u32, q: u32) -> Result<(), Halt>
    ensures is { Comes result (effect_of (plain.ReadNext p q) store.now slots.old) (
      store.now,
      slots.new,
    ) }
{
    match cell_of(store, slots.link_at(q)) {
        Ok((_, cell)) => {
            slots.set_link(p, cell.next);
            Ok(())
        }
        Err(fault) => Err(Halt::Fault(fault)),
    }
}

#[tactic(auto, unfolding(concrete_sem::specs::Effects::effect_of))]
fn write_next(store: &mut Store<'_>, slots: &Slots, p: u32, q: u32) -> Result<(), Halt>
    ensures is { Comes result (effect_of (plain.WriteNext p q) store.old slots.now) (
      store.new,
      slots.now,
    ) }
{
    match cell_of(store, slots.link_at(p)) {
        Ok((place, cell)) => {
            let next = slots.link_at(q);
            store.set_cell(
                place,
                ListCell {
                    item: cell.item,
                    next,
                },
            );
            Ok(())
        }
        Err(fault) => Err(Halt::Fault(fault)),
    }
}

/// The place of a link's cell, and the cell.
fn cell_of(store: &Store<'_>, link: Option<usize>) -> Result<(usize, ListCell), FaultKind>
    ensures is { placed_of result ≡ cell_of store.now.cells link }
{
    match link {
        Some(place) => match store.cell_at(place) {
            Some(cell) => Ok((place, cell)),
            None => Err(FaultKind::Null),
        },
        None => Err(FaultKind::Null),
    }
}

#[tactic(auto, unfolding(concrete_sem::specs::Effects::effect_of))]
fn make_array(
    alloc: Global,
    store: &Store<'_>,
    slots: &mut Slots,
    a: u32,
    expr: &SlotExpr,
) -> Result<(), Halt>
    ensures is { Comes result (effect_of (plain.MakeArray a expr.now) store.now slots.old)
        (store.now, slots.new) }
{
    let count = match value_of(slots, expr) {
        Ok(count) => count,
        Err(fault) => return Err(Halt::Fault(fault)),
    };
    if count < 0 || count > 1_000_000 {
        return Err(Halt::Fault(FaultKind::Length));
    }
    let zeros = Elements::zeros(alloc, count as usize)?;
    slots.set_number(a, SlotValue::Array(zeros));
    Ok(())
}

#[tactic(auto, unfolding(concrete_sem::specs::Effects::effect_of))]
fn copy_array(store: &Store<'_>, slots: &mut Slots, a: u32, b: u32) -> Result<(), Halt>
    ensures is { Comes result (effect_of (plain.CopyArray a b) store.now slots.old) (
      store.now,
      slots.new,
    ) }
{
    let elements = slots.share_array(b)?;
    slots.set_number(a, SlotValue::Array(elements));
    Ok(())
}

#[tactic(auto, unfolding(concrete_sem::specs::Effects::effect_of))]
fn make_cell(store: &mut Store<'_>, slots: &mut Slots, p: u32) -> Result<(), Halt>
    ensures is { Comes result (effect_of (plain.MakeCell p) store.old slots.old) (
      store.new,
      slots.new,
    ) }
{
    let place = store.add_cell()?;
    slots.set_link(p, Some(place));
    Ok(())
}

#[tactic(auto, unfolding(concrete_sem::specs::Effects::effect_of))]
fn read_element(
    store: &Store<'_>,
    slots: &mut Slots,
    x: u32,
    a: u32,
    expr: &SlotExpr,
) -> Result<(), Halt>
    ensures is { Comes result (effect_of (plain.ReadElement x a expr.now) store.now slots.old)
        (store.now, slots.new) }
{
    let index = match value_of(slots, expr) {
        Ok(index) => index,
        Err(fault) => return Err(Halt::Fault(fault)),
    };
    match element(slots, a, index) {
        Some(value) => {
            slots.set_number(x, SlotValue::Int(value));
            Ok(())
        }
        None => Err(Halt::Fault(FaultKind::Index)),
    }
}

/// An element of an array.
fn element(slots: &Slots, a: u32, index: i64) -> Option<i64>
    ensures is { given_or FaultKind.Index result ≡ element (array_at slots.now a) index }
{
    if index < 0 {
        return None;
    }
    slots.element_at(a, index as usize)
}

#[tactic(auto, unfolding(concrete_sem::specs::Effects::effect_of))]
fn write_element(
    alloc: Global,
    store: &Store<'_>,
    slots: &mut Slots,
    a: u32,
    place: &SlotExpr,
    expr: &SlotExpr,
) -> Result<(), Halt>
    ensures is { Comes result (effect_of (plain.WriteElement a place.now expr.now) store.now
        slots.old) (store.now, slots.new) }
{
    let index = match value_of(slots, place) {
        Ok(index) => index,
        Err(fault) => return Err(Halt::Fault(fault)),
    };
    let value = match value_of(slots, expr) {
        Ok(value) => value,
        Err(fault) => return Err(Halt::Fault(fault)),
    };
    if index < 0 || index >= slots.length_at(a) {
        return Err(Halt::Fault(FaultKind::Index));
    }
    slots.set_element(alloc, a, index as usize, value)?;
    Ok(())
}

#[tactic(auto, unfolding(concrete_sem::specs::Effects::effect_of))]
fn write_item(store: &mut Store<'_>, slots: &Slots, p: u32, expr: &SlotExpr) -> Result<(), Halt>
    ensures is { Comes result (effect_of (plain.WriteItem p expr.now) store.old slots.now)
        (store.new, slots.now) }
{
    let item = match value_of(slots, expr) {
        Ok(item) => item,
        Err(fault) => return Err(Halt::Fault(fault)),
    };
    match cell_of(store, slots.link_at(p)) {
        Ok((place, cell)) => {
            let next = cell.next;
            store.set_cell(place, ListCell { item, next });
            Ok(())
        }
        Err(fault) => Err(Halt::Fault(fault)),
    }
}

#[tactic(auto, unfolding(concrete_sem::specs::Effects::effect_of))]
fn set_null(store: &Store<'_>, slots: &mut Slots, p: u32) -> Result<(), Halt>
    ensures is { Comes result (effect_of (plain.SetNull p) store.now slots.old) (
      store.now,
      slots.new,
    ) }
{
    slots.set_link(p, None);
    Ok(())
}

#[tactic(auto, unfolding(concrete_sem::specs::Effects::effect_of))]
fn copy_link(store: &Store<'_>, slots: &mut Slots, p: u32, q: u32) -> Result<(), Halt>
    ensures is { Comes result (effect_of (plain.CopyLink p q) store.now slots.old) (
      store.now,
      slots.new,
    ) }
{
    let link = slots.link_at(q);
    slots.set_link(p, link);
    Ok(())
}

#[tactic(auto, unfolding(concrete_sem::specs::Effects::effect_of))]
fn skip(store: &Store<'_>, slots: &Slots) -> Result<(), Halt>
    ensures is { Comes result (effect_of plain.Skip store.now slots.now) (store.now, slots.now) }
{
    Ok(())
}

/// Does what a simple statement does. It takes the time of its expressions, and of the elements
/// that it makes, or copies because they are shared.
pub(crate) fn perform(
    alloc: Global,
    store: &mut Store<'_>,
    slots: &mut Slots,
    action: &SlotAction,
) -> Result<(), Halt>
    ensures is { Comes result (effect_of (effect action.now) store.old slots.old) (
      store.new,
      slots.new,
    ) }
{
    match action {
        SlotAction::Skip => skip(store, slots),
        SlotAction::Assert(cond) => claim(store, slots, cond),
        SlotAction::SetInt(x, expr) => set_int(store, slots, *x, expr),
        SlotAction::Input(x) => input(store, slots, *x),
        SlotAction::ReadElement(x, a, expr) => read_element(store, slots, *x, *a, expr),
        SlotAction::ReadItem(x, q) => read_item(store, slots, *x, *q),
        SlotAction::MakeArray(a, expr) => make_array(alloc, store, slots, *a, expr),
        SlotAction::CopyArray(a, b) => copy_array(store, slots, *a, *b),
        SlotAction::WriteElement(a, e, f) => write_element(alloc, store, slots, *a, e, f),
        SlotAction::SetNull(p) => set_null(store, slots, *p),
        SlotAction::MakeCell(p) => make_cell(store, slots, *p),
        SlotAction::CopyLink(p, q) => copy_link(store, slots, *p, *q),
        SlotAction::ReadNext(p, q) => read_next(store, slots, *p, *q),
        SlotAction::WriteNext(p, q) => write_next(store, slots, *p, *q),
        SlotAction::WriteItem(p, expr) => write_item(store, slots, *p, expr),
    }
}

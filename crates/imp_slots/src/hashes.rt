//! Hashes of slot forms. Equal ones feed a hasher the same.
ghost use Rattle.std.specs.Prelude.{◌≡◌, ◌++◌, fold, map};
ghost use Rattle.std.specs.Hash as fed;
ghost use Rattle.base_values.specs.Equal.{same_fed};
ghost use Rattle.imp_slots.specs.CallViews.{argument_of};
ghost use Rattle.imp_slots.specs.Codes.{term_code, guard_code};
ghost use Rattle.imp_slots.specs.PartCodes.{numeric_code, layout_code, entering_code};
ghost use Rattle.imp_slots.specs.EnumCodes.{action_coded, stmt_coded, argument_coded};
ghost use Rattle.imp_slots.specs.ActionViews.{effect_of, act_of};
ghost use Rattle.imp_slots.specs.Hashes.{operator_tag, relation_tag, term_fed, slot_fed, guard_fed, effect_fed, act_fed, numeric_fed, layout_fed, argument_fed, entering_fed};

use crate::{
    Argument, Entering, Layout, NumericSlot, SlotAction, SlotCond, SlotCondNode, SlotExpr,
    SlotExprNode, SlotStmt,
};
use imp_syntax::{Operator, Relation};
use std::hash::{Hash, Hasher};

fn operator_tag_of(operator: Operator) -> u8
    ensures same { result ≡ operator_tag operator }
{
    match operator {
        Operator::Add => 4,
        Operator::Subtract => 5,
        Operator::Multiply => 6,
        Operator::Divide => 7,
        Operator::Remainder => 8,
    }
}

fn relation_tag_of(relation: Relation) -> u8
    ensures same { result ≡ relation_tag relation }
{
    match relation {
        Relation::Equal => 0,
        Relation::NotEqual => 1,
        Relation::Less => 2,
        Relation::AtMost => 3,
        Relation::Greater => 4,
        Relation::AtLeast => 5,
    }
}

impl Hash for SlotExpr {
    ghost hash_input = { term_fed };

    ghost respects_eq = { same_fed term_code term_fed };

    fn hash<H: Hasher>(&self, state: &mut H) {
        match self.node() {
            SlotExprNode::Literal(n) => {
                state.write_u8(0);
                state.write_u64(n.value());
            }
            SlotExprNode::Slot(x) => {
                state.write_u8(1);
                state.write_u32(*x);
            }
            SlotExprNode::Length(a) => {
                state.write_u8(2);
                state.write_u32(*a);
            }
            SlotExprNode::Negative(e) => {
                state.write_u8(3);
                e.hash(state);
            }
            SlotExprNode::Binary(o, e, f) => {
                state.write_u8(operator_tag_of(*o));
                e.hash(state);
                f.hash(state);
            }
        }
    }
}

fn hash_slot<H: Hasher>(slot: Option<u32>, state: &mut H)
    ensures fed { state.new ≡ fold H.write state.old (slot_fed slot) }
{
    match slot {
        None => state.write_u8(0),
        Some(x) => {
            state.write_u8(1);
            state.write_u32(x);
        }
    }
}

impl Hash for SlotCond {
    ghost hash_input = { guard_fed };

    ghost respects_eq = { same_fed guard_code guard_fed };

    fn hash<H: Hasher>(&self, state: &mut H) {
        match self.node() {
            SlotCondNode::Compare(r, e, f) => {
                state.write_u8(relation_tag_of(*r));
                e.hash(state);
                f.hash(state);
            }
            SlotCondNode::CompareLinks(equal, p, q) => {
                state.write_u8(6);
                equal.hash(state);
                hash_slot(*p, state);
                hash_slot(*q, state);
            }
            SlotCondNode::Not(c) => {
                state.write_u8(7);
                c.hash(state);
            }
            SlotCondNode::And(c, d) => {
                state.write_u8(8);
                c.hash(state);
                d.hash(state);
            }
            SlotCondNode::Or(c, d) => {
                state.write_u8(9);
                c.hash(state);
                d.hash(state);
            }
        }
    }
}

/// Feeds a tag and a slot.
fn hash_tag<H: Hasher>(tag: u8, slot: u32, state: &mut H)
    ensures fed { state.new ≡ fold H.write state.old (fed.u8 tag ++ fed.u32 slot) }
{
    state.write_u8(tag);
    state.write_u32(slot);
}

impl Hash for SlotAction {
    ghost hash_input = { λ a. effect_fed (effect_of a) };

    ghost respects_eq = { same_fed action_coded (λ a. effect_fed (effect_of a)) };

    fn hash<H: Hasher>(&self, state: &mut H) {
        match self {
            SlotAction::Skip => state.write_u8(0),
            SlotAction::Assert(c) => {
                state.write_u8(1);
                c.hash(state);
            }
            SlotAction::SetInt(x, e) => {
                hash_tag(2, *x, state);
                e.hash(state);
            }
            SlotAction::Input(x) => hash_tag(3, *x, state),
            SlotAction::ReadElement(x, a, e) => {
                hash_tag(4, *x, state);
                state.write_u32(*a);
                e.hash(state);
            }
            SlotAction::ReadItem(x, q) => {
                hash_tag(5, *x, state);
                state.write_u32(*q);
            }
            SlotAction::MakeArray(a, e) => {
                hash_tag(6, *a, state);
                e.hash(state);
            }
            SlotAction::CopyArray(a, b) => {
                hash_tag(7, *a, state);
                state.write_u32(*b);
            }
            SlotAction::WriteElement(a, e, f) => {
                hash_tag(8, *a, state);
                e.hash(state);
                f.hash(state);
            }
            SlotAction::SetNull(p) => hash_tag(9, *p, state),
            SlotAction::MakeCell(p) => hash_tag(10, *p, state),
            SlotAction::CopyLink(p, q) => {
                hash_tag(11, *p, state);
                state.write_u32(*q);
            }
            SlotAction::ReadNext(p, q) => {
                hash_tag(12, *p, state);
                state.write_u32(*q);
            }
            SlotAction::WriteNext(p, q) => {
                hash_tag(13, *p, state);
                state.write_u32(*q);
            }
            SlotAction::WriteItem(p, e) => {
                hash_tag(14, *p, state);
                e.hash(state);
            }
        }
    }
}

impl Hash for SlotStmt {
    ghost hash_input = { λ s. act_fed (act_of s) };

    ghost respects_eq = { same_fed stmt_coded (λ s. act_fed (act_of s)) };

    fn hash<H: Hasher>(&self, state: &mut H) {
        match self {
            SlotStmt::Break => state.write_u8(15),
            SlotStmt::Simple(action) => action.hash(state),
        }
    }
}

impl Hash for NumericSlot {
    ghost hash_input = { numeric_fed };

    ghost respects_eq = { same_fed numeric_code numeric_fed };

    fn hash<H: Hasher>(&self, state: &mut H) {
        self.name().hash(state);
        self.is_array().hash(state);
    }
}

impl Hash for Layout {
    ghost hash_input = { layout_fed };

    ghost respects_eq = { same_fed layout_code layout_fed };

    fn hash<H: Hasher>(&self, state: &mut H) {
        self.numbers().hash(state);
        self.links().hash(state);
    }
}

impl Hash for Argument {
    ghost hash_input = { λ a. argument_fed (argument_of a) };

    ghost respects_eq = { same_fed argument_coded (λ a. argument_fed (argument_of a)) };

    fn hash<H: Hasher>(&self, state: &mut H) {
        match self {
            Argument::Int(e) => {
                state.write_u8(0);
                e.hash(state);
            }
            Argument::Array(a) => hash_tag(1, *a, state),
            Argument::Link(p) => {
                state.write_u8(2);
                hash_slot(*p, state);
            }
        }
    }
}

fn hash_arguments<H: Hasher>(arguments: &[Argument], state: &mut H)
    ensures fed { state.new ≡ fold H.write state.old (fed.slice argument_fed
        (map argument_of arguments.now)) }
{
    arguments.hash(state);
}

impl Hash for Entering {
    ghost hash_input = { entering_fed };

    ghost respects_eq = { same_fed entering_code entering_fed };

    fn hash<H: Hasher>(&self, state: &mut H) {
        self.layout().hash(state);
        hash_arguments(self.arguments(), state);
    }
}

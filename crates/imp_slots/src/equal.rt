//! Equality of slot forms. It says whether two are the same plain data.
ghost use Rattle.std.specs.Prelude.{◌≡◌, ◌&&◌, map};
ghost use Rattle.base_values.specs.Equal.{same, same_equiv, same_per, code_same, text_to, list_to};
ghost use Rattle.imp_slots.specs.CallViews.{taken_of, argument_of};
ghost use Rattle.imp_slots.specs.Codes.{term_code, guard_code};
ghost use Rattle.imp_slots.specs.PartCodes.{numeric_code, numeric_to, layout_code, entering_code, argument_to, returning_to, invoke_code};
ghost use Rattle.imp_slots.specs.EnumCodes.{action_coded, stmt_coded, argument_coded};

use crate::{
    Argument, Entering, Layout, NumericSlot, Returning, SlotAction, SlotCall, SlotCond,
    SlotCondNode, SlotExpr, SlotExprNode, SlotStmt,
};
use base_values::Text;

impl PartialEq for SlotExpr {
    ghost eq = { same term_code };

    ghost laws = { same_per term_code };

    fn eq(&self, other: &SlotExpr) -> bool {
        match (self.node(), other.node()) {
            (SlotExprNode::Literal(m), SlotExprNode::Literal(n)) => m.value() == n.value(),
            (SlotExprNode::Slot(x), SlotExprNode::Slot(y)) => *x == *y,
            (SlotExprNode::Length(a), SlotExprNode::Length(b)) => *a == *b,
            (SlotExprNode::Negative(e), SlotExprNode::Negative(f)) => e.eq(f),
            (SlotExprNode::Binary(o, a, b), SlotExprNode::Binary(p, c, d)) => {
                *o == *p && a.eq(c) && b.eq(d)
            }
            _ => false,
        }
    }
}

impl Eq for SlotExpr {
    ghost laws = { same_equiv term_code };
}

impl PartialEq for SlotCond {
    ghost eq = { same guard_code };

    ghost laws = { same_per guard_code };

    fn eq(&self, other: &SlotCond) -> bool {
        match (self.node(), other.node()) {
            (SlotCondNode::Compare(r, a, b), SlotCondNode::Compare(s, c, d)) => {
                *r == *s && a == c && b == d
            }
            (SlotCondNode::CompareLinks(e, p, q), SlotCondNode::CompareLinks(f, r, s)) => {
                *e == *f && *p == *r && *q == *s
            }
            (SlotCondNode::Not(c), SlotCondNode::Not(d)) => c.eq(d),
            (SlotCondNode::And(a, b), SlotCondNode::And(c, d)) => a.eq(c) && b.eq(d),
            (SlotCondNode::Or(a, b), SlotCondNode::Or(c, d)) => a.eq(c) && b.eq(d),
            _ => false,
        }
    }
}

impl Eq for SlotCond {
    ghost laws = { same_equiv guard_code };
}

impl PartialEq for SlotAction {
    ghost eq = { same action_coded };

    ghost laws = { same_per action_coded };

    fn eq(&self, other: &SlotAction) -> bool {
        match (self, other) {
            (SlotAction::Skip, SlotAction::Skip) => true,
            (SlotAction::Assert(c), SlotAction::Assert(d)) => c == d,
            (SlotAction::SetInt(x, e), SlotAction::SetInt(y, f)) => *x == *y && e == f,
            (SlotAction::Input(x), SlotAction::Input(y)) => *x == *y,
            (SlotAction::ReadElement(x, a, e), SlotAction::ReadElement(y, b, f)) => {
                *x == *y && *a == *b && e == f
            }
            (SlotAction::ReadItem(x, p), SlotAction::ReadItem(y, q)) => *x == *y && *p == *q,
            (SlotAction::MakeArray(a, e), SlotAction::MakeArray(b, f)) => *a == *b && e == f,
            (SlotAction::CopyArray(a, b), SlotAction::CopyArray(c, d)) => *a == *c && *b == *d,
            (SlotAction::WriteElement(a, e, f), SlotAction::WriteElement(b, g, h)) => {
                *a == *b && e == g && f == h
            }
            (SlotAction::SetNull(p), SlotAction::SetNull(q)) => *p == *q,
            (SlotAction::MakeCell(p), SlotAction::MakeCell(q)) => *p == *q,
            (SlotAction::CopyLink(p, q), SlotAction::CopyLink(r, s)) => *p == *r && *q == *s,
            (SlotAction::ReadNext(p, q), SlotAction::ReadNext(r, s)) => *p == *r && *q == *s,
            (SlotAction::WriteNext(p, q), SlotAction::WriteNext(r, s)) => *p == *r && *q == *s,
            (SlotAction::WriteItem(p, e), SlotAction::WriteItem(q, f)) => *p == *q && e == f,
            _ => false,
        }
    }
}

impl Eq for SlotAction {
    ghost laws = { same_equiv action_coded };
}

impl PartialEq for SlotStmt {
    ghost eq = { same stmt_coded };

    ghost laws = { same_per stmt_coded };

    fn eq(&self, other: &SlotStmt) -> bool {
        match (self, other) {
            (SlotStmt::Break, SlotStmt::Break) => true,
            (SlotStmt::Simple(a), SlotStmt::Simple(b)) => a == b,
            _ => false,
        }
    }
}

impl Eq for SlotStmt {
    ghost laws = { same_equiv stmt_coded };
}

fn texts_same(a: &Text, b: &Text) -> bool
    ensures same { result ≡ code_same (text_to a.now) (text_to b.now) }
{
    a == b
}

impl PartialEq for NumericSlot {
    ghost eq = { same numeric_code };

    ghost laws = { same_per numeric_code };

    fn eq(&self, other: &NumericSlot) -> bool {
        texts_same(self.name(), other.name()) && self.is_array() == other.is_array()
    }
}

impl Eq for NumericSlot {
    ghost laws = { same_equiv numeric_code };
}

fn numbers_same(a: &[NumericSlot], b: &[NumericSlot]) -> bool
    ensures same { result ≡ code_same (list_to numeric_to a.now) (list_to numeric_to b.now) }
{
    a == b
}

fn links_same(a: &[Text], b: &[Text]) -> bool
    ensures same { result ≡ code_same (list_to text_to a.now) (list_to text_to b.now) }
{
    a == b
}

impl PartialEq for Layout {
    ghost eq = { same layout_code };

    ghost laws = { same_per layout_code };

    fn eq(&self, other: &Layout) -> bool {
        numbers_same(self.numbers(), other.numbers()) && links_same(self.links(), other.links())
    }
}

impl Eq for Layout {
    ghost laws = { same_equiv layout_code };
}

impl PartialEq for Argument {
    ghost eq = { same argument_coded };

    ghost laws = { same_per argument_coded };

    fn eq(&self, other: &Argument) -> bool {
        match (self, other) {
            (Argument::Int(e), Argument::Int(f)) => e == f,
            (Argument::Array(a), Argument::Array(b)) => *a == *b,
            (Argument::Link(p), Argument::Link(q)) => *p == *q,
            _ => false,
        }
    }
}

impl Eq for Argument {
    ghost laws = { same_equiv argument_coded };
}

fn arguments_same(a: &[Argument], b: &[Argument]) -> bool
    ensures same { result ≡ code_same (list_to argument_to (map argument_of a.now))
        (list_to argument_to (map argument_of b.now)) }
{
    a == b
}

impl PartialEq for Entering {
    ghost eq = { same entering_code };

    ghost laws = { same_per entering_code };

    fn eq(&self, other: &Entering) -> bool {
        self.layout() == other.layout() && arguments_same(self.arguments(), other.arguments())
    }
}

impl Eq for Entering {
    ghost laws = { same_equiv entering_code };
}

fn taken_same(a: Option<Returning>, b: Option<Returning>) -> bool
    ensures same { result ≡ code_same (returning_to (taken_of a)) (returning_to (taken_of b)) }
{
    match (a, b) {
        (None, None) => true,
        (Some(Returning::Numeric { to: x, from: y }), Some(Returning::Numeric { to, from })) => {
            x == to && y == from
        }
        (Some(Returning::Link { to: x, from: y }), Some(Returning::Link { to, from })) => {
            x == to && y == from
        }
        _ => false,
    }
}

impl PartialEq for SlotCall {
    ghost eq = { same invoke_code };

    ghost laws = { same_per invoke_code };

    fn eq(&self, other: &SlotCall) -> bool {
        self.entering() == other.entering() && taken_same(self.returning(), other.returning())
    }
}

impl Eq for SlotCall {
    ghost laws = { same_equiv invoke_code };
}

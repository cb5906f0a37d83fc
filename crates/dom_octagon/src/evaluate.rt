//! The ranges and the linear forms of expressions.
ghost use Rattle.std.specs.Prelude.{◌≡◌, ◌<◌, ◌^◌, pos, Some, IfSome, option_map};
ghost use Rattle.dbm_core.specs.Limits.{IsWithin};
ghost use Rattle.dom_octagon_meaning.specs.Claims.{constant_of};
ghost use Rattle.dom_octagon_meaning.specs.Forms as forms;
ghost use Rattle.dom_octagon_meaning.specs.Ranges.{range_at, range_of};
ghost use Rattle.dom_octagon_meaning.specs.declared.form.Form.TheVariants.{Constant};
ghost use Rattle.dom_octagon.specs.GoodForms.{HasShortNode, HasShortNodeIf, IsGoodForm};
ghost use Rattle.dom_octagon_states.specs.Limits.{IsTight};

use dbm_core::other_sign;
use dom_numeric::operate;
use dom_octagon_meaning::Form;
use dom_octagon_states::{Bounds, slot_range};
use imp_slots::{SlotExpr, SlotExprNode};
use imp_syntax::Operator;
use num_bounds::Range;

/// What is known of an expression that has a range: it, and the linear form, if there is one.
#[derive(Clone, Copy)]
pub struct Valued {
    pub range: Range,
    pub form: Option<Form>,
}

/// The range of a slot of a closed matrix, the full one where there is no such slot.
pub fn range(m: &Bounds, x: usize) -> Range
    requires tight { IsTight m.now }
    ensures exact { result ≡ range_at m.now x }
{
    if x < m.kinds().len() {
        let (low, high) = slot_range(m, x);
        return Range::from_ends(low as i64, high as i64);
    }
    Range::from_ends(i64::MIN, i64::MAX)
}

/// The form that is a slot.
pub fn slot_form(x: usize) -> Form
    requires slot { x < 2 ^ 32 }
    ensures exact { result ≡ forms.slot_form x }
    ensures good { IsGoodForm (Some result) }
{
    Form::Node(2 * x, 0)
}

/// A slot.
pub fn slot(m: &Bounds, x: u32) -> Valued
    requires tight { IsTight m.now }
    ensures range { result.range ≡ range_at m.now x }
    ensures form { result.form ≡ Some (forms.slot_form x) }
    ensures good { IsGoodForm result.form }
{
    Valued {
        range: range(m, x as usize),
        form: Some(slot_form(x as usize)),
    }
}

fn negated(form: Form) -> Form
    requires good { IsGoodForm (Some form) }
    ensures exact { result ≡ forms.negated form }
    ensures short { HasShortNode result }
    ensures small { IsWithin (2 ^ 64) (Some (constant_of result)) }
{
    match form {
        Form::Constant(c) => Form::Constant(-c),
        Form::Node(i, c) => Form::Node(other_sign(i), -c),
    }
}

fn sum(a: Form, b: Form) -> Option<Form>
    requires left { IsWithin (2 ^ 64) (Some (constant_of a)) }
    requires right { IsWithin (2 ^ 64) (Some (constant_of b)) }
    requires left_short { HasShortNode a }
    requires right_short { HasShortNode b }
    ensures exact { result ≡ forms.sum_form a b }
    ensures short { HasShortNodeIf result }
{
    match (a, b) {
        (Form::Constant(c), Form::Constant(d)) => Some(Form::Constant(c + d)),
        (Form::Constant(c), Form::Node(i, d)) => Some(Form::Node(i, c + d)),
        (Form::Node(i, c), Form::Constant(d)) => Some(Form::Node(i, c + d)),
        (Form::Node(_, _), Form::Node(_, _)) => None,
    }
}

fn combined(operator: Operator, a: Form, b: Form) -> Option<Form>
    requires left { IsGoodForm (Some a) }
    requires right { IsGoodForm (Some b) }
    ensures exact { result ≡ forms.combined_form operator a b }
    ensures short { HasShortNodeIf result }
{
    match operator {
        Operator::Add => sum(a, b),
        Operator::Subtract => sum(a, negated(b)),
        Operator::Multiply => None,
        Operator::Divide => None,
        Operator::Remainder => None,
    }
}

fn negated_if(form: Option<Form>) -> Option<Form>
    requires good { IsGoodForm form }
    ensures exact { result ≡ forms.if_form form (λ f. Some (forms.negated f)) }
    ensures short { HasShortNodeIf result }
{
    match form {
        None => None,
        Some(form) => Some(negated(form)),
    }
}

fn combined_if(operator: Operator, a: Option<Form>, b: Option<Form>) -> Option<Form>
    requires left { IsGoodForm a }
    requires right { IsGoodForm b }
    ensures exact { result ≡ forms.if_form a (λ f. forms.if_form b
        (forms.combined_form operator f)) }
    ensures short { HasShortNodeIf result }
{
    match (a, b) {
        (Some(a), Some(b)) => combined(operator, a, b),
        (None, _) => None,
        (Some(_), None) => None,
    }
}

fn literal(n: u64) -> Valued
    requires small { n < 2 ^ 63 }
    ensures range { result.range ≡ record { lo = pos n; hi = pos n } }
    ensures form { result.form ≡ Some (Constant (pos n)) }
    ensures short { HasShortNodeIf result.form }
{
    let number = n as i64;
    Valued {
        range: Range::from_ends(number, number),
        form: Some(Form::Constant(n as i128)),
    }
}

/// What is known of an expression of this range and this form.
fn known(m: &Bounds, e: &SlotExpr, range: Range, form: Option<Form>) -> Valued
    requires tight { IsTight m.now }
    requires range { range_of m.now e.now ≡ Some range }
    requires form { form ≡ forms.form_of e.now }
    requires short { HasShortNodeIf form }
    ensures range { result.range ≡ range }
    ensures form { result.form ≡ form }
    ensures good { IsGoodForm result.form }
{
    let _slots = m.kinds();
    let _low = range.lo();
    Valued { range, form }
}

/// What is known of an expression over a closed matrix, or `None` where it has no value.
#[tactic(auto, unfolding(dom_numeric::specs::Ranges::range_by, dom_octagon_meaning::specs::Forms::form_of))]
pub fn evaluate(m: &Bounds, e: &SlotExpr) -> Option<Valued>
    requires tight { IsTight m.now }
    ensures range { option_map (λ v. v.range) result ≡ range_of m.now e.now }
    ensures form { IfSome result (λ v. v.form ≡ forms.form_of e.now) }
    ensures good { IfSome result (λ v. IsGoodForm v.form) }
{
    match e.node() {
        SlotExprNode::Literal(n) => Some(literal(n.value())),
        SlotExprNode::Slot(x) => Some(slot(m, *x)),
        SlotExprNode::Length(a) => Some(slot(m, *a)),
        SlotExprNode::Negative(operand) => {
            let value = evaluate(m, operand)?;
            let range = value.range.neg()?;
            Some(known(m, e, range, negated_if(value.form)))
        }
        SlotExprNode::Binary(operator, a, b) => {
            let a = evaluate(m, a)?;
            let b = evaluate(m, b)?;
            let range = operate(*operator, a.range, b.range)?;
            Some(known(m, e, range, combined_if(*operator, a.form, b.form)))
        }
    }
}

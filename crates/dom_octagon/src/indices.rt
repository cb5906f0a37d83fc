//! Comparisons of an index with the ends of its array.
ghost use Rattle.std.specs.Prelude.{◌≡◌, IfOk};
ghost use Rattle.imp_slots.specs.Plain.{Literal, Length};
ghost use Rattle.dom_octagon_meaning.specs.Operations as operations;

use crate::compare::related;
use crate::evaluate::{evaluate, slot};
use base_values::Memory;
use dom_octagon_meaning::Form;
use dom_octagon_states::{OctagonState, closure, empty};
use imp_slots::SlotExpr;
use imp_syntax::Relation;
use num_bounds::Range;
use std::alloc::Global;

/// What comparing 0 with an index leaves.
#[tactic(auto, unfolding(dom_octagon_meaning::specs::Operations::compare, dom_numeric::specs::Ranges::range_by, dom_octagon_meaning::specs::Forms::form_of))]
pub fn zero_and(
    alloc: Global,
    relation: Relation,
    e: &SlotExpr,
    s: &OctagonState,
) -> Result<OctagonState, Memory>
    ensures exact { IfOk result (λ t. t ≡ operations.compare relation (Literal 0) e.now s.now) }
{
    match closure(s) {
        None => Ok(empty()),
        Some(m) => match evaluate(m, e) {
            None => Ok(empty()),
            Some(index) => related(
                alloc,
                relation,
                m,
                Some(Form::Constant(0)),
                index.form,
                Range::from_ends(0, 0),
                index.range,
            ),
        },
    }
}

/// What comparing an index with an array's length leaves.
#[tactic(auto, unfolding(dom_octagon_meaning::specs::Operations::compare, dom_numeric::specs::Ranges::range_by, dom_octagon_meaning::specs::Forms::form_of))]
pub fn and_length(
    alloc: Global,
    relation: Relation,
    e: &SlotExpr,
    a: u32,
    s: &OctagonState,
) -> Result<OctagonState, Memory>
    ensures exact { IfOk result (λ t. t ≡ operations.compare relation e.now (Length a) s.now) }
{
    match closure(s) {
        None => Ok(empty()),
        Some(m) => match evaluate(m, e) {
            None => Ok(empty()),
            Some(index) => {
                let length = slot(m, a);
                related(
                    alloc,
                    relation,
                    m,
                    index.form,
                    length.form,
                    index.range,
                    length.range,
                )
            }
        },
    }
}

//! Joins, and what is assumed of guards.
ghost use Rattle.std.specs.Prelude.{◌≡◌, IfOk, map};
ghost use Rattle.std.specs.List.{zip};
ghost use Rattle.num_bounds.specs.Operations.{hull_of};
ghost use Rattle.dom_interval_meaning.specs.Operations as operations;

use crate::compare::{compare, empty, opposite_of, within};
use crate::state::Kept;
use crate::{IntervalState, SlotRange};
use base_values::Memory;
use imp_slots::{SlotCond, SlotCondNode, SlotExpr};
use imp_syntax::Relation;
use num_bounds::Range;
use std::alloc::{AllocError, Global};

/// The slots once more.
pub fn copied(slots: &Vec<SlotRange>) -> Result<Vec<SlotRange>, AllocError>
    ensures same { IfOk result (λ v. v.items ≡ slots.now.items) }
{
    slots.clone()
}

/// The state once more.
pub fn copy_of(s: &IntervalState) -> Result<IntervalState, AllocError>
    ensures same { IfOk result (λ t. t ≡ s.now) }
{
    match &s.kept {
        Kept::Empty => Ok(empty()),
        Kept::Within(slots) => Ok(within(copied(slots)?)),
    }
}

fn hull(a: Range, b: Range) -> Range
    ensures exact { result ≡ hull_of a b }
{
    match a.hull(b) {
        Some(range) => range,
        None => a,
    }
}

fn hulls(
    alloc: Global,
    left: &[SlotRange],
    right: &[SlotRange],
) -> Result<Vec<SlotRange>, AllocError>
    ensures exact { IfOk result (λ v. v.items ≡ map (λ p. operations.hull_slot p.0 p.1)
        (zip left.now right.now)) }
{
    left.iter()
        .zip(right.iter())
        .map(|(a, b)| SlotRange {
            is_array: a.is_array,
            range: hull(a.range, b.range),
        })
        .collect(alloc)
}

/// The outer ends of both.
#[tactic(auto, unfolding(dom_interval_meaning::specs::Operations::join))]
pub fn joined(
    alloc: Global,
    l: &IntervalState,
    r: &IntervalState,
) -> Result<IntervalState, AllocError>
    ensures exact { IfOk result (λ t. t ≡ operations.join l.now r.now) }
{
    match (&l.kept, &r.kept) {
        (Kept::Within(a), Kept::Within(b)) => Ok(within(hulls(alloc, a, b)?)),
        (Kept::Empty, _) => copy_of(r),
        (_, Kept::Empty) => copy_of(l),
    }
}

fn compared(relation: Relation, a: &SlotExpr, b: &SlotExpr, s: IntervalState) -> IntervalState
    ensures exact { result ≡ operations.compare relation a.now b.now s }
{
    match s.kept {
        Kept::Empty => empty(),
        Kept::Within(slots) => compare(relation, a, b, slots),
    }
}

/// The state where the condition has this truth value.
#[tactic(auto, unfolding(dom_interval_meaning::specs::Operations::assume), using(crate::proofs::Links::links_say_nothing))]
pub fn assumed(
    alloc: Global,
    c: &SlotCond,
    sense: bool,
    s: IntervalState,
) -> Result<IntervalState, AllocError>
    ensures exact { IfOk result (λ t. t ≡ operations.assume c.now sense s) }
{
    match c.node() {
        SlotCondNode::Compare(relation, a, b) => {
            if sense {
                Ok(compared(*relation, a, b, s))
            } else {
                Ok(compared(opposite_of(*relation), a, b, s))
            }
        }
        SlotCondNode::CompareLinks(_, _, _) => Ok(s),
        SlotCondNode::Not(c) => {
            if sense {
                assumed(alloc, c, false, s)
            } else {
                assumed(alloc, c, true, s)
            }
        }
        SlotCondNode::And(c, d) => {
            if sense {
                let s = assumed(alloc, c, true, s)?;
                return assumed(alloc, d, true, s);
            }
            let copy = copy_of(&s)?;
            let left = assumed(alloc, c, false, s)?;
            let right = assumed(alloc, d, false, copy)?;
            joined(alloc, &left, &right)
        }
        SlotCondNode::Or(c, d) => {
            if !sense {
                let s = assumed(alloc, c, false, s)?;
                return assumed(alloc, d, false, s);
            }
            let copy = copy_of(&s)?;
            let left = assumed(alloc, c, true, s)?;
            let right = assumed(alloc, d, true, copy)?;
            joined(alloc, &left, &right)
        }
    }
}

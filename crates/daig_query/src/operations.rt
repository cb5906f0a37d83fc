//! What rows do to states.
ghost use Rattle.std.specs.Prelude.{◌≡◌, ◌+◌, IsSome, Some, IfOk, option_copied};
ghost use Rattle.daig_query.specs.Made.{IsUnaryOf, IsBinaryOf, IsOperationOf, unary_state, binary_state, row_result};

use base_values::Memory;
use domain_laws::{Domain, Steps};
use imp_flow_rows::{Binary, Row, Unary};
use memo_table::Operation;
use std::alloc::Global;
use std::sync::ledger::Ledger;

/// The operation on one value, owned.
#[inline]
fn of_unary(op: &Unary<'_>) -> Result<Operation, Memory>
    ensures is { IfOk result (IsUnaryOf op.now) }
{
    match op {
        Unary::Post(stmt) => Operation::post(stmt),
        Unary::Assume(cond, sense) => Operation::assume(cond, *sense),
        Unary::Enter(call) => Operation::enter(call),
        Unary::Exit(cond) => Operation::assume(cond, false),
    }
}

/// The operation on two values, owned.
#[inline]
fn of_binary(alloc: Global, op: &Binary<'_>) -> Result<Operation, Memory>
    ensures is { IfOk result (IsBinaryOf op.now) }
{
    match op {
        Binary::Join => Ok(Operation::Join),
        Binary::Leave(call) => Ok(Operation::Leave(call.returning())),
        Binary::Widen(thresholds) => Operation::widen(alloc, thresholds),
    }
}

/// The operation of a row, owned. That of a fixed point, which makes no state, counts as a join.
#[inline]
pub(crate) fn operation_of(alloc: Global, row: &Row<'_>) -> Result<Operation, Memory>
    ensures is { IfOk result (IsOperationOf row.now) }
{
    match row {
        Row::Init(layout) => Ok(Operation::Init((*layout).clone()?)),
        Row::One(op, _) => of_unary(op),
        Row::Two(op, _, _) => of_binary(alloc, op),
        Row::Joins(_, _, _, _) => Ok(Operation::Join),
        Row::Fixed(_, _) => Ok(Operation::Join),
    }
}

/// An operation on one state.
#[inline]
fn apply_unary<D: Domain, L: Ledger>(
    alloc: Global,
    dom: &D,
    op: &Unary<'_>,
    state: &D::State,
    steps: &mut Steps<L>,
) -> Result<D::State, Memory>
    ensures is { IfOk result (λ t. t ≡ unary_state (D.operations dom.now) op.now state.now) }
    ensures ticked { steps.new ≡ steps.old + D.counted dom.now }
{
    match op {
        Unary::Post(stmt) => dom.post(alloc, stmt, state, steps),
        Unary::Assume(cond, sense) => dom.assume(alloc, cond, *sense, state, steps),
        Unary::Enter(call) => dom.enter(alloc, call, state, steps),
        Unary::Exit(cond) => dom.assume(alloc, cond, false, state, steps),
    }
}

/// An operation on two states.
#[inline]
fn apply_binary<D: Domain, L: Ledger>(
    alloc: Global,
    dom: &D,
    op: &Binary<'_>,
    left: &D::State,
    right: &D::State,
    steps: &mut Steps<L>,
) -> Result<D::State, Memory>
    ensures is { IfOk result (λ t. t ≡ binary_state (D.operations dom.now) op.now left.now
        right.now) }
    ensures ticked { steps.new ≡ steps.old + D.counted dom.now }
{
    match op {
        Binary::Join => dom.join(alloc, left, right, steps),
        Binary::Leave(call) => dom.leave(alloc, call, left, right, steps),
        Binary::Widen(thresholds) => dom.widen(alloc, thresholds, left, right, steps),
    }
}

/// What a row makes of the states that it is applied to: of `Init` of none, of a join after a loop with breaks of both.
#[inline]
pub(crate) fn apply<D: Domain, L: Ledger>(
    alloc: Global,
    dom: &D,
    row: &Row<'_>,
    left: Option<&D::State>,
    right: Option<&D::State>,
    steps: &mut Steps<L>,
) -> Result<D::State, Memory>
    requires there { IsSome (row_result (D.operations dom.now) row.now (option_copied left)
        (option_copied right)) }
    ensures is { IfOk result (λ t. row_result (D.operations dom.now) row.now
        (option_copied left.entry) (option_copied right.entry) ≡ Some t) }
    ensures ticked { steps.new ≡ steps.old + D.counted dom.now }
{
    match (row, left, right) {
        (Row::Init(layout), _, _) => dom.init(alloc, layout, steps),
        (Row::One(op, _), Some(state), _) => apply_unary(alloc, dom, op, state, steps),
        (Row::Two(op, _, _), Some(left), Some(right)) => {
            apply_binary(alloc, dom, op, left, right, steps)
        }
        (Row::Joins(_, _, _, _), Some(left), Some(right)) => dom.join(alloc, left, right, steps),
        (Row::Fixed(_, _), Some(left), Some(right)) => dom.join(alloc, left, right, steps),
        _ => unreachable!(),
    }
}

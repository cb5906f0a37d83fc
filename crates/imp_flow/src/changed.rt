//! Whether a statement keeps its rows in another program.
ghost use Rattle.std.specs.Prelude.{◌≡◌, ◌+◌, ◌<◌, drop, length, ◌&&◌, MatchBool, Some};
ghost use Rattle.imp_slots.specs.Fits.{IsChecked};
ghost use Rattle.imp_flow_rows.specs.Entered.{leaves_now, node_now};
ghost use Rattle.imp_flow_rows.specs.Shapes as plain;
ghost use Rattle.imp_flow.specs.Changed.{IsTold, IsChanged, Stays, same_leaves, same_thresholds, same_rounds, same_shapes};
ghost use Rattle.imp_flow.specs.Nodes.{node_of};
ghost use Rattle.imp_flow.specs.Plans.{thresholds_at, plan_nodes};

use crate::flow::Flow;
use cell_names::Point;
use imp_flow_rows::{Leaves, Node, Shape};
use imp_syntax::{ProcId, StmtId};

/// A procedure of the old program and one of the new, and whether they have the same thresholds.
#[derive(Clone, Copy)]
pub(crate) struct ProcPair {
    place: ProcId,
    other: ProcId,
    is_same: bool,
}

/// Whether the breaks of two loops at a place give the same rows. Of the last break only the point before it counts.
#[tactic(auto, using(crate::proofs::SameLeaves::last_same, crate::proofs::SameLeaves::more_same))]
fn same_at(leaves: &Leaves<'_>, others: &Leaves<'_>, place: usize) -> bool
    requires there { place < length (leaves_now leaves.now) }
    requires as_many { length (leaves_now others.now) ≡ length (leaves_now leaves.now) }
    ensures is { same_leaves (drop place (leaves_now leaves.now))
        (drop place (leaves_now others.now)) ≡ (result && same_leaves
        (drop (place + 1) (leaves_now leaves.now)) (drop (place + 1) (leaves_now others.now))) }
{
    let leave = leaves.at(place);
    let other = others.at(place);
    if place + 1 == leaves.len() {
        leave.front == other.front
    } else {
        leave == other
    }
}

/// Whether two loops' breaks give the same rows after the loops.
#[tactic(auto, using(crate::proofs::SameLeaves::leaves_apart, crate::proofs::SameLeaves::leaves_end))]
fn same_leaves(leaves: &Leaves<'_>, others: &Leaves<'_>) -> bool
    ensures is { result ≡ same_leaves (leaves_now leaves.now) (leaves_now others.now) }
{
    let count = leaves.len();
    if others.len() != count {
        return false;
    }
    for i in 0..count {
        if !same_at(leaves, others, i) {
            return false;
        }
    }
    true
}

/// Compares the thresholds of two procedures.
pub(crate) fn pair_of(old: &Flow<'_>, new: &Flow<'_>, place: ProcId, other: ProcId) -> ProcPair
    ensures told { IsTold old.now new.now result }
    ensures place { result.place ≡ place }
    ensures other { result.other ≡ other }
{
    let is_same = old.thresholds(place) == new.thresholds(other);
    ProcPair {
        place,
        other,
        is_same,
    }
}

/// The procedures of a statement, where both programs have it, and else this pair. So thresholds are compared once while
/// statements of one procedure follow each other.
pub(crate) fn pair_at(old: &Flow<'_>, new: &Flow<'_>, pair: ProcPair, stmt: StmtId) -> ProcPair
    requires told { IsTold old.now new.now pair }
    ensures told { IsTold old.now new.now result }
    ensures places { (x y : plain.Node) → node_of (plan_nodes old.now) stmt ≡ Some x →
        node_of (plan_nodes new.now) stmt ≡ Some y → (result.place ≡ x.place) ×
        (result.other ≡ y.place) }
{
    let Some(node) = old.node(stmt) else {
        return pair;
    };
    match new.node(stmt) {
        None => pair,
        Some(other) if pair.place == node.place() && pair.other == other.place() => pair,
        Some(other) => pair_of(old, new, node.place(), other.place()),
    }
}

/// Whether the procedures of two statements have the same thresholds.
fn same_thresholds(
    old: &Flow<'_>,
    new: &Flow<'_>,
    pair: ProcPair,
    node: &Node<'_>,
    other: &Node<'_>,
) -> bool
    requires told { IsTold old.now new.now pair }
    ensures is { result ≡ same_thresholds old.now new.now (node_now node.now).place
        (node_now other.now).place }
{
    if pair.place == node.place() && pair.other == other.place() {
        pair.is_same
    } else {
        old.thresholds(node.place()) == new.thresholds(other.place())
    }
}

/// Whether two loops, whose bodies end at these points, have the same rounds.
fn same_rounds(flow: &Flow<'_>, same_thresholds: bool, end: Point, other: Point) -> bool
    ensures is { result ≡ same_rounds flow.now.engine same_thresholds end other }
{
    let budget = flow.budget();
    budget == 0 || (end == other && (budget <= flow.widening().delay || same_thresholds))
}

/// Whether two statements have the same rows, where the points before them are the same.
fn same_shapes(
    old: &Flow<'_>,
    new: &Flow<'_>,
    pair: ProcPair,
    node: &Node<'_>,
    other: &Node<'_>,
) -> bool
    requires told { IsTold old.now new.now pair }
    ensures is { result ≡ same_shapes old.now.engine
        (thresholds_at old.now (node_now node.now).place)
        (thresholds_at new.now (node_now other.now).place) (node_now node.now).shape
        (node_now other.now).shape }
{
    match (&node.shape(), &other.shape()) {
        (Shape::Act(a), Shape::Act(b)) => *a == *b,
        (Shape::If(a, then, els), Shape::If(b, other_then, other_els)) => {
            *a == *b && *then == *other_then && *els == *other_els
        }
        (Shape::While(a, end, leaves), Shape::While(b, other_end, others)) => {
            *a == *b
                && same_leaves(leaves, others)
                && same_rounds(
                    old,
                    same_thresholds(old, new, pair, node, other),
                    *end,
                    *other_end,
                )
        }
        (Shape::Call(a, _, Some(end)), Shape::Call(b, _, Some(other_end))) => {
            *a == *b && *end == *other_end
        }
        _ => false,
    }
}

/// Whether each point of a statement keeps its row.
pub(crate) fn stays(old: &Flow<'_>, new: &Flow<'_>, pair: ProcPair, stmt: StmtId) -> bool
    requires one { old.now.engine ≡ new.now.engine }
    requires old { IsChecked old.now.program }
    requires new { IsChecked new.now.program }
    requires told { IsTold old.now new.now pair }
    ensures is { MatchBool result (Stays old.now new.now stmt) (IsChanged old.now new.now stmt) }
{
    let Some(node) = old.node(stmt) else {
        return true;
    };
    if node.is_bare() {
        return true;
    }
    match new.node(stmt) {
        None => false,
        Some(other) => {
            let before = node.front();
            let other_before = other.front();
            before == other_before && same_shapes(old, new, pair, &node, &other)
        }
    }
}

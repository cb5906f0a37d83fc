//! The rows of a statement's points.
ghost use Rattle.std.specs.Prelude.{ℕ, ℤ, ◌≡◌, ◌≤◌, ◌<◌, Some, length, option_map, IfSome, List, ◌∷◌};
ghost use Rattle.imp_slots.specs.Plain.{Guard};
ghost use Rattle.batch_meaning.specs.Batch.{LoopOptions};
ghost use Rattle.imp_flow_rows.specs.Near.{PathFrame};
ghost use Rattle.cell_rows.specs.Names.{name, place_of};
ghost use Rattle.imp_flow_rows.specs.Entered.{known_in, front_point, branching, leaves_now, node_now};
ghost use Rattle.imp_flow_rows.specs.Near.{row_in};
ghost use Rattle.imp_flow_rows.specs.Inputs.{BeginsWith};
ghost use Rattle.imp_flow_rows.specs.Shapes as plain;
ghost use Rattle.imp_flow_rows.specs.NodeRows.{iterate_at, joined_at, before_behind, before_by, before_post, before_iterate, breaks_of, joins_at, behind_loop, post_at, post_by, enter_at, branch_at, turn_at, next_at, fix_at, exit_at, leap_at};

use crate::input::Input;
use crate::node::{
    Leaves, Node, else_end, end_in, front_of, if_cond, leaves_of, loop_cond, round_end, then_end,
};
use crate::row::{Binary, Row, Unary, iterate_at};
use cell_names::{NameFrame, Point};
use imp_chains::Widening;
use imp_check::{Entry, SlotForm};
use imp_slots::{SlotCall, SlotCond};
use imp_syntax::{StmtId, StmtNode};
use imp_table::View;

/// The point after a loop with its first breaks.
#[tactic(auto, using(crate::proofs::LeaveLemmas::joined_last))]
fn joined_at(head: StmtId, leaves: &Leaves<'_>, count: usize) -> Point
    requires there { count ≤ length (leaves_now leaves.now) }
    ensures is { result ≡ joined_at head (breaks_of (leaves_now leaves.now)) count }
{
    if count == 0 {
        Point::Exit(head)
    } else {
        Point::Leap(head, leaves.at(count - 1).stmt)
    }
}

/// The row that joins a break to a loop's exit and the breaks before.
#[tactic(auto, using(crate::proofs::LeaveLemmas::joins_some, crate::proofs::LeaveLemmas::joins_none))]
fn joins_row<'a>(stays: bool, head: StmtId, leaves: &Leaves<'_>, place: usize) -> Option<Row<'a>>
    ensures is { (w : List PathFrame) → option_map (row_in w) result ≡
        joins_at w stays head (leaves_now leaves.now) place }
{
    if place < leaves.len() {
        let left = joined_at(head, leaves, place);
        Some(Row::Joins(stays, left, head, leaves.at(place).front))
    } else {
        None
    }
}

#[inline]
fn behind_loop<'a>(head: StmtId, cond: &'a SlotCond, leaves: &Leaves<'_>) -> Option<Row<'a>>
    ensures is { (w : List PathFrame) → option_map (row_in w) result ≡ behind_loop w head cond.now
        (leaves_now leaves.now) (length (leaves_now leaves.now)) }
{
    let count = leaves.len();
    if count == 0 {
        Some(Row::One(Unary::Assume(cond, false), Input::here(Point::Fix(head))))
    } else {
        // in a variable, so that the row of a loop without breaks is copied once less
        let row = joins_row(false, head, leaves, count - 1);
        row
    }
}

/// After a statement with a condition.
#[inline]
fn behind_branching<'a>(prog: &'a View<'a>, entry: &'a Entry, cond: &'a SlotCond) -> Option<Row<'a>>
    ensures is { (w : List PathFrame) → option_map (row_in w) result ≡ post_by w entry.now.number
        (front_point entry.now) (branching (known_in prog.now) entry.now cond.now entry.now.part) }
{
    match entry.part.node() {
        StmtNode::While(_, _) => behind_loop(entry.number, cond, &leaves_of(prog, entry)),
        _ => Some(Row::Two(
            Binary::Join,
            Input::here(then_end(entry)),
            Input::here(else_end(entry)),
        )),
    }
}

/// After a call: back from the callee, where its body ends at this point.
#[inline]
fn behind_call<'a>(entry: &Entry, call: &'a SlotCall, end: Option<Point>) -> Option<Row<'a>>
    ensures is { (w : List PathFrame) (q : ℕ) → option_map (row_in w) result ≡
        post_by w entry.now.number (front_point entry.now) (plain.Call call.now q end) }
{
    match end {
        None => None,
        Some(end) => {
            let done = Input::inside(NameFrame::InCall(entry.number), end);
            Some(Row::Two(Binary::Leave(call), Input::here(front_of(entry)), done))
        }
    }
}

/// After a statement.
#[inline]
pub fn post_row<'a>(node: &Node<'a>) -> Option<Row<'a>>
    ensures is { (w : List PathFrame) → option_map (row_in w) result ≡
        post_at w (node_now node.now) }
{
    let prog = node.prog;
    let entry = node.known;
    match &entry.form {
        SlotForm::Stmt(stmt) => Some(Row::One(Unary::Post(stmt), Input::here(front_of(entry)))),
        SlotForm::Cond(cond) => behind_branching(prog, entry, cond),
        SlotForm::Call(call, callee) => {
            behind_call(entry, call, end_in(prog, entry.context.proc, *callee))
        }
    }
}

/// The point of the first input of the row after a loop.
#[inline]
fn before_behind_loop(head: StmtId, leaves: &Leaves<'_>) -> Point
    ensures is { result ≡ before_behind head (leaves_now leaves.now)
        (length (leaves_now leaves.now)) }
{
    let count = leaves.len();
    if count == 0 {
        Point::Fix(head)
    } else {
        joined_at(head, leaves, count - 1)
    }
}

/// The point of the first input of the row after a statement with a condition.
#[inline]
fn before_branching<'a>(prog: &'a View<'a>, entry: &'a Entry) -> Point
    ensures is { (g : Guard) → result ≡ before_by entry.now.number (front_point entry.now)
        (branching (known_in prog.now) entry.now g entry.now.part) }
{
    match entry.part.node() {
        StmtNode::While(_, _) => before_behind_loop(entry.number, &leaves_of(prog, entry)),
        _ => then_end(entry),
    }
}

/// The point of the first input of the row after a statement. Both names have the same path.
#[tactic(auto, using(crate::proofs::RowLemmas::begins_post))]
#[inline]
pub fn before_post(node: &Node<'_>) -> Point
    ensures is { result ≡ before_post (node_now node.now) }
    ensures first { (w : List PathFrame) → BeginsWith (post_at w (node_now node.now))
        (name w result) }
{
    match &node.known.form {
        SlotForm::Cond(_) => before_branching(node.prog, node.known),
        _ => front_of(node.known),
    }
}

/// The point of the first input of the iterate of a loop after that of this index. Both names have the same path.
#[inline]
pub fn before_iterate(node: &Node<'_>, index: u32) -> Point
    ensures is { result ≡ before_iterate index (node_now node.now) }
    ensures first { (w : List PathFrame) (engine : LoopOptions) (thresholds : List ℤ) →
        BeginsWith (next_at w engine thresholds index (node_now node.now)) (name w result) }
{
    iterate_at(node.stmt(), node.front(), index)
}

/// Into the procedure that a statement calls.
#[tactic(auto, using(crate::proofs::RowLemmas::enters_none))]
#[inline]
pub fn enter_row<'a>(node: &Node<'a>) -> Option<Row<'a>>
    ensures is { (f : PathFrame) (w : List PathFrame) → option_map (row_in (f ∷ w)) result ≡
        enter_at w (node_now node.now) }
{
    let entry = node.known;
    match &entry.form {
        SlotForm::Call(call, callee) => match end_in(node.prog, entry.context.proc, *callee) {
            Some(_) => Some(Row::One(Unary::Enter(call), Input::out(front_of(entry)))),
            None => None,
        },
        _ => None,
    }
}

/// Into a block of an if: the first where `sense`.
#[tactic(auto, using(crate::proofs::RowLemmas::branch_chosen))]
#[inline]
pub fn branch_row<'a>(node: &Node<'a>, sense: bool) -> Option<Row<'a>>
    ensures is { (w : List PathFrame) → option_map (row_in w) result ≡
        branch_at w sense (node_now node.now) }
{
    match if_cond(node.known) {
        Some(cond) => Some(Row::One(Unary::Assume(cond, sense), Input::here(node.front()))),
        None => None,
    }
}

/// Into a round of a loop, from the iterate of this index.
#[inline]
pub fn turn_row<'a>(node: &Node<'a>, budget: u32, widening: Widening, index: u32) -> Option<Row<'a>>
    ensures is { (f : PathFrame) (w : List PathFrame) → option_map (row_in (f ∷ w)) result ≡
        turn_at w (record { budget = budget; widening = widening }) index (node_now node.now) }
{
    match loop_cond(node.known) {
        Some(cond) if index < budget => {
            let from = iterate_at(node.stmt(), node.front(), index);
            Some(Row::One(Unary::Assume(cond, true), Input::out(from)))
        }
        _ => None,
    }
}

/// The iterate of a loop after that of this index.
#[inline]
pub fn next_row<'a>(
    node: &Node<'a>,
    thresholds: &'a [i64],
    budget: u32,
    widening: Widening,
    index: u32,
) -> Option<Row<'a>>
    ensures is { (w : List PathFrame) → option_map (row_in w) result ≡
        next_at w (record { budget = budget; widening = widening }) thresholds.now index
        (node_now node.now) }
{
    match loop_cond(node.known) {
        Some(_) if index < budget => {
            let operation = if index < widening.delay {
                Binary::Join
            } else {
                Binary::Widen(thresholds)
            };
            let from = iterate_at(node.stmt(), node.front(), index);
            let frame = NameFrame::InLoop(node.stmt(), index);
            let round = Input::inside(frame, round_end(node.known));
            Some(Row::Two(operation, Input::here(from), round))
        }
        _ => None,
    }
}

/// Where the iterates of a loop stop.
#[inline]
pub fn fix_row<'a>(node: &Node<'a>) -> Option<Row<'a>>
    ensures is { (w : List PathFrame) → option_map (row_in w) result ≡
        fix_at w (node_now node.now) }
{
    match loop_cond(node.known) {
        Some(_) => Some(Row::Fixed(node.stmt(), node.front())),
        None => None,
    }
}

/// After a loop with breaks, by its condition alone.
#[inline]
pub fn exit_row<'a>(node: &Node<'a>) -> Option<Row<'a>>
    ensures is { (w : List PathFrame) → option_map (row_in w) result ≡
        exit_at w (node_now node.now) }
{
    match loop_cond(node.known) {
        Some(cond) if leaves_of(node.prog, node.known).len() > 0 => Some(Row::One(
            Unary::Exit(cond),
            Input::here(Point::Fix(node.stmt())),
        )),
        _ => None,
    }
}

/// Where a break stands among these.
#[tactic(auto, using(crate::proofs::LeaveLemmas::place_found, crate::proofs::LeaveLemmas::place_passed, crate::proofs::LeaveLemmas::place_none))]
fn place_of(leaves: &Leaves<'_>, stmt: StmtId) -> Option<usize>
    ensures is { result ≡ place_of stmt (breaks_of (leaves_now leaves.now)) }
    ensures within { IfSome result (λ i. i < length (leaves_now leaves.now)) }
{
    for i in 0..leaves.len() {
        if leaves.number_at(i) == stmt {
            return Some(i);
        }
    }
    None
}

/// After a loop with its breaks up to this one, which is not its last.
pub fn leap_row<'a>(node: &Node<'a>, stmt: StmtId) -> Option<Row<'a>>
    ensures is { (w : List PathFrame) → option_map (row_in w) result ≡
        leap_at w stmt (node_now node.now) }
{
    match loop_cond(node.known) {
        Some(_) => {
            let leaves = leaves_of(node.prog, node.known);
            let count = leaves.len();
            match place_of(&leaves, stmt) {
                Some(place) if place + 1 < count => joins_row(true, node.stmt(), &leaves, place),
                _ => None,
            }
        }
        None => None,
    }
}

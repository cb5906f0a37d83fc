//! The flow of a program.
ghost use Rattle.std.specs.Prelude.{true, false, ◌≡◌, option_map, Some, IfSome, List, ◌∷◌, reverse};
ghost use Rattle.imp_slots.specs.Fits.{IsChecked};
ghost use Rattle.imp_check.specs.Slots.{routines_of};
ghost use Rattle.batch_meaning.specs.Places.{main_layout};
ghost use Rattle.call_contexts.specs.Settings.{setting_of};
ghost use Rattle.cell_names.specs.declared.frame.Point.TheVariants.{Entry, Body, Iterate};
ghost use Rattle.cell_rows.specs.Names.{name};
ghost use Rattle.cell_rows.specs.Rows.{Init};
ghost use Rattle.cell_rows.specs.Flat.{flat_row};
ghost use Rattle.imp_flow_rows.specs.Entered.{node_now};
ghost use Rattle.imp_flow_rows.specs.Near.{PathFrame, last_frame, row_in};
ghost use Rattle.imp_flow_rows.specs.Inputs.{BeginsWith};
ghost use Rattle.imp_flow_rows.specs.NodeRows.{before_post, branch_at, post_at, fix_at, exit_at, leap_at};
ghost use Rattle.imp_flow.specs.Nodes.{node_of};
ghost use Rattle.imp_flow.specs.Plans.{loops_at, thresholds_at, plan_nodes, plan_of, by_node, node_row, front_of, point_before};

use crate::nodes::node_of;
use call_contexts::{Setting, main_place};
use cell_names::{NameFrame, Point};
use imp_chains::Widening;
use imp_flow_rows::{
    Node, Row, before_iterate, before_post, branch_row, enter_row, exit_row, fix_row, leap_row,
    next_row, post_row, turn_row,
};
use imp_slots::Layout;
use imp_syntax::{ProcId, StmtId};
use imp_table::View;
use std::marker::Model;

/// A program as it is read, and how its loops are interpreted.
#[derive(Drop)]
pub struct Flow<'a> {
    prog: View<'a>,
    setting: &'a Setting,
}

impl<'a> Model for Flow<'a> {
    ghost use Rattle.std.specs.Prelude.{◌≡◌};
    ghost use Rattle.imp_check.specs.Slots.{routines_of};
    ghost use Rattle.call_contexts.specs.Settings.{setting_of};
    ghost use Rattle.imp_flow.specs.Plans.{Plan, plan_of};

    ghost Value = { Plan };

    ghost use Rattle.imp_flow.specs.PlanCode.{plan_code};

    ghost coded = { plan_code };

    ghost view = { λ a. plan_of (routines_of a.prog) a.setting.now.engine };

    ghost invariant = { λ a. a.setting.now ≡ setting_of a.setting.now.engine (routines_of a.prog) };
}

/// The variables of main.
#[tactic(auto, using(crate::proofs::EnteredLemmas::main_there, crate::proofs::EnteredLemmas::main_gone))]
pub(crate) fn main_layout<'a>(prog: &View<'a>) -> &'a Layout
    ensures is { result.now ≡ main_layout (reverse (routines_of prog.now)) }
{
    match prog.layout(ProcId::new(main_place(prog))) {
        Some(layout) => layout,
        None => unreachable!(),
    }
}

impl<'a> Flow<'a> {
    /// The flow of a program by its setting. It takes constant time.
    pub fn new(prog: View<'a>, setting: &'a Setting) -> Flow<'a>
        requires setting { setting.now ≡ setting_of setting.now.engine (routines_of prog) }
        ensures is { result ≡ plan_of (routines_of prog.entry) setting.now.engine }
    {
        Flow { prog, setting }
    }

    /// The program.
    pub fn program(&self) -> &View<'a>
        ensures is { routines_of result.now ≡ self.now.program }
    {
        &self.prog
    }

    /// The most rounds that a loop takes.
    #[inline]
    pub fn budget(&self) -> u32
        ensures is { result ≡ self.now.engine.budget }
    {
        self.setting.budget()
    }

    /// How loops are widened.
    #[inline]
    pub fn widening(&self) -> Widening
        ensures is { result ≡ self.now.engine.widening }
    {
        self.setting.widening()
    }

    /// The statement of a number. It takes constant time.
    #[inline]
    pub(crate) fn node(&self, stmt: StmtId) -> Option<Node<'_>>
        ensures is { option_map node_now result ≡ node_of (plan_nodes self.now) stmt }
    {
        node_of(&self.prog, stmt)
    }

    /// The thresholds of a procedure.
    #[inline]
    pub(crate) fn thresholds(&self, proc: ProcId) -> &[i64]
        ensures is { result.now ≡ thresholds_at self.now proc }
    {
        self.setting.thresholds(proc.place() as usize)
    }

    /// The loops of a procedure, their numbers rising.
    pub(crate) fn loops(&self, proc: ProcId) -> &[StmtId]
        ensures are { result.now ≡ loops_at self.now proc }
    {
        self.setting.loops(proc.place() as usize)
    }

    /// The start of main.
    #[inline]
    fn main_row(&self) -> Option<Row<'_>>
        ensures is { (w : List PathFrame) → option_map (row_in w) result ≡
            Some (Init (main_layout (reverse self.now.program))) }
    {
        Some(Row::Init(main_layout(&self.prog)))
    }

    /// The start of a procedure's body.
    #[inline]
    fn entry_row(&self, frame: NameFrame) -> Option<Row<'_>>
        ensures is { (w : List PathFrame) → option_map (row_in (frame ∷ w)) result ≡
            node_row self.now (frame ∷ w) Entry }
    {
        match frame {
            NameFrame::InCall(stmt) => match self.node(stmt) {
                None => None,
                Some(node) => enter_row(&node),
            },
            NameFrame::InLoop(_, _) => None,
        }
    }

    /// The start of a loop's body.
    #[inline]
    fn body_row(&self, frame: NameFrame) -> Option<Row<'_>>
        ensures is { (w : List PathFrame) → option_map (row_in (frame ∷ w)) result ≡
            node_row self.now (frame ∷ w) Body }
    {
        match frame {
            NameFrame::InCall(_) => None,
            NameFrame::InLoop(stmt, index) => match self.node(stmt) {
                None => None,
                Some(node) => turn_row(&node, self.budget(), self.widening(), index),
            },
        }
    }

    /// The start of a procedure's body, or of main's.
    #[inline]
    fn first_row(&self, frame: Option<NameFrame>) -> Option<Row<'_>>
        ensures is { (w : List PathFrame) → last_frame w ≡ frame →
            option_map (row_in w) result ≡ node_row self.now w Entry }
    {
        match frame {
            None => self.main_row(),
            Some(frame) => self.entry_row(frame),
        }
    }

    /// The start of a loop's body.
    #[inline]
    fn turn_row(&self, frame: Option<NameFrame>) -> Option<Row<'_>>
        ensures is { (w : List PathFrame) → last_frame w ≡ frame →
            option_map (row_in w) result ≡ node_row self.now w Body }
    {
        match frame {
            None => None,
            Some(frame) => self.body_row(frame),
        }
    }

    /// An iterate of a loop.
    #[tactic(auto, using(crate::proofs::FlowLemmas::iterate_found, crate::proofs::FlowLemmas::iterate_gone))]
    #[inline]
    fn iterate_row(&self, stmt: StmtId, index: u32) -> Option<Row<'_>>
        ensures is { (w : List PathFrame) → option_map (row_in w) result ≡
            node_row self.now w (Iterate stmt index) }
    {
        if index == 0 {
            return None;
        }
        match self.node(stmt) {
            None => None,
            Some(node) => {
                let thresholds = self.thresholds(node.place());
                next_row(&node, thresholds, self.budget(), self.widening(), index - 1)
            }
        }
    }

    /// The start of a block of an if: the first where `sense`.
    #[inline]
    fn branch_row(&self, stmt: StmtId, sense: bool) -> Option<Row<'_>>
        ensures is { (w : List PathFrame) → option_map (row_in w) result ≡
            by_node self.now stmt (branch_at w sense) }
    {
        match self.node(stmt) {
            None => None,
            Some(node) => branch_row(&node, sense),
        }
    }

    /// The start of the first block of an if.
    #[inline]
    fn then_row(&self, stmt: StmtId) -> Option<Row<'_>>
        ensures is { (w : List PathFrame) → option_map (row_in w) result ≡
            by_node self.now stmt (branch_at w true) }
    {
        // in a variable, so that the rows of other points are copied once less
        let row = self.branch_row(stmt, true);
        row
    }

    /// The start of the second block of an if.
    #[inline]
    fn else_row(&self, stmt: StmtId) -> Option<Row<'_>>
        ensures is { (w : List PathFrame) → option_map (row_in w) result ≡
            by_node self.now stmt (branch_at w false) }
    {
        // as in `then_row`
        let row = self.branch_row(stmt, false);
        row
    }

    /// After a statement.
    #[inline]
    fn post_row(&self, stmt: StmtId) -> Option<Row<'_>>
        ensures is { (w : List PathFrame) → option_map (row_in w) result ≡
            by_node self.now stmt (post_at w) }
    {
        match self.node(stmt) {
            None => None,
            Some(node) => post_row(&node),
        }
    }

    /// Where the iterates of a loop stop.
    #[inline]
    fn fix_row(&self, stmt: StmtId) -> Option<Row<'_>>
        ensures is { (w : List PathFrame) → option_map (row_in w) result ≡
            by_node self.now stmt (fix_at w) }
    {
        match self.node(stmt) {
            None => None,
            Some(node) => fix_row(&node),
        }
    }

    /// After a loop with breaks, by its condition alone.
    fn exit_row(&self, stmt: StmtId) -> Option<Row<'_>>
        ensures is { (w : List PathFrame) → option_map (row_in w) result ≡
            by_node self.now stmt (exit_at w) }
    {
        match self.node(stmt) {
            None => None,
            Some(node) => exit_row(&node),
        }
    }

    /// After a loop with its breaks up to this one.
    fn leap_row(&self, stmt: StmtId, last: StmtId) -> Option<Row<'_>>
        ensures is { (w : List PathFrame) → option_map (row_in w) result ≡
            by_node self.now stmt (leap_at w last) }
    {
        match self.node(stmt) {
            None => None,
            Some(node) => {
                // as in `then_row`
                let row = leap_row(&node, last);
                row
            }
        }
    }

    #[inline(always)]
    fn node_row(&self, frame: Option<NameFrame>, point: Point) -> Option<Row<'_>>
        ensures is { (w : List PathFrame) → last_frame w ≡ frame →
            option_map (row_in w) result ≡ node_row self.now w point }
    {
        match point {
            Point::Entry => self.first_row(frame),
            Point::Body => self.turn_row(frame),
            Point::Iterate(stmt, index) => self.iterate_row(stmt, index),
            Point::Then(stmt) => self.then_row(stmt),
            Point::Else(stmt) => self.else_row(stmt),
            Point::Post(stmt) => self.post_row(stmt),
            Point::Fix(stmt) => self.fix_row(stmt),
            Point::Exit(stmt) => self.exit_row(stmt),
            Point::Leap(stmt, last) => self.leap_row(stmt, last),
        }
    }

    /// The point before a statement.
    #[inline]
    fn front_of(&self, stmt: StmtId) -> Option<Point>
        ensures is { result ≡ front_of self.now stmt }
    {
        match self.node(stmt) {
            None => None,
            Some(node) => Some(node.front()),
        }
    }

    /// The point of the first input of the row after a statement.
    #[inline(always)]
    fn point_before_post(&self, stmt: StmtId) -> Option<Point>
        ensures is { result ≡ option_map before_post (node_of (plan_nodes self.now) stmt) }
    {
        match self.node(stmt) {
            None => None,
            Some(node) => Some(before_post(&node)),
        }
    }

    /// The point of the first input of an iterate.
    #[tactic(auto, using(crate::proofs::FlowLemmas::before_gone))]
    #[inline]
    fn point_before_iterate(&self, stmt: StmtId, index: u32) -> Option<Point>
        ensures is { result ≡ point_before self.now (Iterate stmt index) }
    {
        if index == 0 {
            return None;
        }
        match self.node(stmt) {
            None => None,
            Some(node) => Some(before_iterate(&node, index - 1)),
        }
    }

    /// The point of the first input of a name's row, by the name's point, where both have the same path. It spares the
    /// row where that input is to be filled first. It is `None` for the start of a body, and after a loop with some of
    /// its breaks, where the row alone tells it. It takes constant time.
    #[inline(always)]
    pub fn point_before(&self, point: Point) -> Option<Point>
        ensures is { result ≡ point_before self.now point }
        ensures first { IfSome result (λ p. (w : List PathFrame) → BeginsWith
            (flat_row self.now.engine (reverse self.now.program) w point) (name w p)) }
    {
        match point {
            Point::Post(stmt) => self.point_before_post(stmt),
            Point::Then(stmt) | Point::Else(stmt) | Point::Fix(stmt) => self.front_of(stmt),
            Point::Iterate(stmt, index) => self.point_before_iterate(stmt, index),
            Point::Exit(stmt) => Some(Point::Fix(stmt)),
            Point::Entry | Point::Body | Point::Leap(_, _) => None,
        }
    }

    /// The row of a name, by the last frame of its path and its point: for a name that the program has, exactly its
    /// row. Only the statement of the point is looked up, so a name whose path the program lacks may have a row too;
    /// there is `None` where the program has no such point. It takes constant time, except a [`Point::Leap`], which
    /// takes time linear in the breaks of its loop.
    #[tactic(auto, using(crate::proofs::Ties::rows_tie))]
    #[inline(always)]
    pub fn row(&self, frame: Option<NameFrame>, point: Point) -> Option<Row<'_>>
        ensures is { (w : List PathFrame) → last_frame w ≡ frame →
            option_map (row_in w) result ≡ flat_row self.now.engine
            (reverse self.now.program) w point }
    {
        self.node_row(frame, point)
    }
}

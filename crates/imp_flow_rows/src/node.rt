//! Statements as nodes of the flow, read off the table of statements.
ghost use Rattle.std.specs.Prelude.{ℕ, ◌≡◌, ◌<◌, Option, length, slice_get, option_map, Some};
ghost use Rattle.cell_names.specs.declared.frame.Point.TheVariants.{Body, Then, Else};
ghost use Rattle.imp_flow_rows.specs.Entered.{Table, known_in, start_of, behind_or, front_point, front_in, leaves_by, end_in, branching, shape_from, leaves_now, shape_now, node_now};
ghost use Rattle.imp_flow_rows.specs.Shapes.{callee_at, is_while, is_bare};
ghost use Rattle.imp_flow_rows.specs.NodeRows.{breaks_of, looping, choosing, looping_by};

use cell_names::Point;
use imp_check::{Around, Entry, SlotForm, Which};
use imp_slots::{SlotCall, SlotCond, SlotStmt};
use imp_syntax::{ProcId, StmtId, StmtNode};
use imp_table::View;

/// A break that leaves a loop, and the point before it.
#[derive(Clone, Copy, Debug, PartialEq, Eq, Drop)]
pub struct Leave {
    pub stmt: StmtId,
    pub front: Point,
}

/// The breaks that leave a loop, in the order of the text.
#[derive(Clone, Copy, Drop)]
pub struct Leaves<'a> {
    prog: &'a View<'a>,
    breaks: &'a [StmtId],
}

/// What a statement does to the flow.
#[derive(Clone, Copy, Drop)]
pub enum Shape<'a> {
    /// A simple statement but a call.
    Act(&'a SlotStmt),
    /// An if: its condition, and the last points of its blocks.
    If(&'a SlotCond, Point, Point),
    /// A while: its condition, the last point of its body, and the breaks that leave it.
    While(&'a SlotCond, Point, Leaves<'a>),
    /// A call, its callee, and the last point of the callee's body, `None` where no such procedure stands before.
    Call(&'a SlotCall, ProcId, Option<Point>),
}

/// A statement, and where it stands. Each part is read off the table when it is asked for, in constant time and without
/// memory.
#[derive(Clone, Copy, Drop)]
pub struct Node<'a> {
    /// The program that it is of.
    pub prog: &'a View<'a>,
    /// What is known of it.
    pub known: &'a Entry,
}

/// The point at which a block begins.
#[inline]
fn start_of(around: Option<Around>) -> Point
    ensures is { result ≡ start_of around }
{
    match around {
        None => Point::Entry,
        Some(Around { stmt, which }) => match which {
            Which::Then => Point::Then(stmt),
            Which::Else => Point::Else(stmt),
            Which::Body => Point::Body,
        },
    }
}

/// After a statement, or else this point.
#[inline]
pub fn behind_or(first: Point, stmt: Option<StmtId>) -> Point
    ensures is { result ≡ behind_or first stmt }
{
    match stmt {
        None => first,
        Some(stmt) => Point::Post(stmt),
    }
}

/// The point before a statement.
#[inline]
pub(crate) fn front_of(entry: &Entry) -> Point
    ensures is { result ≡ front_point entry.now }
{
    behind_or(start_of(entry.context.around), entry.front)
}

/// The point before the statement of a number.
#[inline]
fn front_in(prog: &View<'_>, stmt: StmtId) -> Point
    ensures is { result ≡ front_in (known_in prog.now stmt) }
{
    match prog.entry(stmt) {
        None => Point::Entry,
        Some(entry) => front_of(entry),
    }
}

impl<'a> Leaves<'a> {
    /// How many there are.
    #[tactic(auto, using(crate::proofs::LeaveLemmas::leaves_long))]
    #[inline]
    pub fn len(&self) -> usize
        ensures is { result ≡ length (leaves_now self.now) }
    {
        self.breaks.len()
    }

    /// The break at a place.
    #[tactic(auto, using(crate::proofs::LeaveLemmas::leaves_long, crate::proofs::LeaveLemmas::leave_there))]
    #[inline]
    pub fn at(&self, place: usize) -> Leave
        requires there { place < length (leaves_now self.now) }
        ensures is { slice_get (leaves_now self.now) place ≡ Some result }
    {
        let stmt = self.breaks[place];
        let front = front_in(self.prog, stmt);
        Leave { stmt, front }
    }

    /// The number of the break at a place.
    #[tactic(auto, using(crate::proofs::LeaveLemmas::leaves_long, crate::proofs::LeaveLemmas::number_there))]
    #[inline(always)]
    pub(crate) fn number_at(&self, place: usize) -> StmtId
        requires there { place < length (leaves_now self.now) }
        ensures is { slice_get (breaks_of (leaves_now self.now)) place ≡ Some result }
    {
        self.breaks[place]
    }
}

/// The last point of the body of a procedure that stands before another one.
#[inline]
pub(crate) fn end_in(prog: &View<'_>, place: ProcId, callee: ProcId) -> Option<Point>
    ensures is { result ≡ end_in prog.now place callee }
{
    if callee.place() >= place.place() {
        return None;
    }
    match prog.body(callee) {
        None => None,
        Some(ends) => Some(behind_or(Point::Entry, ends.last)),
    }
}

/// The breaks that leave a loop.
#[inline]
pub(crate) fn leaves_of<'a>(prog: &'a View<'a>, entry: &'a Entry) -> Leaves<'a>
    ensures is { leaves_now result ≡ leaves_by (known_in prog.now) entry.now }
{
    let breaks = entry.breaks.as_slice();
    Leaves { prog, breaks }
}

/// The last point of the body of a while.
#[inline]
pub(crate) fn round_end(entry: &Entry) -> Point
    ensures is { result ≡ behind_or Body entry.now.inner.last }
{
    behind_or(Point::Body, entry.inner.last)
}

/// The last point of the first block of an if.
#[inline]
pub(crate) fn then_end(entry: &Entry) -> Point
    ensures is { result ≡ behind_or (Then entry.now.number) entry.now.inner.last }
{
    behind_or(Point::Then(entry.number), entry.inner.last)
}

/// The last point of the second block of an if.
#[inline]
pub(crate) fn else_end(entry: &Entry) -> Point
    ensures is { result ≡ behind_or (Else entry.now.number) entry.now.other.last }
{
    behind_or(Point::Else(entry.number), entry.other.last)
}

/// The condition of a while, `None` of any other statement.
#[inline]
pub(crate) fn loop_cond(entry: &Entry) -> Option<&SlotCond>
    ensures is { (at : Table) (ends : ℕ → Option Point) → option_map (λ c. looping_by at entry.now
        c.now) result ≡ looping (shape_from at ends entry.now entry.now.form) }
{
    match &entry.form {
        SlotForm::Cond(cond) => match entry.part.node() {
            StmtNode::While(_, _) => Some(cond),
            _ => None,
        },
        _ => None,
    }
}

/// The condition of an if, `None` of any other statement.
#[inline]
pub(crate) fn if_cond(entry: &Entry) -> Option<&SlotCond>
    ensures is { (at : Table) (ends : ℕ → Option Point) → option_map (λ c. c.now) result ≡
        choosing (shape_from at ends entry.now entry.now.form) }
{
    match &entry.form {
        SlotForm::Cond(cond) => match entry.part.node() {
            StmtNode::While(_, _) => None,
            _ => Some(cond),
        },
        _ => None,
    }
}

/// What a statement with a condition does to the flow.
#[inline]
fn branching<'a>(prog: &'a View<'a>, entry: &'a Entry, cond: &'a SlotCond) -> Shape<'a>
    ensures is { shape_now result ≡ branching (known_in prog.now) entry.now cond.now
        entry.now.part }
{
    match entry.part.node() {
        StmtNode::While(_, _) => Shape::While(cond, round_end(entry), leaves_of(prog, entry)),
        _ => Shape::If(cond, then_end(entry), else_end(entry)),
    }
}

impl<'a> Node<'a> {
    /// Its number.
    #[inline]
    pub fn stmt(&self) -> StmtId
        ensures is { result ≡ (node_now self.now).stmt }
    {
        self.known.number
    }

    /// Its procedure.
    #[inline]
    pub fn place(&self) -> ProcId
        ensures is { result ≡ (node_now self.now).place }
    {
        self.known.context.proc
    }

    /// The point before it.
    #[inline]
    pub fn front(&self) -> Point
        ensures is { result ≡ (node_now self.now).front }
    {
        front_of(self.known)
    }

    /// Whether it is a loop.
    #[tactic(auto, using(crate::proofs::RowLemmas::while_loops))]
    pub fn is_loop(&self) -> bool
        ensures is { result ≡ is_while (node_now self.now).shape }
    {
        match loop_cond(self.known) {
            Some(_) => true,
            None => false,
        }
    }

    /// The callee of a call, where such a procedure stands before.
    #[tactic(auto, using(crate::proofs::RowLemmas::calls_none))]
    pub fn callee(&self) -> Option<ProcId>
        ensures is { result ≡ callee_at (node_now self.now).shape }
    {
        match &self.known.form {
            SlotForm::Call(_, callee) => {
                match end_in(self.prog, self.known.context.proc, *callee) {
                    Some(_) => Some(*callee),
                    None => None,
                }
            }
            _ => None,
        }
    }

    /// Whether none of its points has a row: a call of a procedure that does not stand before.
    #[tactic(auto, using(crate::proofs::RowLemmas::bare_never))]
    pub fn is_bare(&self) -> bool
        ensures is { result ≡ is_bare (node_now self.now).shape }
    {
        match &self.known.form {
            SlotForm::Call(_, callee) => {
                match end_in(self.prog, self.known.context.proc, *callee) {
                    Some(_) => false,
                    None => true,
                }
            }
            _ => false,
        }
    }

    /// What it does to the flow.
    pub fn shape(&self) -> Shape<'a>
        ensures is { shape_now result ≡ (node_now self.now).shape }
    {
        let prog = self.prog;
        let entry = self.known;
        match &entry.form {
            SlotForm::Stmt(stmt) => Shape::Act(stmt),
            SlotForm::Cond(cond) => branching(prog, entry, cond),
            SlotForm::Call(call, callee) => {
                Shape::Call(call, *callee, end_in(prog, entry.context.proc, *callee))
            }
        }
    }
}

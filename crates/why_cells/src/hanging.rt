//! The statements that the names of cells hang on.
ghost use Rattle.std.specs.Prelude.{◌≡◌, ◌<◌, ◌⊎◌, ℕ, List, ◌∷◌, length, true, false, Contains, Some, None, slice_get, OnOk, option_map, reverse};
ghost use Rattle.cell_names.specs.declared.frame.Point.TheVariants.{Entry, Body};
ghost use Rattle.cell_names.specs.Paths.{CellName, name_in, path_at};
ghost use Rattle.cell_rows.specs.Rows.{Row as PlainRow};
ghost use Rattle.cell_rows.specs.Flat.{flat_row};
ghost use Rattle.imp_flow.specs.Plans.{Plan};
ghost use Rattle.imp_flow_rows.specs.Near.{PathFrame, last_frame, row_in};
ghost use Rattle.daig_graph.specs.Cells.{AreCells};
ghost use Rattle.batch_meaning.specs.Values.{Value as PlainValue};
ghost use Rattle.daig_query.specs.Answered.{value_in};
ghost use Rattle.cell_graph.specs.Same.{same_name};
ghost use Rattle.daig_query.specs.Right.{found, IsRight};
ghost use Rattle.why_slice.specs.Upstream.{hung_on, is_live, matters, statement_of_name};
ghost use Rattle.why_cells.specs.Told.{hangs, is_effect, HasInputs, IsCellAt, Takes};

use base_values::Memory;
use cell_names::{Name, NameFrame, Names, PathId, Point};
use daig_query::Engine;
use domain_laws::Domain;
use imp_flow::Flow;
use imp_flow_rows::{Row, Unary};
use imp_slots::SlotStmt;
use why_slice::StatementSet;

/// The last frame of a path.
fn last_frame(names: &Names, path: PathId) -> Option<NameFrame>
    requires there { path < length names.now.paths }
    ensures is { result ≡ last_frame (path_at names.now.paths path) }
{
    match names.last_frame(path) {
        Some((_, frame)) => Some(frame),
        None => None,
    }
}

/// The call that a frame goes into.
fn call_of(frame: NameFrame) -> Option<u32>
    ensures is { (v : List PathFrame) → result ≡ statement_of_name (frame ∷ v) Entry }
{
    match frame {
        NameFrame::InCall(site) => Some(site.number()),
        NameFrame::InLoop(..) => None,
    }
}

/// The call that leads to a body.
fn called_by(frame: Option<NameFrame>) -> Option<u32>
    ensures is { (w : List PathFrame) → last_frame w ≡ frame → result ≡ statement_of_name w Entry }
{
    match frame {
        Some(frame) => call_of(frame),
        None => None,
    }
}

/// The loop that a frame goes into.
fn loop_of(frame: NameFrame) -> Option<u32>
    ensures is { (v : List PathFrame) → result ≡ statement_of_name (frame ∷ v) Body }
{
    match frame {
        NameFrame::InCall(_) => None,
        NameFrame::InLoop(head, _) => Some(head.number()),
    }
}

/// The loop that leads to a round.
fn looped_by(frame: Option<NameFrame>) -> Option<u32>
    ensures is { (w : List PathFrame) → last_frame w ≡ frame → result ≡ statement_of_name w Body }
{
    match frame {
        Some(frame) => loop_of(frame),
        None => None,
    }
}

/// The statement that a name names.
#[inline(always)]
fn pointed(names: &Names, name: &Name) -> Option<u32>
    requires there { name.now.path < length names.now.paths }
    ensures is { result ≡ statement_of_name (path_at names.now.paths name.now.path) name.now.point }
{
    match name.point {
        Point::Entry => called_by(last_frame(names, name.path)),
        Point::Body => looped_by(last_frame(names, name.path)),
        Point::Then(stmt)
        | Point::Else(stmt)
        | Point::Post(stmt)
        | Point::Iterate(stmt, _)
        | Point::Fix(stmt)
        | Point::Exit(stmt)
        | Point::Leap(_, stmt) => Some(stmt.number()),
    }
}

/// The row of a name.
fn row_of<'a>(flow: &'a Flow<'_>, names: &Names, name: &Name) -> Option<Row<'a>>
    requires there { name.now.path < length names.now.paths }
    ensures is { option_map (row_in (path_at names.now.paths name.now.path)) result ≡
        flat_row flow.now.engine (reverse flow.now.program) (path_at names.now.paths name.now.path)
        name.now.point }
{
    flow.row(last_frame(names, name.path), name.point)
}

/// Whether the row of a name is that of a point after a simple statement, which is no break.
fn is_effect(row: &Row<'_>) -> bool
    ensures is { (w : List PathFrame) → result ≡ is_effect (row_in w row.now) }
{
    match row {
        Row::One(Unary::Post(stmt), _) => match *stmt {
            SlotStmt::Break => false,
            SlotStmt::Simple(_) => true,
        },
        _ => false,
    }
}

/// Whether a cell holds a state that is not a dead one.
#[tactic(auto, using(crate::proofs::Hung::live_some, crate::proofs::Hung::live_none))]
fn is_live<D: Domain>(engine: &Engine<D>, cell: usize) -> bool
    requires there { (v : PlainValue D.State) × (value_in engine.now.store cell ≡ Some v) }
    ensures is { (v : PlainValue D.State) → value_in engine.now.store cell ≡ Some v →
        result ≡ is_live (D.operations engine.now.domain) v }
{
    match engine.state(cell) {
        Some(state) => !engine.domain().dead(state),
        None => false,
    }
}

/// Whether the first input of a cell holds a state that is not a dead one. A name without a row has no input.
#[inline(always)]
fn is_live_in_front<D: Domain>(engine: &Engine<D>, inputs: &[usize]) -> bool
    requires right { (plan : Plan) × IsRight (D.operations engine.now.domain) plan
        engine.now.store }
    requires cells { AreCells engine.now.store.graph.cells inputs.now }
    ensures is { (plan : Plan) (n : ℕ) (x : CellName) (r : PlainRow) →
        IsRight (D.operations engine.now.domain) plan engine.now.store →
        IsCellAt engine.now.store n x inputs.now →
        flat_row plan.engine (reverse plan.program) x.path x.point ≡ Some r →
        is_effect r ≡ true → result ≡ matters (D.operations engine.now.domain)
        (found (D.operations engine.now.domain) plan) r }
    ensures row { (plan : Plan) (n : ℕ) (x : CellName) →
        IsRight (D.operations engine.now.domain) plan engine.now.store →
        IsCellAt engine.now.store n x inputs.now →
        flat_row plan.engine (reverse plan.program) x.path x.point ≡ None → result ≡ false }
{
    match inputs.first() {
        Some(first) => is_live(engine, *first),
        None => false,
    }
}

/// Whether the name of a cell with these inputs hangs on the statement that it names. Its row is needed only where no
/// state that is not a dead one stands in front.
#[inline(always)]
fn hangs<D: Domain>(engine: &Engine<D>, flow: &Flow<'_>, inputs: &[usize], name: &Name) -> bool
    requires right { IsRight (D.operations engine.now.domain) flow.now engine.now.store }
    requires cells { AreCells engine.now.store.graph.cells inputs.now }
    requires there { (n : ℕ) × IsCellAt engine.now.store n
        (name_in engine.now.store.names.paths name.now) inputs.now }
    requires path { name.now.path < length engine.now.store.names.paths }
    ensures is { result ≡ hangs (D.operations engine.now.domain)
        (found (D.operations engine.now.domain) flow.now)
        (flat_row flow.now.engine (reverse flow.now.program)
        (path_at engine.now.store.names.paths name.now.path) name.now.point) }
{
    if is_live_in_front(engine, inputs) {
        return true;
    }
    match row_of(flow, engine.names(), name) {
        None => false,
        Some(row) => !is_effect(&row),
    }
}

/// The statement that the name of a cell with these inputs hangs on, unless it is told already.
#[inline(always)]
fn hung_on<D: Domain>(
    engine: &Engine<D>,
    flow: &Flow<'_>,
    cell: usize,
    inputs: &[usize],
    told: &StatementSet,
) -> Option<u32>
    requires right { IsRight (D.operations engine.now.domain) flow.now engine.now.store }
    requires there { HasInputs engine.now.store.graph.cells cell inputs.now }
    requires cells { AreCells engine.now.store.graph.cells inputs.now }
    ensures only { (x : CellName) (n : ℕ) → slice_get engine.now.store.names.names cell ≡ Some x →
        result ≡ Some n →
        Contains (hung_on (D.operations engine.now.domain) flow.now.engine flow.now.program
        same_name x (flat_row flow.now.engine (reverse flow.now.program) x.path x.point)) n }
    ensures each { (x : CellName) (n : ℕ) → slice_get engine.now.store.names.names cell ≡ Some x →
        Contains (hung_on (D.operations engine.now.domain) flow.now.engine flow.now.program
        same_name x (flat_row flow.now.engine (reverse flow.now.program) x.path x.point)) n →
        (result ≡ Some n) ⊎ Contains told.now n }
{
    let names = engine.names();
    let name = names.get(cell);
    match pointed(names, &name) {
        None => None,
        Some(number) => {
            if told.has(number) {
                return None;
            }
            if hangs(engine, flow, inputs, &name) {
                Some(number)
            } else {
                None
            }
        }
    }
}

/// Puts the statement that the name of a cell with these inputs hangs on among those that are told. It takes constant
/// time, except for a leap whose statement is not told before and that no live state leads to: then it takes time linear
/// in the breaks of its loop.
///
/// # Errors
///
/// [`Memory`] alone.
#[inline(always)]
pub(crate) fn tell<D: Domain>(
    engine: &Engine<D>,
    flow: &Flow<'_>,
    cell: usize,
    inputs: &[usize],
    told: &mut StatementSet,
) -> Result<(), Memory>
    requires right { IsRight (D.operations engine.now.domain) flow.now engine.now.store }
    requires there { HasInputs engine.now.store.graph.cells cell inputs.now }
    requires cells { AreCells engine.now.store.graph.cells inputs.now }
    ensures tells { (x : CellName) → slice_get engine.now.store.names.names cell ≡ Some x →
        OnOk result (Takes told.old (hung_on (D.operations engine.now.domain) flow.now.engine
        flow.now.program same_name x (flat_row flow.now.engine (reverse flow.now.program) x.path
        x.point)) told.new) }
{
    if let Some(number) = hung_on(engine, flow, cell, inputs, told) {
        told.put(number)?;
    }
    Ok(())
}

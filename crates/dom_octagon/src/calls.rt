//! Layouts, and the frames that calls enter.
ghost use Rattle.std.specs.Prelude.{◌≡◌, ◌<◌, ◌≤◌, ◌*◌, ◌^◌, ◌/◌, Some, None, MatchOption, IfOk, length, map, slice_get, take, pos};
ghost use Rattle.std.specs.Option.{option_map};
ghost use Rattle.dbm_core.specs.Half.{entry, nodes};
ghost use Rattle.dbm_core.specs.Limits.{IsLimited, IsWithin};
ghost use Rattle.dbm_core.specs.Tables.{matrix_of};
ghost use Rattle.dbm_close.specs.CloseOf.{close_of};
ghost use Rattle.imp_slots.specs.CallViews.{argument_of};
ghost use Rattle.dom_octagon_meaning.specs.Operations as operations;
ghost use Rattle.dom_octagon_states.specs.Limits.{IsReady, IsTight};
ghost use Rattle.dom_octagon.specs.Lists.{AreOrdered, behind_these};

use crate::evaluate::evaluate;
use crate::matrices::meet_range;
use base_values::Memory;
use dbm_core::Matrix;
use dom_octagon_meaning::ArgumentSource;
use dom_octagon_states::{
    Bounds, OctagonState, bounds_of, close_kept, closed_matrix, closure, empty,
};
use imp_slots::{Argument, Entering, Layout, NumericSlot, SlotExpr, SlotExprNode};
use std::alloc::{AllocError, Global};

fn first_kinds(alloc: Global, numbers: &[NumericSlot]) -> Result<Vec<bool>, AllocError>
    ensures exact { IfOk result (λ v. v.items ≡ map (λ k. k.is_array) (take 16 numbers.now)) }
{
    numbers
        .iter()
        .take(16)
        .map(|number| number.is_array())
        .collect(alloc)
}

/// The kinds of the first 16 slots.
#[tactic(auto, using(crate::proofs::FirstKinds::kinds_taken, dom_octagon_meaning::proofs::Fitting::kinds_few))]
pub fn kinds(alloc: Global, numbers: &[NumericSlot]) -> Result<Vec<bool>, Memory>
    ensures exact { IfOk result (λ v. v.items ≡ operations.kinds_of numbers.now) }
    ensures few { IfOk result (λ v. length v.items ≤ 16) }
{
    Ok(first_kinds(alloc, numbers)?)
}

/// All slots 0.
fn zeros(alloc: Global, kinds: &[bool]) -> Result<Matrix, Memory>
    requires few { length kinds.now ≤ 16 }
    ensures value { IfOk result (λ m. m ≡ matrix_of kinds.now (λ i j. Some (pos 0))) }
    ensures ready { IfOk result IsReady }
{
    Matrix::from_fn(
        alloc,
        kinds,
        |_i: usize, _j: usize| -> Option<i128>
            ensures value { result ≡ Some (pos 0) }
        { Some(0) },
    )
}

/// The state before main's body.
#[tactic(auto, unfolding(dom_octagon_meaning::specs::Operations::init))]
pub fn initial(alloc: Global, main: &Layout) -> Result<OctagonState, Memory>
    ensures exact { IfOk result (λ s. s ≡ operations.init main.now) }
{
    let kinds = kinds(alloc, main.numbers())?;
    let zeros = zeros(alloc, &kinds)?;
    let zeros = bounds_of(alloc, zeros)?;
    closed_matrix(alloc, &zeros)
}

/// Where an int argument has its value from: a variable's or an array's slot, else its range.
fn source(m: &Bounds, e: &SlotExpr) -> Option<ArgumentSource>
    requires tight { IsTight m.now }
    ensures exact { result ≡ operations.source_of m.now e.now }
{
    match e.node() {
        SlotExprNode::Slot(x) => Some(ArgumentSource::FromSlot(*x)),
        SlotExprNode::Length(a) => Some(ArgumentSource::FromSlot(*a)),
        SlotExprNode::Literal(_) => ranged_source(m, e),
        SlotExprNode::Negative(_) => ranged_source(m, e),
        SlotExprNode::Binary(_, _, _) => ranged_source(m, e),
    }
}

/// Any number of the range of an expression.
fn ranged_source(m: &Bounds, e: &SlotExpr) -> Option<ArgumentSource>
    requires tight { IsTight m.now }
    ensures exact { result ≡ operations.ranged_source m.now e.now }
{
    match evaluate(m, e) {
        None => None,
        Some(value) => Some(ArgumentSource::InRange(value.range)),
    }
}

/// The sources of the arguments that take numeric slots, after these.
#[tactic(auto, using(crate::specs::Lists::behind_front))]
fn sources(
    m: &Bounds,
    arguments: &[Argument],
    sources: Vec<ArgumentSource>,
) -> Result<Option<Vec<ArgumentSource>>, Memory>
    requires tight { IsTight m.now }
    ensures exact { IfOk result (λ o. option_map (λ r. r.items) o ≡ behind_these sources.items
        (operations.sources m.now (map argument_of arguments.now))) }
{
    match arguments {
        [] => Ok(Some(sources)),
        [Argument::Link(_), rest @ ..] => self::sources(m, rest, sources),
        [Argument::Array(a), rest @ ..] => {
            let mut sources = sources;
            sources.push(ArgumentSource::FromSlot(*a))?;
            self::sources(m, rest, sources)
        }
        [Argument::Int(e), rest @ ..] => {
            let mut sources = sources;
            match source(m, e) {
                None => return Ok(None),
                Some(source) => sources.push(source)?,
            }
            self::sources(m, rest, sources)
        }
    }
}

/// The slot of the caller that is a slot's source, if one is.
fn source_at(sources: &[ArgumentSource], k: usize) -> Option<ArgumentSource>
    ensures exact { result ≡ slice_get sources.now k }
{
    if k < sources.len() {
        Some(sources[k])
    } else {
        None
    }
}

/// The bound on two nodes of the caller's matrix, none where they are no nodes.
pub fn bound_at(m: &Bounds, i: usize, j: usize) -> Option<i128>
    ensures exact { result ≡ entry m.now i j }
{
    let nodes = 2 * m.kinds().len();
    if i < nodes && j < nodes {
        m.get(i, j)
    } else {
        None
    }
}

/// The bound between two nodes of the callee, by the sources of their slots.
fn copied(
    m: &Bounds,
    i: usize,
    j: usize,
    first: Option<ArgumentSource>,
    second: Option<ArgumentSource>,
) -> Option<i128>
    ensures exact { result ≡ operations.copied m.now i j first second }
{
    match (first, second) {
        (Some(ArgumentSource::FromSlot(x)), Some(ArgumentSource::FromSlot(y))) => {
            bound_at(m, 2 * (x as usize) + i % 2, 2 * (y as usize) + j % 2)
        }
        (Some(ArgumentSource::FromSlot(_)), Some(ArgumentSource::InRange(_))) => None,
        (Some(ArgumentSource::FromSlot(_)), None) => None,
        (Some(ArgumentSource::InRange(_)), _) => None,
        (None, Some(_)) => None,
        (None, None) => Some(0),
    }
}

/// The bound between two nodes of the callee before those that ranges give.
fn entered_bound(m: &Bounds, sources: &[ArgumentSource], i: usize, j: usize) -> Option<i128>
    ensures exact { result ≡ operations.entered m.now sources.now i j }
{
    if i == j {
        return Some(0);
    }
    copied(
        m,
        i,
        j,
        source_at(sources, i / 2),
        source_at(sources, j / 2),
    )
}

/// The callee's matrix before the slots that have a range meet it.
fn entered_matrix(
    alloc: Global,
    m: &Bounds,
    kinds: &[bool],
    sources: &[ArgumentSource],
) -> Result<Matrix, Memory>
    requires few { length kinds.now ≤ 16 }
    requires limited { IsLimited (2 ^ 64) m.now }
    ensures value { IfOk result (λ r. r ≡ matrix_of kinds.now
        (operations.entered m.now sources.now)) }
    ensures ready { IfOk result IsReady }
{
    let _slots = m.kinds();
    Matrix::from_fn(
        alloc,
        kinds,
        |i: usize, j: usize| -> Option<i128>
            ensures value { result ≡ operations.entered m.entry.now sources.entry.now i j }
        { entered_bound(m, sources, i, j) },
    )
}

/// Makes the slots from k on that have a range meet it.
fn meet_sources(m: &mut Matrix, k: usize, sources: &[ArgumentSource])
    requires slot { k ≤ 17 }
    ensures value { m.new ≡ operations.meet_sources m.old k sources.now }
    ensures ready { IsReady m.old → IsReady m.new }
{
    if k >= m.kinds().len() {
        return;
    }
    match sources {
        [] => {}
        [ArgumentSource::FromSlot(_), rest @ ..] => meet_sources(m, k + 1, rest),
        [ArgumentSource::InRange(range), rest @ ..] => {
            meet_range(m, k, *range);
            meet_sources(m, k + 1, rest);
        }
    }
}

/// The state before a callee's body, from a closed matrix of the caller.
fn entered_by(alloc: Global, entering: &Entering, m: &Bounds) -> Result<OctagonState, Memory>
    requires tight { IsTight m.now }
    ensures exact { IfOk result (λ t. t ≡ operations.entered_by m.now entering.now.layout.numbers
        (operations.sources m.now entering.now.arguments)) }
{
    match sources(m, entering.arguments(), Vec::new(alloc))? {
        None => Ok(empty()),
        Some(sources) => {
            let kinds = kinds(alloc, entering.layout().numbers())?;
            close_entered(alloc, m, &kinds, &sources)
        }
    }
}

/// The ends of each range are in order: there is nothing to do.
fn ordered(sources: &[ArgumentSource])
    ensures ordered { AreOrdered sources.now }
{
    match sources {
        [] => {}
        [ArgumentSource::FromSlot(_), rest @ ..] => ordered(rest),
        [ArgumentSource::InRange(range), rest @ ..] => {
            let _low = range.lo();
            ordered(rest);
        }
    }
}

/// The callee's matrix, closed.
fn close_entered(
    alloc: Global,
    m: &Bounds,
    kinds: &[bool],
    sources: &[ArgumentSource],
) -> Result<OctagonState, Memory>
    requires few { length kinds.now ≤ 16 }
    requires tight { IsTight m.now }
    ensures exact { IfOk result (λ t. t ≡ close_of (operations.meet_sources
        (matrix_of kinds.now (operations.entered m.now sources.now)) 0 sources.now)) }
{
    ordered(sources);
    let mut callee = entered_matrix(alloc, m, kinds, sources)?;
    meet_sources(&mut callee, 0, sources);
    let callee = bounds_of(alloc, callee)?;
    close_kept(alloc, m, &callee)
}

/// The state before a callee's body.
#[tactic(auto, unfolding(dom_octagon_meaning::specs::Operations::enter))]
pub fn entered(alloc: Global, entering: &Entering, s: &OctagonState) -> Result<OctagonState, Memory>
    ensures exact { IfOk result (λ t. t ≡ operations.enter entering.now s.now) }
{
    match closure(s) {
        None => Ok(empty()),
        Some(m) => entered_by(alloc, entering, m),
    }
}

//! Joins and widenings.
ghost use Rattle.std.specs.Prelude.{◌≡◌, ◌^◌, true, IfOk};
ghost use Rattle.dbm_core.specs.Limits.{IsLimited};
ghost use Rattle.dbm_core.specs.Operations as dbm;
ghost use Rattle.dbm_core.specs.Same.{same_matrix};
ghost use Rattle.dbm_core.specs.Tables.{matrix_of};
ghost use Rattle.dom_octagon_meaning.specs.Operations as operations;
ghost use Rattle.dbm_close.specs.CloseOf.{close_of};
ghost use Rattle.dbm_close.specs.declared.closed.Closed.TheVariants as variants;
ghost use Rattle.dbm_incremental.specs.ClosedMatrices.{IsClosed};
ghost use Rattle.dom_octagon_states.specs.Limits.{IsTight};

use crate::OctagonState;
use crate::bounds::Bounds;
use crate::close::{bounded, closed_copy, closure, copy_of, empty, widened_to};
use crate::operations::{join, widen};
use crate::state::matrix_of_state;
use base_values::Memory;
use std::alloc::Global;

/// Whether two matrices have the same kinds of slots.
#[tactic(auto, using(crate::proofs::SameKinds::kinds_alike))]
fn alike(a: &Bounds, b: &Bounds) -> bool
    ensures exact { result ≡ operations.same_kinds a.now b.now }
    ensures same { result ≡ true → b.now.kinds ≡ a.now.kinds }
{
    a.kinds() == b.kinds()
}

/// The greater bound at each pair of closed matrices.
fn join_of(alloc: Global, a: &Bounds, b: &Bounds) -> Result<Bounds, Memory>
    requires same { b.now.kinds ≡ a.now.kinds }
    requires left { IsTight a.now }
    requires right { IsTight b.now }
    ensures value { IfOk result (λ r. variants.Matrix r ≡
        close_of (matrix_of a.now.kinds (dbm.joined a.now b.now))) }
    ensures closed { IfOk result IsClosed }
{
    let _left = a.kinds();
    let _right = b.kinds();
    join(alloc, a, b)
}

/// The left matrix widened by the right one.
fn widening_of(alloc: Global, thresholds: &[i64], a: &Bounds, b: &Bounds) -> Result<Bounds, Memory>
    requires same { b.now.kinds ≡ a.now.kinds }
    requires left { IsLimited (2 ^ 64) a.now }
    requires right { IsLimited (2 ^ 64) b.now }
    ensures value { IfOk result (λ r. r ≡ matrix_of a.now.kinds
        (dbm.widened thresholds.now a.now b.now)) }
    ensures limited { IfOk result (IsLimited (2 ^ 64)) }
{
    let _left = a.kinds();
    let _right = b.kinds();
    widen(alloc, thresholds, a, b)
}

fn join_matrices(alloc: Global, a: &Bounds, b: &Bounds) -> Result<OctagonState, Memory>
    requires left { IsTight a.now }
    requires right { IsTight b.now }
    ensures exact { IfOk result (λ s. s ≡ operations.join_matrices a.now b.now) }
{
    if alike(a, b) {
        return Ok(bounded(join_of(alloc, a, b)?));
    }
    closed_copy(a)
}

/// What either state describes.
#[tactic(auto, unfolding(dom_octagon_meaning::specs::Operations::join))]
pub fn joined(alloc: Global, s: &OctagonState, t: &OctagonState) -> Result<OctagonState, Memory>
    ensures exact { IfOk result (λ r. r ≡ operations.join s.now t.now) }
{
    match (closure(s), closure(t)) {
        (Some(a), Some(b)) => join_matrices(alloc, a, b),
        (Some(a), None) => closed_copy(a),
        (None, Some(b)) => closed_copy(b),
        (None, None) => Ok(empty()),
    }
}

/// Whether two matrices are the same.
#[tactic(auto, using(crate::proofs::SameKinds::matrices_same))]
fn is_same(a: &Bounds, b: &Bounds) -> bool
    ensures exact { result ≡ same_matrix a.now b.now }
    ensures same { result ≡ true → a.now ≡ b.now }
{
    *a == *b
}

/// The state s, of the matrix a, widened by a closed matrix of the same kinds. Where no bound rises
/// nothing is closed.
fn widen_matrices(
    alloc: Global,
    thresholds: &[i64],
    s: &OctagonState,
    a: &Bounds,
    b: &Bounds,
) -> Result<OctagonState, Memory>
    requires left { IsLimited (2 ^ 64) a.now }
    requires right { IsLimited (2 ^ 64) b.now }
    requires same { b.now.kinds ≡ a.now.kinds }
    requires is { s.now ≡ variants.Matrix a.now }
    ensures exact { IfOk result (λ t. t ≡ variants.Matrix
        (matrix_of a.now.kinds (dbm.widened thresholds.now a.now b.now))) }
{
    let widening = widening_of(alloc, thresholds, a, b)?;
    if is_same(a, &widening) {
        return copy_of(s);
    }
    widened_to(alloc, widening)
}

/// The left state, as it is, widened by the right one closed.
#[tactic(auto, unfolding(dom_octagon_meaning::specs::Operations::widen))]
pub fn widened(
    alloc: Global,
    thresholds: &[i64],
    s: &OctagonState,
    t: &OctagonState,
) -> Result<OctagonState, Memory>
    ensures exact { IfOk result (λ r. r ≡ operations.widen thresholds.now s.now t.now) }
{
    match (matrix_of_state(s), closure(t)) {
        (Some(a), Some(b)) => {
            if alike(a, b) {
                return widen_matrices(alloc, thresholds, s, a, b);
            }
            copy_of(s)
        }
        (None, Some(b)) => closed_copy(b),
        (Some(_), None) => copy_of(s),
        (None, None) => Ok(empty()),
    }
}

//! What a state says of fault points.
ghost use Rattle.std.specs.Prelude.{◌≡◌, IfOk};
ghost use Rattle.imp_slots.specs.Plain.{Assert, Does};
ghost use Rattle.imp_words.specs.declared.verdict.Verdict.TheVariants as of_check;
ghost use Rattle.imp_slots.specs.ActionViews.{act_of};
ghost use Rattle.fault_verdicts.specs.Verdicts.{rank, same_kind, told, stronger, verdict_at, verdict_of, is_among, kinds_of};

use base_values::{Items, Memory};
use domain_laws::{Domain, Verdict};
use fault_points::FaultPoint;
use fault_words::FaultVerdict;
use imp_slots::{SlotAction, SlotCond, SlotCondNode, SlotStmt};
use imp_words::FaultKind;
use std::alloc::Global;

fn rank(kind: FaultKind) -> u32
    ensures is { result ≡ rank kind }
{
    match kind {
        FaultKind::Overflow => 0,
        FaultKind::Zero => 1,
        FaultKind::Length => 2,
        FaultKind::Index => 3,
        FaultKind::Null => 4,
        FaultKind::Assert => 5,
    }
}

fn same_kind(j: FaultKind, k: FaultKind) -> bool
    ensures is { result ≡ same_kind j k }
{
    rank(j) == rank(k)
}

/// What is told of a claim that may fail, by what a state says of its opposite.
fn told(opposite: Verdict) -> FaultVerdict
    ensures is { result ≡ told of_check.May opposite }
{
    match opposite {
        Verdict::Dead => FaultVerdict::Dead,
        Verdict::Safe => FaultVerdict::Fails,
        Verdict::May => FaultVerdict::May,
    }
}

/// The one that says more of a fault.
fn stronger(a: FaultVerdict, b: FaultVerdict) -> FaultVerdict
    ensures is { result ≡ stronger a b }
{
    match (a, b) {
        (FaultVerdict::Dead, _) => FaultVerdict::Dead,
        (FaultVerdict::Safe, b) => b,
        (FaultVerdict::May, FaultVerdict::Dead) => FaultVerdict::Dead,
        (FaultVerdict::May, FaultVerdict::Safe) => FaultVerdict::May,
        (FaultVerdict::May, FaultVerdict::May) => FaultVerdict::May,
        (FaultVerdict::May, FaultVerdict::Fails) => FaultVerdict::Fails,
        (FaultVerdict::Fails, FaultVerdict::Dead) => FaultVerdict::Dead,
        (FaultVerdict::Fails, FaultVerdict::Safe) => FaultVerdict::Fails,
        (FaultVerdict::Fails, FaultVerdict::May) => FaultVerdict::Fails,
        (FaultVerdict::Fails, FaultVerdict::Fails) => FaultVerdict::Fails,
    }
}

/// An assertion of a condition.
fn assertion(c: SlotCond) -> SlotStmt
    ensures is { act_of result ≡ Does (Assert c) }
{
    SlotStmt::Simple(SlotAction::Assert(c))
}

/// What a state says of a claim.
fn verdict_at<D: Domain>(
    alloc: Global,
    dom: &D,
    s: &D::State,
    claim: &SlotCond,
) -> Result<FaultVerdict, Memory>
    ensures is { IfOk result (λ v. v ≡ verdict_at (D.operations dom.now) s.now claim.now) }
{
    match dom.check(alloc, &assertion(claim.clone()?), s)? {
        Verdict::Dead => Ok(FaultVerdict::Dead),
        Verdict::Safe => Ok(FaultVerdict::Safe),
        Verdict::May => {
            let opposite = SlotCond::new(alloc, SlotCondNode::Not(claim.clone()?))?;
            Ok(told(dom.check(alloc, &assertion(opposite), s)?))
        }
    }
}

/// What a state says of the points of a kind.
pub(crate) fn verdict_of<D: Domain>(
    alloc: Global,
    dom: &D,
    s: &D::State,
    kind: FaultKind,
    points: &[FaultPoint],
) -> Result<FaultVerdict, Memory>
    ensures is { IfOk result (λ v. v ≡ verdict_of (D.operations dom.now) s.now kind points.now) }
{
    match points {
        [] => Ok(FaultVerdict::Safe),
        [point, rest @ ..] => {
            let others = verdict_of(alloc, dom, s, kind, rest)?;
            if same_kind(point.kind, kind) {
                Ok(stronger(verdict_at(alloc, dom, s, &point.claim)?, others))
            } else {
                Ok(others)
            }
        }
    }
}

/// Whether a kind is among these.
fn is_among(kind: FaultKind, kinds: &[FaultKind]) -> bool
    ensures is { result ≡ is_among kind kinds.now }
{
    match kinds {
        [] => false,
        [first, rest @ ..] => same_kind(*first, kind) || is_among(kind, rest),
    }
}

/// The kinds of points, each once, in the order in which they come.
pub(crate) fn kinds_of(alloc: Global, points: &[FaultPoint]) -> Result<Items<FaultKind>, Memory>
    ensures are { IfOk result (λ ks. ks ≡ kinds_of points.now) }
{
    let mut kinds = Items::new(alloc);
    for point in points {
        if !is_among(point.kind, kinds.as_slice()) {
            kinds.push(point.kind)?;
        }
    }
    Ok(kinds)
}

//! The findings of a statement.
ghost use Rattle.std.specs.Prelude.{◌≡◌, ◌++◌, map, IfOk, OnOk};
ghost use Rattle.batch_meaning.specs.Answers as meaning;
ghost use Rattle.fault_verdicts.specs.Report.{verdict_in, fault_finding, findings_by};
ghost use Rattle.fault_verdicts.specs.Known.{IsKnown};

use crate::verdicts::{kinds_of, verdict_of};
use crate::{Evaluated, Known};
use base_values::Memory;
use domain_laws::Domain;
use fault_points::FaultPoint;
use fault_words::{FaultFinding, FaultFindings, FaultVerdict};
use imp_syntax::StmtId;
use imp_words::FaultKind;
use std::alloc::Global;

/// What is known of a kind of fault.
fn verdict_in<D: Domain>(
    alloc: Global,
    dom: &D,
    known: &Known<D::State>,
    kind: FaultKind,
    points: &[FaultPoint],
) -> Result<FaultVerdict, Memory>
    ensures is { (a : meaning.Answer D.State) → IsKnown a known.now →
        IfOk result (λ v. v ≡ verdict_in (D.operations dom.now) a kind points.now) }
{
    match known {
        Known::Absent => Ok(FaultVerdict::Dead),
        Known::Nothing => Ok(FaultVerdict::May),
        Known::State(state) => verdict_of(alloc, dom, state, kind, points),
    }
}

/// Adds what is found of these kinds of faults.
fn add_kinds<D: Domain>(
    alloc: Global,
    dom: &D,
    x: &Evaluated,
    kinds: &[FaultKind],
    known: &Known<D::State>,
    found: &mut FaultFindings,
) -> Result<(), Memory>
    ensures added { (a : meaning.Answer D.State) → IsKnown a known.now →
        OnOk result (found.new ≡ found.old
        ++ map (fault_finding (D.operations dom.now) a x.now) kinds.now) }
{
    for kind in kinds {
        let verdict = verdict_in(alloc, dom, known, *kind, x.points.as_slice())?;
        found.push(FaultFinding {
            id: StmtId::new(x.number),
            fault: *kind,
            verdict,
        })?;
    }
    Ok(())
}

/// Adds what is found of a statement, by what is known where it evaluates: a finding for each kind of fault, in the order
/// in which the kinds come. It fails only when memory runs out.
pub fn add_findings<D: Domain>(
    alloc: Global,
    dom: &D,
    x: &Evaluated,
    known: &Known<D::State>,
    found: &mut FaultFindings,
) -> Result<(), Memory>
    ensures added { (a : meaning.Answer D.State) → IsKnown a known.now →
        OnOk result (found.new ≡ found.old ++ findings_by (D.operations dom.now) a x.now) }
{
    let kinds = kinds_of(alloc, x.points.as_slice())?;
    add_kinds(alloc, dom, x, kinds.as_slice(), known, found)
}

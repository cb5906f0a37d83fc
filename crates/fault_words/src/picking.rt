//! The findings of one verdict.
ghost use Rattle.std.specs.Prelude.{◌≡◌, IfOk};
ghost use Rattle.fault_words.specs.Picking.{rank, same_verdict, of_verdict, with_verdict};

use crate::{FaultFinding, FaultFindings, FaultVerdict};
use base_values::{Items, Memory};
use std::alloc::Global;

fn rank(verdict: FaultVerdict) -> u32
    ensures is { result ≡ rank verdict }
{
    match verdict {
        FaultVerdict::Dead => 0,
        FaultVerdict::Safe => 1,
        FaultVerdict::May => 2,
        FaultVerdict::Fails => 3,
    }
}

fn same_verdict(v: FaultVerdict, w: FaultVerdict) -> bool
    ensures is { result ≡ same_verdict v w }
{
    rank(v) == rank(w)
}

fn of_verdict(
    alloc: Global,
    verdict: FaultVerdict,
    findings: &[FaultFinding],
) -> Result<FaultFindings, Memory>
    ensures are { IfOk result (λ fs. fs ≡ of_verdict verdict findings.now) }
{
    let mut picked = Items::new(alloc);
    for finding in findings {
        if same_verdict(finding.verdict, verdict) {
            picked.push(*finding)?;
        }
    }
    Ok(picked)
}

/// The findings of a verdict, in their order; all of them where no verdict is given. It fails only when memory runs out.
pub fn with_verdict(
    alloc: Global,
    only: Option<FaultVerdict>,
    findings: FaultFindings,
) -> Result<FaultFindings, Memory>
    ensures are { IfOk result (λ fs. fs ≡ with_verdict only findings) }
{
    match only {
        Some(verdict) => of_verdict(alloc, verdict, findings.as_slice()),
        None => Ok(findings),
    }
}

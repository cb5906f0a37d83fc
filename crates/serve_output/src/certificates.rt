//! Certificates: from a program to its lines, or to whether those of a file hold; the tasks `cert` and `verify`.
ghost use Rattle.std.specs.Prelude.{◌≡◌, ◌⊎◌, IfOk, IsErrOf};
ghost use Rattle.io_edge.specs.Outside.{Rose};
ghost use Rattle.serve_command.specs.declared.job.SingleDomain.{SingleDomain as Single};
ghost use Rattle.serve_command.specs.declared.job.Task.TheVariants.{Cert, Verify};
ghost use Rattle.cert_lines.specs.Theorem.{IsYesSound};
ghost use Rattle.serve_output.specs.Domains.{IsYesSoundBy};
ghost use Rattle.serve_output.specs.Given.{FailsOnFile, GivesBytes, GivesTask};
ghost use Rattle.serve_output.specs.Kept.{WrittenAreAccepted};
ghost use Rattle.serve_output.specs.Output.{cert_bytes, verify_bytes, LacksFor};

use crate::error::JobError;
use crate::files::{load, load_checked};
use base_counter::Steps;
use base_values::Memory;
use cert_accepted::{
    checked_programs_have_lines, interval_certificates_are_accepted,
    octagon_certificates_are_accepted, segment_certificates_are_accepted,
};
use cert_check::verify;
use cert_lines::a_yes_is_sound;
use cert_meaning::Portable;
use cert_write::certificate as write_lines;
use dom_interval::Interval;
use dom_listseg::ListSeg;
use dom_octagon::Octagon;
use imp_chains::Widening;
use imp_table::Checked;
use io_edge::Files;
use serve_command::SingleDomain;
use std::alloc::Global;
use std::sync::ledger::Ledger;

/// The most bytes of a certificate.
const MOST_CERTIFICATE: usize = 67_108_864;

/// What a yes says holds by a domain.
fn yes_is_sound_by<D: Portable>()
    ensures sound { (d : D) → IsYesSound (D.operations d) (D.covers d) (D.port d) }
{
    a_yes_is_sound::<D>();
}

/// What a yes says holds by each domain that the words name.
pub fn each_yes_is_sound()
    ensures sound { (name : Single) → IsYesSoundBy name }
{
    yes_is_sound_by::<Interval>();
    yes_is_sound_by::<Octagon>();
    yes_is_sound_by::<ListSeg>();
}

/// What `cert` wrote of a program, without an over and within the limit of `verify`, `verify` finds to hold by the same domain.
pub fn written_certificates_are_accepted()
    ensures accepted { WrittenAreAccepted }
{
    checked_programs_have_lines();
    interval_certificates_are_accepted();
    octagon_certificates_are_accepted();
    segment_certificates_are_accepted();
}

/// The lines of the certificate of a program, by the domain of this name. It fails only when memory runs out.
#[tactic(auto, unfolding(crate::specs::Output::cert_bytes))]
fn cert_lines<L: Ledger>(
    alloc: Global,
    domain: SingleDomain,
    widening: Widening,
    budget: u32,
    program: &Checked,
    steps: &mut Steps<L>,
) -> Result<Vec<u8>, Memory>
    ensures bytes { IfOk result (λ v. v.items ≡
        cert_bytes domain (record { budget = budget; widening = widening }) program.now) }
{
    match domain {
        SingleDomain::Interval => write_lines(alloc, &Interval, program, budget, widening, steps),
        SingleDomain::Octagon => write_lines(alloc, &Octagon, program, budget, widening, steps),
        SingleDomain::ListSeg => write_lines(alloc, &ListSeg, program, budget, widening, steps),
    }
}

/// The line that says whether a certificate of a program holds, by the domain of this name. It fails when memory runs out
/// alone.
#[tactic(auto, unfolding(crate::specs::Output::verify_bytes))]
fn verify_line<L: Ledger>(
    alloc: Global,
    domain: SingleDomain,
    program: &Checked,
    cert: &[u8],
    steps: &mut Steps<L>,
) -> Result<Vec<u8>, Memory>
    ensures bytes { GivesBytes (verify_bytes domain program.now cert.now) result }
{
    match domain {
        SingleDomain::Interval => verify(alloc, &Interval, program, cert, steps),
        SingleDomain::Octagon => verify(alloc, &Octagon, program, cert, steps),
        SingleDomain::ListSeg => verify(alloc, &ListSeg, program, cert, steps),
    }
}

/// What `cert` gives for the program of a file.
pub fn certificate<F: Files, L: Ledger>(
    alloc: Global,
    domain: SingleDomain,
    widening: Widening,
    budget: u32,
    name: &str,
    files: &mut F,
    steps: &mut Steps<L>,
) -> Result<Vec<u8>, JobError>
    ensures gives { GivesTask (F.told files.old) name.now (Cert domain widening budget) result }
    ensures missing { FailsOnFile F.faults F.told files.old files.new name.now result }
{
    let program = load_checked(alloc, name, files)?;
    let bytes = cert_lines(alloc, domain, widening, budget, &program, steps)?;
    Ok(bytes)
}

/// What `verify` gives for the program of a file, and the certificate of another.
pub fn verified<F: Files, L: Ledger>(
    alloc: Global,
    domain: SingleDomain,
    cert: &str,
    name: &str,
    files: &mut F,
    steps: &mut Steps<L>,
) -> Result<Vec<u8>, JobError>
    ensures gives { GivesTask (F.told files.old) name.now (Verify domain cert.now) result }
    ensures missing { IsErrOf result JobError.Files →
        (Rose (F.faults files.old) (F.faults files.new))
        ⊎ (LacksFor (F.told files.old) name.now (Verify domain cert.now)) }
{
    let program = load_checked(alloc, name, files)?;
    let cert = load(alloc, cert, MOST_CERTIFICATE, files)?;
    let bytes = verify_line(alloc, domain, &program, cert.as_slice(), steps)?;
    Ok(bytes)
}

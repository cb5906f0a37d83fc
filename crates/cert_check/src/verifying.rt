//! Checking a certificate.
ghost use Rattle.std.specs.Prelude.{◌≡◌, ◌<◌, ◌^◌, None, length, IfOk};
ghost use Rattle.imp_slots.specs.Fits.{IsChecked};
ghost use Rattle.imp_check.specs.Programs.{check_fault};
ghost use Rattle.imp_check.specs.Slots.{routines_of};
ghost use Rattle.cert_meaning.specs.Followed.{followed_program};
ghost use Rattle.cert_meaning.specs.Portable.{HasUpperBounds};
ghost use Rattle.cert_accepted.specs.Accepted.{HasSmallNumbers, IsCertificate, PutsUtf8};
ghost use Rattle.cert_lines.specs.Verify.{of_followed, verify, verified_line, Yes};
ghost use Rattle.cert_reading.specs.Table.{state_at};
ghost use Rattle.cert_check.specs.Verified.{verified_of, CoversRuns};

use crate::followed::Followed;
use crate::following::follow_main;
use crate::verified::{Verified, verified_line};
use base_counter::Steps;
use base_values::Memory;
use cert_accepted::{certificates_are_accepted, checked_programs_have_lines};
use cert_lines::a_yes_is_sound;
use cert_meaning::Portable;
use cert_reading::{Lines, Written, read_certificate};
use imp_table::Checked;
use std::alloc::Global;
use std::sync::ledger::Ledger;

/// What following main's body with these states comes to.
fn verify_written<D: Portable, L: Ledger>(
    alloc: Global,
    dom: &D,
    prog: &Checked,
    written: &Written<D::State>,
    steps: &mut Steps<L>,
) -> Result<Verified, Memory>
    requires some { 0 < length (routines_of prog.now) }
    ensures is { IfOk result (λ v. verified_of v ≡ of_followed
        (followed_program (D.operations dom.now) (D.port dom.now).leq (state_at written.now)
        (routines_of prog.now))) }
{
    match follow_main(alloc, dom, prog.routines(), written, steps)? {
        Followed::Behind(_) => Ok(Verified::Yes),
        Followed::Fails { at, chain, why } => Ok(Verified::No { at, chain, why }),
    }
}

/// What checking comes to, of a program without faults and fewer than 2^64 bytes.
#[tactic(auto, unfolding(cert_lines::specs::Verify::verify))]
fn verified<D: Portable, L: Ledger>(
    alloc: Global,
    dom: &D,
    prog: &Checked,
    cert: &[u8],
    steps: &mut Steps<L>,
) -> Result<Verified, Memory>
    ensures is { IfOk result (λ v. verified_of v ≡ verify (D.operations dom.now) (D.port dom.now)
        (routines_of prog.now) cert.now) }
    ensures faultless { check_fault prog.now ≡ None }
    ensures fit { IsChecked (routines_of prog.now) }
    ensures short { IfOk result (λ _. length cert.now < 2 ^ 64) }
{
    match read_certificate(alloc, dom, prog, cert)? {
        Lines::Bad(line) => Ok(Verified::BadLine(line)),
        Lines::Read(written) => verify_written(alloc, dom, prog, &written, steps),
    }
}

/// The line that says whether a certificate of a program holds: `{"verify":"yes"}`; or the first bad line, counted
/// from 1, as `{"line":i,"verify":"no"}`; or the first loop, as main's body is followed, of which what is written
/// does not do, as `{"at":n,"chain":[..],"verify":"no","why":W}`, with W `missing` where no state is written,
/// `entry` where the state before the loop is not found below the written one, `step` where what a round makes
/// of it is not.
///
/// Where the answer is yes, each configuration of a run that stands at the test of a loop, under any inputs, is
/// described by the state of the line of that loop under the configuration's call sites, whoever wrote the lines. And the
/// answer is yes for the lines that `certificate` of `cert_write` writes of the program, with whatever budget and widening,
/// where joins and widenings of the domain are above both sides.
///
/// Nothing is widened, and no loop is gone through more than once under a chain. Its only error is out of memory.
pub fn verify<D: Portable, L: Ledger>(
    alloc: Global,
    dom: &D,
    prog: &Checked,
    cert: &[u8],
    steps: &mut Steps<L>,
) -> Result<Vec<u8>, Memory>
    ensures line { IfOk result (λ v. v.items ≡ verified_line
        (verify (D.operations dom.now) (D.port dom.now) (routines_of prog.now) cert.now)) }
    ensures sound { IfOk result (λ v. v.items ≡ verified_line Yes →
        CoversRuns (D.covers dom.now) (D.port dom.now) (routines_of prog.now) cert.now) }
    ensures accepts { HasUpperBounds (D.operations dom.now) (D.port dom.now).leq →
        PutsUtf8 (D.operations dom.now) (D.port dom.now) →
        HasSmallNumbers (routines_of prog.now)
        → IsCertificate (D.operations dom.now) (D.port dom.now) (routines_of prog.now) cert.now →
        IfOk result (λ v. v.items ≡ verified_line Yes) }
{
    let verified = verified(alloc, dom, prog, cert, steps)?;
    a_yes_is_sound::<D>();
    certificates_are_accepted::<D>();
    checked_programs_have_lines();
    verified_line(alloc, &verified)
}

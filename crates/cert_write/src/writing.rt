//! The lines of a certificate, for `text` of `certificate`.
ghost use Rattle.std.specs.Prelude.{◌≡◌, List, [], map, IfOk};
ghost use Rattle.imp_slots.specs.Plain.{Routine};
ghost use Rattle.imp_check.specs.Slots.{routines_of};
ghost use Rattle.batch_meaning.specs.Batch.{LoopOptions};
ghost use Rattle.call_contexts.specs.Settings.{engine_of};
ghost use Rattle.batch_interp.specs.Heads.{under_told};
ghost use Rattle.cert_lines.specs.Certificate.{Lines, certificate, certificate_text};
ghost use Rattle.cert_write.specs.Writing.{behind, all_lines};

use crate::lines::add_lines;
use base_counter::Steps;
use base_values::Memory;
use batch_interp::{LoopsUnder, loop_heads};
use call_contexts::Setting;
use cert_meaning::Portable;
use imp_chains::Widening;
use imp_table::Checked;
use std::alloc::Global;
use std::sync::ledger::Ledger;

/// The lines of these loops, or the line of the first Over alone.
fn all_lines<D: Portable>(
    alloc: Global,
    dom: &D,
    loops: &[LoopsUnder<D::State>],
) -> Result<Vec<u8>, Memory>
    ensures text { IfOk result (λ v. (engine : LoopOptions) (program : List Routine) →
        v.items ≡ behind [] (all_lines (D.operations dom.now) (D.port dom.now) engine program
        (map under_told loops.now) (Lines []))) }
{
    let mut text = Vec::new(alloc);
    for under in loops {
        match add_lines(alloc, dom, &under.chain, under.heads.as_slice(), &mut text)? {
            Some(line) => return Ok(line),
            None => {}
        }
    }
    Ok(text)
}

/// The certificate of a program, as the bytes of its lines: `{"at":n,"chain":[..],"state":S}` for each loop n under
/// each chain, the procedures in the order of the text, the chains to a procedure in their order, its loops in
/// preorder. S is the text of what batch interpretation knows at the head of the loop under the chain, of all
/// frames. Where a loop used up its budget on the way to one of these, the first such line alone is written, as
/// `{"chain":[..],"over":n}`.
///
/// Its only error is out of memory.
#[tactic(auto, unfolding(cert_lines::specs::Certificate::certificate))]
pub fn certificate<D: Portable, L: Ledger>(
    alloc: Global,
    dom: &D,
    prog: &Checked,
    budget: u32,
    widening: Widening,
    steps: &mut Steps<L>,
) -> Result<Vec<u8>, Memory>
    ensures text { IfOk result (λ v. v.items ≡ certificate_text
        (certificate (D.operations dom.now) (D.port dom.now) (engine_of budget widening)
        (routines_of prog.now))) }
{
    let setting = Setting::new(alloc, &prog.view(), budget, widening)?;
    let loops = loop_heads(alloc, dom, prog, &setting, steps)?;
    all_lines(alloc, dom, loops.as_slice())
}

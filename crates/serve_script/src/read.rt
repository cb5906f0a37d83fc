//! Reading a script and answering its lines.
ghost use Rattle.std.specs.Prelude.{◌≡◌, ◌≤◌, ◌<◌, ◌^◌, ◌⊎◌, [], ◌∷◌, length};
ghost use Rattle.std.specs.Prelude.{IfErr, IfOk, IfSome, IsErrOf, OnErr, OnOk};
ghost use Rattle.io_edge.specs.Outside.{Rose, HandsOut};
ghost use Rattle.serve_script.specs.Answering.{AnswersAll, AnswersFirst, AnswersPrefix};
ghost use Rattle.serve_script.specs.Answering.{AnswersRead, GoesOn, GoesOnBy, IsReply, KeepsRest};
ghost use Rattle.serve_script.specs.Answering.{UsesLine, UsesLines};
ghost use Rattle.serve_script.specs.Answering.{WritesPrefixOfReplies, WritesPrefixOfReply};
ghost use Rattle.serve_script.specs.Answering.{WritesReplies, WritesReply, WritesWholeReplies};
ghost use Rattle.serve_script.specs.Lasts.{LastsFor};
ghost use Rattle.serve_script.specs.Lines.{last_line, whole_lines};
ghost use Rattle.serve_script.specs.Replies.{ReadsBytes, ReadsToEnd};

use crate::answer::Answerer;
use crate::outcome::Stop;
use crate::pending::Pending;
use crate::write::write_all;
use base_counter::Steps;
use base_values::Memory;
use io_edge::{Failed, Sink, Source};
use std::alloc::Global;
use std::sync::ledger::Ledger;

/// The most bytes that are read at a time.
const BLOCK: usize = 65536;

/// The most bytes of a script that are read.
const MOST_READ: u64 = 1 << 40;

/// The reply to a line.
fn reply_to<A: Answerer, L: Ledger>(
    alloc: Global,
    answerer: &mut A,
    line: &Pending,
    steps: &mut Steps<L>,
) -> Result<Vec<u8>, Memory>
    requires lasts { LastsFor (A.lasts answerer.old) 1 }
    ensures reply { IfOk result (λ v. IsReply A.machine (A.stands answerer.old) line.now v.items) }
    ensures next { OnOk result (GoesOn A.machine A.stands line.now answerer.old answerer.new) }
    ensures lasts { OnOk result (UsesLine A.lasts answerer.old answerer.new) }
{
    match line.part() {
        Some(part) => answerer.answer(alloc, part, steps),
        None => answerer.answer_long(alloc),
    }
}

/// Answers one line.
fn answer_line<A: Answerer, O: Sink, L: Ledger>(
    alloc: Global,
    answerer: &mut A,
    line: &Pending,
    out: &mut O,
    steps: &mut Steps<L>,
) -> Result<(), Stop>
    requires lasts { LastsFor (A.lasts answerer.old) 1 }
    ensures next { OnOk result (GoesOn A.machine A.stands line.now answerer.old answerer.new) }
    ensures lasts { OnOk result (UsesLine A.lasts answerer.old answerer.new) }
    ensures written { OnOk result (WritesReply A.machine (A.stands answerer.old) line.now
        (O.told out.old) (O.told out.new)) }
    ensures prefix { IsErrOf result Stop.Sink →
        WritesPrefixOfReply A.machine (A.stands answerer.old) line.now
        (O.told out.old) (O.told out.new) }
    ensures failed { IsErrOf result Stop.Sink → Rose (O.faults out.old) (O.faults out.new) }
    ensures nothing_written { IsErrOf result Stop.Memory → O.told out.new ≡ O.told out.old }
    ensures causes { IfErr result (λ e. (e ≡ Stop.Sink) ⊎ (e ≡ Stop.Memory)) }
    ensures never_falls { O.faults out.old ≤ O.faults out.new }
{
    let Ok(reply) = reply_to(alloc, answerer, line, steps) else {
        return Err(Stop::Memory);
    };
    match write_all(out, reply.as_slice()) {
        Ok(()) => Ok(()),
        Err(Failed) => Err(Stop::Sink),
    }
}

/// Reads at most `most` bytes into the block.
fn read_block<I: Source>(script: &mut I, block: &mut [u8], most: u64) -> Result<usize, Failed>
    requires some { 0 < most }
    requires room { 0 < length block.old }
    ensures within { IfOk result (λ n. n ≤ length block.old) }
    ensures no_more { IfOk result (λ n. n ≤ most) }
    ensures hands_out { HandsOut (I.told script.old) (I.told script.new) result block.new }
    ensures end { IfOk result (λ n. n ≡ 0 → IfSome (I.told script.old) (λ left. left ≡ [])) }
    ensures failed { OnErr result (Rose (I.faults script.old) (I.faults script.new)) }
    ensures never_falls { I.faults script.old ≤ I.faults script.new }
{
    if most < block.len() as u64 {
        script.read(&mut block[..most as usize])
    } else {
        script.read(block)
    }
}

/// Goes on by one byte: LF ends the pending line, which is answered; any other byte goes on with it.
fn answer_byte<A: Answerer, O: Sink, L: Ledger>(
    alloc: Global,
    answerer: &mut A,
    pending: &mut Pending,
    byte: u8,
    out: &mut O,
    steps: &mut Steps<L>,
) -> Result<(), Stop>
    requires lasts { LastsFor (A.lasts answerer.old) 1 }
    ensures pending { OnOk result (KeepsRest (byte ∷ []) pending.old pending.new) }
    ensures next { OnOk result
        (GoesOnBy A.machine A.stands pending.old (byte ∷ []) answerer.old answerer.new) }
    ensures lasts { OnOk result (UsesLine A.lasts answerer.old answerer.new) }
    ensures written { OnOk result (WritesReplies A.machine (A.stands answerer.old) pending.old
        (λ part. whole_lines part (byte ∷ [])) (O.told out.old) (O.told out.new)) }
    ensures prefix { IsErrOf result Stop.Sink →
        WritesPrefixOfReplies A.machine (A.stands answerer.old) pending.old
        (λ part. whole_lines part (byte ∷ [])) (O.told out.old) (O.told out.new) }
    ensures failed { IsErrOf result Stop.Sink → Rose (O.faults out.old) (O.faults out.new) }
    ensures lines { IsErrOf result Stop.Memory →
        WritesWholeReplies A.machine (A.stands answerer.old) pending.old
        (λ part. whole_lines part (byte ∷ [])) (O.told out.old) (O.told out.new) }
    ensures causes { IfErr result (λ e. (e ≡ Stop.Sink) ⊎ (e ≡ Stop.Memory)) }
    ensures never_falls { O.faults out.old ≤ O.faults out.new }
{
    if byte == b'\n' {
        match answer_line(alloc, answerer, pending, out, steps) {
            Ok(()) => {
                pending.clear();
                Ok(())
            }
            Err(stop) => Err(stop),
        }
    } else {
        match pending.push(byte) {
            Ok(()) => Ok(()),
            Err(_) => Err(Stop::Memory),
        }
    }
}

/// Answers the lines that end in the block; `pending` is what came of the first of them, and then
/// what came of the next.
fn answer_block<A: Answerer, O: Sink, L: Ledger>(
    alloc: Global,
    answerer: &mut A,
    pending: &mut Pending,
    block: &[u8],
    out: &mut O,
    steps: &mut Steps<L>,
) -> Result<(), Stop>
    requires lasts { LastsFor (A.lasts answerer.old) (length block.now) }
    ensures pending { OnOk result (KeepsRest block.now pending.old pending.new) }
    ensures next { OnOk result
        (GoesOnBy A.machine A.stands pending.old block.now answerer.old answerer.new) }
    ensures lasts { OnOk result (UsesLines A.lasts (length block.now) answerer.old answerer.new) }
    ensures written { OnOk result (WritesReplies A.machine (A.stands answerer.old) pending.old
        (λ part. whole_lines part block.now) (O.told out.old) (O.told out.new)) }
    ensures prefix { IsErrOf result Stop.Sink →
        WritesPrefixOfReplies A.machine (A.stands answerer.old) pending.old
        (λ part. whole_lines part block.now) (O.told out.old) (O.told out.new) }
    ensures failed { IsErrOf result Stop.Sink → Rose (O.faults out.old) (O.faults out.new) }
    ensures lines { IsErrOf result Stop.Memory →
        WritesWholeReplies A.machine (A.stands answerer.old) pending.old
        (λ part. whole_lines part block.now) (O.told out.old) (O.told out.new) }
    ensures causes { IfErr result (λ e. (e ≡ Stop.Sink) ⊎ (e ≡ Stop.Memory)) }
    ensures never_falls { O.faults out.old ≤ O.faults out.new }
{
    for byte in block {
        match answer_byte(alloc, answerer, pending, *byte, out, steps) {
            Ok(()) => {}
            Err(stop) => return Err(stop),
        }
    }
    Ok(())
}

/// Answers what came after the last LF, if it has a byte.
fn answer_rest<A: Answerer, O: Sink, L: Ledger>(
    alloc: Global,
    answerer: &mut A,
    pending: &Pending,
    out: &mut O,
    steps: &mut Steps<L>,
) -> Result<(), Stop>
    requires lasts { LastsFor (A.lasts answerer.old) 1 }
    ensures written { OnOk result (WritesReplies A.machine (A.stands answerer.old) pending.now
        last_line (O.told out.old) (O.told out.new)) }
    ensures prefix { IsErrOf result Stop.Sink →
        WritesPrefixOfReplies A.machine (A.stands answerer.old) pending.now
        last_line (O.told out.old) (O.told out.new) }
    ensures failed { IsErrOf result Stop.Sink → Rose (O.faults out.old) (O.faults out.new) }
    ensures lines { IsErrOf result Stop.Memory →
        WritesWholeReplies A.machine (A.stands answerer.old) pending.now
        last_line (O.told out.old) (O.told out.new) }
    ensures causes { IfErr result (λ e. (e ≡ Stop.Sink) ⊎ (e ≡ Stop.Memory)) }
    ensures never_falls { O.faults out.old ≤ O.faults out.new }
{
    match pending.part() {
        Some([]) => Ok(()),
        _ => answer_line(alloc, answerer, pending, out, steps),
    }
}

/// Answers each line of the script as soon as its end is read, and a last line without LF at the
/// end of the script. A line of more than 65,536 bytes gets the reply to a long line. Reads at most
/// 2^40 bytes, so at most so many lines.
///
/// What is written are the replies of the machine from each state that the answerer stood for at the
/// start. What was written when it stops short: at [`Stop::Script`] and [`Stop::Long`] the replies to the
/// lines whose LF was read, at [`Stop::Sink`] a prefix of the replies, at [`Stop::Memory`] a prefix
/// of them in whole lines.
pub fn answer_script<A: Answerer, I: Source, O: Sink, L: Ledger>(
    alloc: Global,
    answerer: &mut A,
    script: &mut I,
    out: &mut O,
    steps: &mut Steps<L>,
) -> Result<(), Stop>
    requires lasts { A.lasts answerer.old (2 ^ 40) }
    ensures ended { OnOk result (ReadsToEnd (I.told script.old) (I.told script.new)) }
    ensures answered { OnOk result (AnswersAll A.machine (A.stands answerer.old)
        (I.told script.old) (O.told out.old) (O.told out.new)) }
    ensures script_failed { IsErrOf result Stop.Script →
        Rose (I.faults script.old) (I.faults script.new) }
    ensures script_lines { IsErrOf result Stop.Script →
        AnswersRead A.machine (A.stands answerer.old)
        (I.told script.old) (I.told script.new) (O.told out.old) (O.told out.new) }
    ensures sink_failed { IsErrOf result Stop.Sink → Rose (O.faults out.old) (O.faults out.new) }
    ensures sink_prefix { IsErrOf result Stop.Sink →
        AnswersPrefix A.machine (A.stands answerer.old)
        (I.told script.old) (O.told out.old) (O.told out.new) }
    ensures memory_lines { IsErrOf result Stop.Memory →
        AnswersFirst A.machine (A.stands answerer.old)
        (I.told script.old) (O.told out.old) (O.told out.new) }
    ensures long { IsErrOf result Stop.Long →
        ReadsBytes (2 ^ 40) (I.told script.old) (I.told script.new) }
    ensures long_lines { IsErrOf result Stop.Long →
        AnswersRead A.machine (A.stands answerer.old)
        (I.told script.old) (I.told script.new) (O.told out.old) (O.told out.new) }
    ensures script_never_falls { I.faults script.old ≤ I.faults script.new }
    ensures sink_never_falls { O.faults out.old ≤ O.faults out.new }
{
    let mut pending = Pending::new(alloc);
    let mut block = [0u8; BLOCK];
    let mut total = 0;
    while total < MOST_READ {
        match read_block(script, &mut block, MOST_READ - total) {
            Err(Failed) => return Err(Stop::Script),
            Ok(0) => return answer_rest(alloc, answerer, &pending, out, steps),
            Ok(count) => {
                total += count as u64;
                match answer_block(alloc, answerer, &mut pending, &block[..count], out, steps) {
                    Ok(()) => {}
                    Err(stop) => return Err(stop),
                }
            }
        }
    }
    Err(Stop::Long)
}

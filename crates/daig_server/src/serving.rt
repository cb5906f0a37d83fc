//! The top call [`serve`], with all that is claimed of it.
ghost use Rattle.std.specs.Prelude.{◌≡◌, ◌≢◌, ◌<◌, ◌^◌, ◌++◌, ◌⊎◌, ℕ, List, Some, None, length};
ghost use Rattle.io_edge.specs.Outside.{Rose};
ghost use Rattle.imp_syntax.specs.Plain.{Procedure};
ghost use Rattle.serve_command.specs.declared.job.Job.TheVariants as job;
ghost use Rattle.serve_command.specs.declared.job.SingleDomain.{SingleDomain as Single};
ghost use Rattle.serve_command.specs.declared.job.Task.TheVariants.{Verify};
ghost use Rattle.cert_lines.specs.Verify.{verified_line, Yes};
ghost use Rattle.serve_script.specs.Replies.{AnsweredRead, ReadsBytes, ReadsToEnd};
ghost use Rattle.serve_answers.specs.Fine.{opening};
ghost use Rattle.serve_answers.specs.Histories.{HistoriesDoNotMatter, RedoRestores, UndoRestores};
ghost use Rattle.serve_answers.specs.Lines.{server};
ghost use Rattle.serve_answers.specs.Readings.{Readings};
ghost use Rattle.reply_lines.specs.Refused.{RefusalsKeep};
ghost use Rattle.reply_lines.specs.Replied.{OneForEach};
ghost use Rattle.serve_output.specs.Jobs.{AsksToGenerate, AsksToServe, engine_in};
ghost use Rattle.serve_output.specs.Output.{FailsOnFiles, IsAccepted, IsProgram};
ghost use Rattle.serve_output.specs.Kept.{WrittenAreAccepted};
ghost use Rattle.serve_output.specs.Sound.{AreRunsCovered};
ghost use Rattle.serve_output.specs.Ends.{Fits, IsStatus, Wrote, WroteAll, status_of};
ghost use Rattle.serve_output.specs.Told.{job_of_words, job_output, Tells, TellsFiles, Told};
ghost use Rattle.daig_server.specs.Claims.{operations_in, LinesAreSound, LinesSettle};
ghost use Rattle.daig_server.specs.Claims.{MemoIsUnseen, NeverLonger, ReportsAreSound};

use crate::run::run;
use base_counter::Steps;
use dom_interval::Interval;
use io_edge::{Files, Sink, Source};
use serve_answers::machines_stay_fine;
use serve_output::{
    each_yes_is_sound, named_domains_are_sound, named_domains_converge,
    written_certificates_are_accepted,
};
use std::alloc::Global;
use std::sync::ledger::Ledger;

/// Does the job that the words name, and answers the status. `words` begins with the program's own
/// name; `steps` is lent to the domain, whose operations tick it.
///
/// | Status | Comes |
/// |---|---|
/// | 0 | the job is done: for `serve` the script gave its end, and every line has its reply written |
/// | 2 | exactly where the words are not taken; the usage line is written |
/// | 3 | exactly where the source is no program without faults; its refusal is written |
/// | 4 | only where a read of the script failed |
/// | 5 | only where a write failed |
/// | 6 | memory ran out |
/// | 7 | only where the file could not be loaded, or is not there |
/// | 8 | exactly where 2^40 bytes of the script were read |
/// | 9 | exactly where the file has more than 1,048,576 bytes |
///
/// Of `verify` 7 and 9 come of the certificate's file too, where the first is a program, by its own limit of 67,108,864
/// bytes.
///
/// Of `serve` each line costs what is missing for it in the cells that are kept; a line and its reply are kept at a time.
/// What it keeps is not freed at the end: the program ends with the job.
pub fn serve<F: Files, I: Source, O: Sink, L: Ledger>(
    alloc: Global,
    words: &[String],
    files: &mut F,
    script: &mut I,
    out: &mut O,
    steps: &mut Steps<L>,
) -> u8
    ensures named { IsStatus result }
    // Where nothing failed and the script is short, exactly the output goes out, unless memory runs out.
    ensures complete { (readings : Readings) (told : Told)
        → Tells readings (job_of_words words.now)
        (F.told files.old) (I.told script.old) (O.told out.old) told
        → ((Rose (F.faults files.old) (F.faults files.new))
        ⊎ (Rose (I.faults script.old) (I.faults script.new))
        ⊎ (Rose (O.faults out.old) (O.faults out.new)) → ⊥)
        → length told.script < 2 ^ 40 → result ≢ 6
        → WroteAll result (job_output readings (job_of_words words.now) told)
        told.taken (O.told out.new) }
    // Which status the output then has, and what was written, at each status; so it is even where something failed.
    ensures exactly { (readings : Readings) (told : Told)
        → TellsFiles (job_of_words words.now) (F.told files.old) told.folder
        → Fits (status_of result) (job_output readings (job_of_words words.now) told).status }
    ensures written { (readings : Readings) (told : Told)
        → Tells readings (job_of_words words.now)
        (F.told files.old) (I.told script.old) (O.told out.old) told
        → Wrote (status_of result) (job_output readings (job_of_words words.now) told)
        told.script told.taken (I.told script.new) (O.told out.new) }
    // Where the script stopped before its end, what was read of it was answered by the session with the program that the words
    // ask for; each line has one reply, and each reply is one line.
    ensures answered_part { (readings : Readings) (told : Told) (program : List Procedure)
        → Tells readings (job_of_words words.now)
        (F.told files.old) (I.told script.old) (O.told out.old) told
        → IsAccepted readings (job_of_words words.now) told.folder program
        → (result ≡ 4) ⊎ (result ≡ 8)
        → AnsweredRead (server (operations_in (job_of_words words.now)))
        (opening readings (engine_in (job_of_words words.now)) program)
        told.script told.taken (I.told script.new) (O.told out.new) }
    ensures one_reply_each { OneForEach (operations_in (job_of_words words.now)) }
    ensures words_exactly { (result ≡ 2 → job_of_words words.now ≡ None)
        × (job_of_words words.now ≡ None → (result ≡ 2) ⊎ (result ≡ 5) ⊎ (result ≡ 6)) }
    ensures read_to_end { result ≡ 0 → AsksToServe (job_of_words words.now)
        → ReadsToEnd (I.told script.old) (I.told script.new) }
    ensures gen_ends { AsksToGenerate (job_of_words words.now)
        → (result ≡ 0) ⊎ (result ≡ 5) ⊎ (result ≡ 6) }
    ensures script_unread { (AsksToServe (job_of_words words.now) → ⊥) → script.new ≡ script.old }
    ensures script_failed { result ≡ 4
        → AsksToServe (job_of_words words.now) × Rose (I.faults script.old) (I.faults script.new) }
    ensures sink_failed { result ≡ 5 → Rose (O.faults out.old) (O.faults out.new) }
    ensures files_failed { result ≡ 7
        → FailsOnFiles F.faults F.told files.old files.new (job_of_words words.now) }
    ensures long_script { result ≡ 8
        → AsksToServe (job_of_words words.now)
        × ReadsBytes (2 ^ 40) (I.told script.old) (I.told script.new) }
    ensures nothing_written { (result ≡ 7) ⊎ (result ≡ 9) → O.told out.new ≡ O.told out.old }
    // At each moment of each script, for whole requests and for steps of tickets: a state that is replied describes every
    // configuration that a run of the program present then reaches there; in a report no run fails a check that is safe,
    // none comes to a statement that is dead; what is told of a fault is so in every run, and where a line asks for all
    // faults, each with which a run ends is told; a statement that is not told where a line asks what an answer depends on
    // does not matter to it.
    ensures sound { LinesAreSound (job_of_words words.now) }
    ensures reports_sound { ReportsAreSound (job_of_words words.now) }
    // Where a certificate is checked, whoever wrote it, and the line that is written is the yes, each configuration of a
    // run of the program that stands at the test of a loop is described by the state written of the loop under its calls.
    ensures verified { (readings : Readings) (told : Told)
        (domain : Single) (file cert text : List ℕ) (program : List Procedure)
        → job_of_words words.now ≡ Some (job.File file (Verify domain cert))
        → Tells readings (job_of_words words.now)
        (F.told files.old) (I.told script.old) (O.told out.old) told
        → IsProgram readings (told.folder file) program → told.folder cert ≡ Some text
        → result ≡ 0 → O.told out.new ≡ Some (told.taken ++ verified_line Yes)
        → AreRunsCovered domain program text }
    // Whatever was asked and edited before, where the same program stands the same replies are written to what asks for the
    // program alone; an undo restores all of these as they were before the last accepted edit, whatever questions, steps and
    // runs stand in between, and a redo as they were after it. These are the machines whose lines `output` has.
    ensures history_unseen { HistoriesDoNotMatter (operations_in (job_of_words words.now)) }
    ensures undo_restores { UndoRestores (operations_in (job_of_words words.now)) }
    ensures redo_restores { RedoRestores (operations_in (job_of_words words.now)) }
    // A line that is refused changes nothing, but that a ticket whose question is gone is closed.
    ensures refusals_keep { RefusalsKeep (operations_in (job_of_words words.now)) }
    // What others asked never makes a question or a step longer: after any questions, reports, steps and runs it fills no more
    // cells than it would have filled before them.
    ensures never_longer { NeverLonger (job_of_words words.now) }
    // What `cert` wrote of a program, without an over in place of the lines, `verify` finds to hold.
    ensures certified { WrittenAreAccepted }
    // From a budget on that is stated for each domain by the program present, no line is replied by an over.
    ensures settles { LinesSettle (job_of_words words.now) }
    // No byte depends on how many results are remembered.
    ensures memo_unseen { MemoIsUnseen }
{
    named_domains_are_sound();
    named_domains_converge();
    written_certificates_are_accepted();
    each_yes_is_sound();
    machines_stay_fine::<Interval>();
    run(alloc, words, files, script, out, steps).code()
}

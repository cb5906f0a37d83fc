//! From words to a status: the job that they name is matched once, and what each task gives is written.
ghost use Rattle.std.specs.Prelude.{◌≡◌, ℕ, List, None, Option, Some};
ghost use Rattle.io_edge.specs.Outside.{Rose};
ghost use Rattle.serve_answers.specs.Readings.{Readings};
ghost use Rattle.serve_output.specs.Jobs.{AsksToGenerate, AsksToServe};
ghost use Rattle.serve_output.specs.Output.{output, usage, FailsOnFiles};
ghost use Rattle.serve_output.specs.Ends.{Caused, EndsBy, Fits, WritesOutput, Wrote};
ghost use Rattle.serve_output.specs.Told.{job_of_words, TellsFiles, TellsScript};

use crate::generated::generated;
use crate::work::serve_program;
use base_counter::Steps;
use io_edge::{Failed, Files, Sink, Source};
use serve_command::{Job, Task, WordsError, read_words};
use serve_output::{Status, batch, certificate, faults, load_table, verified, write_given};
use serve_script::write_all;
use std::alloc::Global;
use std::sync::ledger::Ledger;

/// The line that is written where the words are not taken.
const USAGE: &[u8] = b"usage: daig serve|batch|gen [OPTIONS] [FILE]\n";

/// Refuses the words.
#[tactic(auto, unfolding(serve_output::specs::Output::usage))]
fn refuse_words<O: Sink>(out: &mut O) -> Status
    ensures ends { EndsBy Status.Words (Rose (O.faults out.old) (O.faults out.new)) result }
    ensures fits { Fits result 2 }
    ensures wrote { WritesOutput result (record { status = 2; bytes = usage })
        (O.told out.old) (O.told out.new) }
{
    match write_all(out, USAGE) {
        Ok(()) => Status::Words,
        Err(Failed) => Status::Sink,
    }
}

/// Goes from the words to the status.
pub(crate) fn run<F: Files, I: Source, O: Sink, L: Ledger>(
    alloc: Global,
    words: &[String],
    files: &mut F,
    script: &mut I,
    out: &mut O,
    steps: &mut Steps<L>,
) -> Status
    ensures refuses { job_of_words words.now ≡ None →
        EndsBy Status.Words (Rose (O.faults out.old) (O.faults out.new)) result }
    ensures generates { AsksToGenerate (job_of_words words.now) →
        EndsBy Status.Done (Rose (O.faults out.old) (O.faults out.new)) result }
    ensures fits { (readings : Readings) (folder : List ℕ → Option (List ℕ)) (text : List ℕ)
        → TellsFiles (job_of_words words.now) (F.told files.old) folder
        → Fits result (output readings (job_of_words words.now) folder text).status }
    ensures wrote { (readings : Readings) (folder : List ℕ → Option (List ℕ)) (text taken : List ℕ)
        → TellsFiles (job_of_words words.now) (F.told files.old) folder
        → TellsScript readings (job_of_words words.now) folder (I.told script.old) text
        → O.told out.old ≡ Some taken
        → Wrote result (output readings (job_of_words words.now) folder text) text taken
        (I.told script.new) (O.told out.new) }
    ensures unread { (AsksToServe (job_of_words words.now) → ⊥) → script.new ≡ script.old }
    ensures caused { Caused (job_of_words words.now ≡ None) (AsksToServe (job_of_words words.now))
        (O.told out.new ≡ O.told out.old)
        (FailsOnFiles F.faults F.told files.old files.new (job_of_words words.now))
        (Rose (I.faults script.old) (I.faults script.new))
        (Rose (O.faults out.old) (O.faults out.new)) (I.told script.old) (I.told script.new)
        result }
{
    match read_words(alloc, words) {
        Ok(Job::File { file, task }) => match task {
            Task::Serve { settings, memo } => match load_table(alloc, file.as_str(), files) {
                Ok(table) => serve_program(alloc, &settings, memo, table, script, out, steps),
                Err(error) => write_given(alloc, Err(error), out),
            },
            Task::Batch { settings } => {
                let given = batch(alloc, &settings, file.as_str(), files, steps);
                write_given(alloc, given, out)
            }
            Task::Faults { settings } => {
                let given = faults(alloc, &settings, file.as_str(), files, steps);
                write_given(alloc, given, out)
            }
            Task::Cert {
                domain,
                widening,
                budget,
            } => {
                let name = file.as_str();
                let given = certificate(alloc, domain, widening, budget, name, files, steps);
                write_given(alloc, given, out)
            }
            Task::Verify { domain, cert } => {
                let given = verified(alloc, domain, cert.as_str(), file.as_str(), files, steps);
                write_given(alloc, given, out)
            }
        },
        Ok(Job::Gen { seed, size, domain }) => {
            write_given(alloc, generated(alloc, seed, size, domain, steps), out)
        }
        Err(WordsError::Refused) => refuse_words(out),
        Err(WordsError::Memory) => Status::Memory,
    }
}

//! From what `clap` finds in words to the job: the clauses of [`read_words`].
ghost use Rattle.std.specs.Prelude.{◌≡◌, ◌≤◌, IfOk, IfErr, IfSome, Some, None, [], false, codes, map, option_and_then};
ghost use Rattle.std.specs.String.{string_bytes};
ghost use Rattle.std.specs.Option.{option_copied};
ghost use Rattle.clap.specs.Walk.{first_of, is_empty, rows_of};
ghost use Rattle.clap.specs.Simple.{subcommand_of, subcommand_rows_of};
ghost use Rattle.clap.specs.Faults.{fault_of};
ghost use Rattle.clap.specs.Matches.{found_of};
ghost use Rattle.serve_command.specs.Line.{daig_app};
ghost use Rattle.serve_command.specs.Values.{number_in, domain_of, single_of, thresholds_of};
ghost use Rattle.serve_command.specs.Jobs.{value_in, widening_in, settings_in, serve_in, batch_in, faults_in, gen_in, cert_in, verify_in, task_with, job_in, job_of, IsBounded};

use crate::error::WordsError;
use crate::job::{AnalysisOptions, DomainName, FileName, Job, SingleDomain, Task};
use crate::line::daig;
use crate::values::{domain_of, number_in, single_of, thresholds_of};
use base_values::Memory;
use clap::ArgMatches;
use clap::error::ErrorKind;
use imp_chains::Widening;
use std::alloc::Global;

/// The greatest seed.
const MOST_SEED: u64 = 9_223_372_036_854_775_807;

/// The first value of an argument.
#[tactic(auto, using(crate::proofs::MatchLemmas::first_by_rows))]
fn value_at<'a>(matches: &ArgMatches<'a>, name: &str) -> Option<&'a str>
    ensures value { option_copied result ≡ first_of name.now (rows_of (found_of matches.now)) }
{
    matches.get_str(name)
}

/// The number that is the value of an option, where it is within the bounds.
fn long_number_at(matches: &ArgMatches<'_>, name: &str, least: u64, most: u64) -> Option<u64>
    ensures number { result ≡ value_in (number_in least most) name.now
        (rows_of (found_of matches.now)) }
    ensures within { IfSome result (λ n. n ≤ most) }
{
    match value_at(matches, name) {
        Some(text) => number_in(text, least, most),
        None => None,
    }
}

/// The same for bounds of 32 bits.
fn number_at(matches: &ArgMatches<'_>, name: &str, least: u32, most: u32) -> Option<u32>
    ensures number { result ≡ value_in (number_in least most) name.now
        (rows_of (found_of matches.now)) }
{
    match long_number_at(matches, name, least as u64, most as u64) {
        Some(number) => Some(number as u32),
        None => None,
    }
}

/// The domain.
fn domain_at(matches: &ArgMatches<'_>) -> Option<DomainName>
    ensures domain { result ≡ value_in domain_of (codes "domain") (rows_of (found_of matches.now)) }
{
    match value_at(matches, "domain") {
        Some(text) => domain_of(text),
        None => None,
    }
}

/// The domain, which is no product.
fn single_at(matches: &ArgMatches<'_>) -> Option<SingleDomain>
    ensures domain { result ≡ value_in single_of (codes "domain") (rows_of (found_of matches.now)) }
{
    match value_at(matches, "domain") {
        Some(text) => single_of(text),
        None => None,
    }
}

/// Whether the numbers of a procedure are the thresholds of widening.
fn thresholds_at(matches: &ArgMatches<'_>) -> Option<bool>
    ensures thresholds { result ≡ value_in thresholds_of (codes "widening")
        (rows_of (found_of matches.now)) }
{
    match value_at(matches, "widening") {
        Some(text) => thresholds_of(text),
        None => None,
    }
}

/// How loops are widened.
fn widening_at(matches: &ArgMatches<'_>) -> Option<Widening>
    ensures widening { result ≡ widening_in (rows_of (found_of matches.now)) }
{
    let Some(thresholds) = thresholds_at(matches) else {
        return None;
    };
    match number_at(matches, "delay", 0, 100) {
        Some(delay) => Some(Widening { delay, thresholds }),
        None => None,
    }
}

/// How the program is analysed.
fn settings_at(matches: &ArgMatches<'_>) -> Option<AnalysisOptions>
    ensures settings { result ≡ settings_in (rows_of (found_of matches.now)) }
{
    let Some(domain) = domain_at(matches) else {
        return None;
    };
    let Some(widening) = widening_at(matches) else {
        return None;
    };
    match number_at(matches, "budget", 1, 10_000) {
        Some(budget) => Some(AnalysisOptions {
            domain,
            widening,
            budget,
        }),
        None => None,
    }
}

/// The file that is the value of an argument.
fn file_at(alloc: Global, matches: &ArgMatches<'_>, name: &str) -> Result<Option<FileName>, Memory>
    ensures file { IfOk result (λ file. file ≡ first_of name.now (rows_of (found_of matches.now))) }
{
    match value_at(matches, name) {
        Some(text) => Ok(Some(FileName::new(alloc, text)?)),
        None => Ok(None),
    }
}

/// The task of `serve`.
fn serve_at(matches: &ArgMatches<'_>) -> Option<Task>
    ensures task { result ≡ serve_in (rows_of (found_of matches.now)) }
{
    let Some(settings) = settings_at(matches) else {
        return None;
    };
    match number_at(matches, "memo", 1, 65_536) {
        Some(memo) => Some(Task::Serve { settings, memo }),
        None => None,
    }
}

/// The task of `batch`.
fn batch_at(matches: &ArgMatches<'_>) -> Option<Task>
    ensures task { result ≡ batch_in (rows_of (found_of matches.now)) }
{
    match settings_at(matches) {
        Some(settings) => Some(Task::Batch { settings }),
        None => None,
    }
}

/// The task of `faults`.
fn faults_at(matches: &ArgMatches<'_>) -> Option<Task>
    ensures task { result ≡ faults_in (rows_of (found_of matches.now)) }
{
    match settings_at(matches) {
        Some(settings) => Some(Task::Faults { settings }),
        None => None,
    }
}

/// The task of `cert`.
fn cert_at(matches: &ArgMatches<'_>) -> Option<Task>
    ensures task { result ≡ cert_in (rows_of (found_of matches.now)) }
{
    let Some(domain) = single_at(matches) else {
        return None;
    };
    let Some(widening) = widening_at(matches) else {
        return None;
    };
    match number_at(matches, "budget", 1, 10_000) {
        Some(budget) => Some(Task::Cert {
            domain,
            widening,
            budget,
        }),
        None => None,
    }
}

/// The task of `verify`.
fn verify_at(alloc: Global, matches: &ArgMatches<'_>) -> Result<Option<Task>, Memory>
    ensures task { IfOk result (λ task. task ≡ verify_in (rows_of (found_of matches.now))) }
{
    let Some(domain) = single_at(matches) else {
        return Ok(None);
    };
    match file_at(alloc, matches, "CERT")? {
        Some(cert) => Ok(Some(Task::Verify { domain, cert })),
        None => Ok(None),
    }
}

/// The job of a task, for the program of the file that is named.
fn task_at(
    alloc: Global,
    matches: &ArgMatches<'_>,
    task: Option<Task>,
) -> Result<Option<Job>, Memory>
    ensures job { IfOk result (λ job. job ≡ task_with task (rows_of (found_of matches.now))) }
{
    let Some(task) = task else {
        return Ok(None);
    };
    match file_at(alloc, matches, "FILE")? {
        Some(file) => Ok(Some(Job::File { file, task })),
        None => Ok(None),
    }
}

/// The job of `gen`.
fn gen_at(matches: &ArgMatches<'_>) -> Option<Job>
    ensures job { result ≡ gen_in (rows_of (found_of matches.now)) }
{
    let Some(domain) = domain_at(matches) else {
        return None;
    };
    let Some(seed) = long_number_at(matches, "seed", 0, MOST_SEED) else {
        return None;
    };
    match number_at(matches, "size", 1, 1_000) {
        Some(size) => Some(Job::Gen { seed, size, domain }),
        None => None,
    }
}

/// The job of the command of this name.
#[tactic(auto, unfolding(crate::specs::Jobs::job_in))]
fn job_at(alloc: Global, name: &str, matches: &ArgMatches<'_>) -> Result<Option<Job>, Memory>
    ensures job { IfOk result (λ job. job ≡ job_in (name.now, rows_of (found_of matches.now))) }
{
    match name {
        "serve" => task_at(alloc, matches, serve_at(matches)),
        "batch" => task_at(alloc, matches, batch_at(matches)),
        "gen" => Ok(gen_at(matches)),
        "cert" => task_at(alloc, matches, cert_at(matches)),
        "verify" => {
            let task = verify_at(alloc, matches)?;
            task_at(alloc, matches, task)
        }
        "faults" => task_at(alloc, matches, faults_at(matches)),
        _ => Ok(None),
    }
}

/// What the commands take of the words.
fn matches_of<'a>(alloc: Global, words: &'a [String]) -> Result<ArgMatches<'a>, WordsError>
    ensures taken { IfOk result (λ matches. fault_of daig_app (map string_bytes words.entry.now) ≡
        []) }
    ensures rows { IfOk result (λ matches. subcommand_rows_of matches ≡
        subcommand_of daig_app (map string_bytes words.entry.now)) }
    ensures refused { IfErr result (λ error. error ≡ WordsError.Refused →
        is_empty (fault_of daig_app (map string_bytes words.entry.now)) ≡ false) }
{
    match daig(alloc)?.try_get_matches_from(words) {
        Ok(matches) => Ok(matches),
        Err(error) => match error.kind() {
            ErrorKind::OutOfMemory => Err(WordsError::Memory),
            _ => Err(WordsError::Refused),
        },
    }
}

/// The job of the command that was met.
fn job_met(alloc: Global, matches: &ArgMatches<'_>) -> Result<Option<Job>, Memory>
    ensures job { IfOk result (λ job. job ≡ option_and_then job_in
        (subcommand_rows_of matches.now)) }
{
    match matches.subcommand() {
        Some((name, found)) => job_at(alloc, name, found),
        None => Ok(None),
    }
}

/// The job of the words, of which the first is the program's own name; its numbers are within their bounds.
///
/// It is refused where the command line does not take the words, or a value is not in form, and it
/// fails when memory runs out.
#[tactic(auto, unfolding(crate::specs::Jobs::job_of))]
pub fn read_words(alloc: Global, words: &[String]) -> Result<Job, WordsError>
    ensures job { IfOk result (λ job. job_of (map string_bytes words.now) ≡ Some job) }
    ensures bounded { IfOk result IsBounded }
    ensures refused { IfErr result (λ error. error ≡ WordsError.Refused →
        job_of (map string_bytes words.now) ≡ None) }
{
    let matches = matches_of(alloc, words)?;
    match job_met(alloc, &matches)? {
        Some(job) => Ok(job),
        None => Err(WordsError::Refused),
    }
}

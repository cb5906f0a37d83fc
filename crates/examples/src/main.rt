//! Runs the examples, and rows of requests with their replies: programs and scripts of `data/`. What is written is compared
//! with what is told of it, and a line is printed for each file.
#![tactic(auto)]

mod rows;
mod served;

use crate::rows::outcome_of;
use crate::served::{MOST, status_of};
use io_edge::{DiskFiles, FaultPlan, MemSink, MemSource};
use std::alloc::Global;
use std::fs;
use std::io::Error;

/// The examples, each a program with a script and what comes out, and the domain that answers.
const SERVED: [(&str, &str); 14] = [
    ("first", "interval"),
    ("three", "interval"),
    ("counting", "interval"),
    ("calls", "interval"),
    ("searching", "interval"),
    ("arrays", "interval"),
    ("lists", "interval"),
    ("filling", "octagon"),
    ("pushing", "interval+listseg"),
    ("editing", "interval"),
    ("asking", "interval"),
    ("reversing", "listseg"),
    ("gathering", "octagon+listseg"),
    ("reviewing", "interval"),
];

/// The files of rows.
const ROWS: [&str; 18] = [
    "states",
    "calls",
    "edits",
    "tickets",
    "tickets_of_reports",
    "undo",
    "runs",
    "lines",
    "domains",
    "shapes",
    "batches",
    "fault_reports",
    "certs",
    "sources",
    "texts",
    "faults",
    "words",
    "why",
];

/// Runs an example, and tells whether it ends with 0 and writes exactly what it is to write. A file that is not
/// there is an error.
fn is_as_expected(rt: &HostRuntime, name: &str, domain: &str) -> Result<bool, Error> {
    let alloc = rt.alloc();
    let script = fs::read(rt, &format!(in alloc; "{name}.jsonl")?)?;
    let wanted = fs::read(rt, &format!(in alloc; "{name}.expected")?)?;
    let words = words_for(alloc, name, domain)?;
    let mut files = DiskFiles::new(rt);
    let mut script = MemSource::new(script, MOST, FaultPlan::none(alloc));
    let mut out = MemSink::new(alloc, MOST, FaultPlan::none(alloc));
    let status = status_of(alloc, words.as_slice(), &mut files, &mut script, &mut out);
    Ok(status == 0 && out.bytes() == wanted.as_slice())
}

/// The words `daig serve --domain DOMAIN NAME.imp`.
fn words_for(alloc: Global, name: &str, domain: &str) -> Result<Vec<String>, Error> {
    let mut words = Vec::new(alloc);
    for word in ["daig", "serve", "--domain", domain] {
        words.push(String::from_str(alloc, word)?)?;
    }
    words.push(format!(in alloc; "{name}.imp")?)?;
    Ok(words)
}

/// Runs the rows of a file, and says how many are as expected, and which are not.
fn tell_rows(rt: &HostRuntime, name: &str) -> Result<(), Error> {
    let alloc = rt.alloc();
    let text = fs::read(rt, &format!(in alloc; "{name}.rows")?)?;
    let outcome = outcome_of(alloc, text.as_slice())?;
    println!(rt; "{name}: {} rows as expected", outcome.held)?;
    if !outcome.differing.is_empty() {
        let differing = String::from_utf8_lossy(alloc, outcome.differing.as_slice())?;
        println!(rt; "differing:\n{}", differing)?;
    }
    Ok(())
}

fn main(rt: HostRuntime) -> Result<(), Error> {
    for (name, domain) in SERVED {
        let verdict = if is_as_expected(&rt, name, domain)? {
            "as expected"
        } else {
            "differs"
        };
        println!(rt; "{name}: {verdict}")?;
    }
    for name in ROWS {
        tell_rows(&rt, name)?;
    }
    Ok(())
}

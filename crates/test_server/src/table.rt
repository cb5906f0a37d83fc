//! One run of the server over objects in memory.
ghost use Rattle.std.specs.Prelude.{◌≡◌, ◌<◌};

use base_counter::Steps;
use daig_server::serve;
use io_edge::{FaultPlan, Files, MemFiles, MemSink, MemSource, NamedFile, Sink, Source};
use std::alloc::Global;
use std::marker::Brand;
use std::sync::ledger::{Blank, Ledger};
use std::test::Fail;

/// The words, separated by spaces.
pub(crate) fn words_of(alloc: Global, line: &str) -> Result<Vec<String>, Fail> {
    let mut words = Vec::new(alloc);
    for word in line.split_whitespace() {
        words.push(String::from_str(alloc, word)?)?;
    }
    Ok(words)
}

/// How many bytes devices in memory move a call, and which of their calls fail.
#[derive(Clone, Copy)]
pub(crate) struct Devices<'a> {
    pub(crate) most_read: usize,
    pub(crate) most_written: usize,
    pub(crate) failing_loads: &'a [u64],
    pub(crate) failing_reads: &'a [u64],
    pub(crate) failing_writes: &'a [u64],
}

/// Devices that do not fail.
pub(crate) const SURE: Devices<'static> = Devices {
    most_read: 100,
    most_written: 100,
    failing_loads: &[],
    failing_reads: &[],
    failing_writes: &[],
};

/// The calls of these numbers fail.
fn failing(alloc: Global, calls: &[u64]) -> Result<FaultPlan, Fail> {
    Ok(FaultPlan::new(calls.to_vec(alloc)?))
}

/// The one file `f`.
fn named(alloc: Global, source: &[u8]) -> Result<Vec<NamedFile>, Fail> {
    let file = NamedFile::new(String::from_str(alloc, "f")?, source.to_vec(alloc)?);
    Ok(vec![in alloc; file]?)
}

/// A folder with the one file `f`.
pub(crate) fn folder(
    alloc: Global,
    source: &[u8],
    devices: &Devices<'_>,
) -> Result<MemFiles, Fail> {
    let loads = failing(alloc, devices.failing_loads)?;
    Ok(MemFiles::new(named(alloc, source)?, loads))
}

/// The source of a script.
fn source_of(alloc: Global, script: &[u8], devices: &Devices<'_>) -> Result<MemSource, Fail>
    requires some { 0 < devices.now.most_read }
{
    let reads = failing(alloc, devices.failing_reads)?;
    Ok(MemSource::new(script.to_vec(alloc)?, devices.most_read, reads))
}

/// An empty sink.
fn sink(alloc: Global, devices: &Devices<'_>) -> Result<MemSink, Fail>
    requires some { 0 < devices.now.most_written }
{
    let writes = failing(alloc, devices.failing_writes)?;
    Ok(MemSink::new(alloc, devices.most_written, writes))
}

/// The status of a run that counts nothing.
fn counted<F: Files, I: Source, O: Sink, L: Ledger>(
    alloc: Global,
    words: &[String],
    files: &mut F,
    script: &mut I,
    out: &mut O,
    blank: Blank,
) -> u8
    requires name { blank.name ≡ L.name }
    requires parts { blank.parts ≡ L.parts }
    requires some { 0 < blank.parts }
{
    let mut steps = Steps::<L>::new(blank);
    serve(alloc, words, files, script, out, &mut steps)
}

/// The status of a run.
pub(crate) fn status<F: Files, I: Source, O: Sink>(
    alloc: Global,
    words: &[String],
    files: &mut F,
    script: &mut I,
    out: &mut O,
) -> u8 {
    counted::<F, I, O, Brand>(alloc, words, files, script, out, Blank::new(1))
}

/// The status and the bytes of a run with such devices.
pub(crate) fn ran(
    alloc: Global,
    words: &str,
    source: &[u8],
    script: &[u8],
    devices: &Devices<'_>,
) -> Result<(u8, Vec<u8>), Fail>
    requires reads { 0 < devices.now.most_read }
    requires writes { 0 < devices.now.most_written }
{
    let words = words_of(alloc, words)?;
    let mut files = folder(alloc, source, devices)?;
    let mut script = source_of(alloc, script, devices)?;
    let mut out = sink(alloc, devices)?;
    let status = status(alloc, words.as_slice(), &mut files, &mut script, &mut out);
    Ok((status, out.bytes().to_vec(alloc)?))
}

/// The status and the bytes of a run whose script and sink move at most `most` bytes a call.
pub(crate) fn served(
    alloc: Global,
    words: &str,
    source: &[u8],
    script: &[u8],
    most: usize,
) -> Result<(u8, Vec<u8>), Fail>
    requires some { 0 < most }
{
    let devices = Devices {
        most_read: most,
        most_written: most,
        ..SURE
    };
    ran(alloc, words, source, script, &devices)
}

/// The line with spaces up to this length, LF, and the line once more.
pub(crate) fn padded(alloc: Global, line: &str, length: usize) -> Result<String, Fail> {
    let mut script = String::from_str(alloc, line)?;
    for _ in line.len()..length {
        script.push(' ')?;
    }
    script.push('\n')?;
    script.push_str(line)?;
    Ok(script)
}

/// The piece so often, between front and back.
pub(crate) fn repeated(
    alloc: Global,
    front: &str,
    piece: &str,
    count: usize,
    back: &str,
) -> Result<String, Fail> {
    let mut text = String::from_str(alloc, front)?;
    for _ in 0..count {
        text.push_str(piece)?;
    }
    text.push_str(back)?;
    Ok(text)
}

/// So many ifs, each in the one before.
pub(crate) fn nested(alloc: Global, depth: usize) -> Result<String, Fail> {
    let mut text = repeated(alloc, "proc main() {", "if (0 == 0) {", depth, "}")?;
    for _ in 0..depth {
        text.push('}')?;
    }
    Ok(text)
}

/// A program with so many variables of a kind.
pub(crate) fn variables(alloc: Global, kind: &str, count: usize) -> Result<String, Fail> {
    let mut text = String::from_str(alloc, "proc main() {")?;
    for i in 0..count {
        let line = format!(in alloc; "var v{i}: {kind};")?;
        text.push_str(line.as_str())?;
    }
    text.push('}')?;
    Ok(text)
}

/// So many procedures, each of which calls the one before; main calls the last.
pub(crate) fn chained(alloc: Global, count: usize) -> Result<String, Fail> {
    let mut text = String::from_str(alloc, "proc f0() { }")?;
    for i in 1..count {
        let before = i - 1;
        let line = format!(in alloc; "proc f{i}() {{ call f{before}(); }}")?;
        text.push_str(line.as_str())?;
    }
    let last = count.saturating_sub(1);
    let line = format!(in alloc; "proc main() {{ call f{last}(); }}")?;
    text.push_str(line.as_str())?;
    Ok(text)
}

/// An empty procedure, so many that each call the one before so many times, and a main that calls the last.
pub(crate) fn multiplied(alloc: Global, count: u32, times: usize) -> Result<String, Fail> {
    let mut text = String::from_str(alloc, "proc f0() { } ")?;
    for i in 0..count {
        let next = i.saturating_add(1);
        let front = format!(in alloc; "proc f{next}() {{ ")?;
        let call = format!(in alloc; "call f{i}(); ")?;
        let proc = repeated(alloc, front.as_str(), call.as_str(), times, "} ")?;
        text.push_str(proc.as_str())?;
    }
    let main = format!(in alloc; "proc main() {{ call f{count}(); }}")?;
    text.push_str(main.as_str())?;
    Ok(text)
}

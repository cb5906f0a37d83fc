//! Runs that a text tells of: blocks of lines, an empty line after each. The first byte of a line says what it is: `#` a
//! remark, `$` the words, `:` a line of the source `f`, `%` a line of the certificate `c`, `>` a line of the script and
//! `~` a last one without its end, `<` a line that is to be written, `?` the status to end with, 0 where none is told.
//! What it holds stands after a space; `%` alone says that there is a certificate, of which other lines tell. Any other
//! line is an error.
use crate::served::{MOST, status_of};
use io_edge::{FaultPlan, MemFiles, MemSink, MemSource, NamedFile};
use std::alloc::Global;
use std::io::{Error, ErrorKind};

/// A run, and what is to come of it.
#[derive(Drop)]
struct Row {
    words: Vec<u8>,
    source: Vec<u8>,
    certificate: Vec<u8>,
    has_certificate: bool,
    script: Vec<u8>,
    wanted: Vec<u8>,
    status: Vec<u8>,
}

impl Row {
    /// A run of which nothing is told.
    fn new(alloc: Global) -> Row {
        Row {
            words: Vec::new(alloc),
            source: Vec::new(alloc),
            certificate: Vec::new(alloc),
            has_certificate: false,
            script: Vec::new(alloc),
            wanted: Vec::new(alloc),
            status: Vec::new(alloc),
        }
    }

    /// Adds what a line tells of the run.
    fn add(&mut self, line: &[u8]) -> Result<(), Error> {
        match line {
            [b'$', b' ', words @ ..] => self.words.extend_from_slice(words)?,
            [b':', b' ', source @ ..] => add_line(&mut self.source, source)?,
            [b'%', b' ', line @ ..] => {
                self.has_certificate = true;
                add_line(&mut self.certificate, line)?
            }
            [b'%'] => self.has_certificate = true,
            [b'>', b' ', request @ ..] => add_line(&mut self.script, request)?,
            [b'>'] => self.script.push(b'\n')?,
            [b'~', b' ', request @ ..] => self.script.extend_from_slice(request)?,
            [b'<', b' ', reply @ ..] => add_line(&mut self.wanted, reply)?,
            [b'?', b' ', status @ ..] => self.status.extend_from_slice(status)?,
            [] | [b'#', ..] => {}
            _ => return Err(Error::from(ErrorKind::InvalidData)),
        }
        Ok(())
    }

    /// The files that there are.
    fn files(&self, alloc: Global) -> Result<Vec<NamedFile>, Error> {
        let source = NamedFile::new(String::from_str(alloc, "f")?, self.source.clone()?);
        let mut files = vec![in alloc; source]?;
        if self.has_certificate {
            let name = String::from_str(alloc, "c")?;
            files.push(NamedFile::new(name, self.certificate.clone()?))?;
        }
        Ok(files)
    }

    /// What the run writes, where that or its status is not what is told.
    fn differs(&self, alloc: Global) -> Result<Option<Vec<u8>>, Error> {
        let line = String::from_utf8_lossy(alloc, self.words.as_slice())?;
        let words = words_of(alloc, line.as_str())?;
        let mut files = MemFiles::new(self.files(alloc)?, FaultPlan::none(alloc));
        let mut script = MemSource::new(self.script.clone()?, MOST, FaultPlan::none(alloc));
        let mut out = MemSink::new(alloc, MOST, FaultPlan::none(alloc));
        let status = status_of(alloc, words.as_slice(), &mut files, &mut script, &mut out);
        if out.bytes() == self.wanted.as_slice() && self.ends_with(alloc, status)? {
            return Ok(None);
        }
        Ok(Some(out.bytes().to_vec(alloc)?))
    }

    /// Whether this is the status to end with.
    fn ends_with(&self, alloc: Global, status: u8) -> Result<bool, Error> {
        let told = format!(in alloc; "{status}")?;
        Ok(match self.status.as_slice() {
            [] => status == 0,
            wanted => wanted == told.as_bytes(),
        })
    }
}

/// Adds a line with its end.
fn add_line(text: &mut Vec<u8>, line: &[u8]) -> Result<(), Error> {
    text.extend_from_slice(line)?;
    text.push(b'\n')?;
    Ok(())
}

/// The words of a line.
fn words_of(alloc: Global, line: &str) -> Result<Vec<String>, Error> {
    let mut words = Vec::new(alloc);
    for word in line.split_whitespace() {
        words.push(String::from_str(alloc, word)?)?;
    }
    Ok(words)
}

/// How the runs of a text came out.
#[derive(Drop)]
pub(crate) struct Outcome {
    /// How many are as expected.
    pub(crate) held: u32,
    /// The words of the others, and what they wrote.
    pub(crate) differing: Vec<u8>,
}

impl Outcome {
    /// Counts a run, where words are told.
    fn count(&mut self, alloc: Global, row: &Row) -> Result<(), Error> {
        if row.words.is_empty() {
            return Ok(());
        }
        match row.differs(alloc)? {
            None => self.held = self.held.saturating_add(1),
            Some(written) => {
                add_line(&mut self.differing, row.words.as_slice())?;
                add_line(&mut self.differing, written.as_slice())?;
            }
        }
        Ok(())
    }
}

/// Makes each run that a text tells of.
pub(crate) fn outcome_of(alloc: Global, text: &[u8]) -> Result<Outcome, Error> {
    let text = String::from_utf8_lossy(alloc, text)?;
    let mut outcome = Outcome {
        held: 0,
        differing: Vec::new(alloc),
    };
    let mut row = Row::new(alloc);
    for line in text.split('\n') {
        row.add(line.as_bytes())?;
        if line.is_empty() {
            outcome.count(alloc, &row)?;
            row = Row::new(alloc);
        }
    }
    outcome.count(alloc, &row)?;
    Ok(outcome)
}

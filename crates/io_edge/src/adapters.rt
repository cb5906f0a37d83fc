//! The adapters over a real file, standard input and standard output: the trusted edge.
ghost use Rattle.std.specs.Prelude.{◌≡◌, ◌≤◌, None, IfOk, IsErrOf, length};

use crate::traits::{Failed, Files, LoadFault, Sink, Source};
use std::alloc::Global;
use std::fs::File;
use std::io::{Read, Write};
use std::rt;

/// Bytes that are read from a file at a time.
const BLOCK: usize = 65536;

/// The files of the machine. A file that is not there is a fault like another; nothing is told.
#[derive(Drop)]
pub struct DiskFiles<'a, R> {
    runtime: &'a R,
    faults: u64,
}

impl<'a, R: rt::Files> DiskFiles<'a, R> {
    /// The files that this runtime reaches.
    pub fn new(runtime: &'a R) -> DiskFiles<'a, R>
        ensures none_yet { result.faults ≡ 0 }
    {
        DiskFiles { runtime, faults: 0 }
    }
}

/// What a reader holds, up to the limit.
fn read_within(alloc: Global, reader: &mut impl Read, limit: usize) -> Result<Vec<u8>, LoadFault>
    ensures fits { IfOk result (λ v. length v.items ≤ limit) }
    ensures never_absent { IsErrOf result LoadFault.Absent → ⊥ }
{
    let mut bytes = Vec::new(alloc);
    let mut block = [0u8; BLOCK];
    for _ in 0..u64::MAX {
        let Ok(count) = reader.read(&mut block) else {
            return Err(LoadFault::Failed);
        };
        if count == 0 {
            return Ok(bytes);
        }
        if count > limit - bytes.len() {
            return Err(LoadFault::TooLong);
        }
        if bytes.extend_from_slice(&block[..count]).is_err() {
            return Err(LoadFault::Memory);
        }
    }
    Err(LoadFault::TooLong)
}

impl<'a, R: rt::Files> Files for DiskFiles<'a, R> {
    ghost faults = { λ f. f.faults };

    ghost told = { λ _. None };

    fn fault_count(&self) -> u64 {
        self.faults
    }

    fn load(&mut self, alloc: Global, name: &str, limit: usize) -> Result<Vec<u8>, LoadFault> {
        let loaded = match File::open(self.runtime, name) {
            Ok(mut file) => read_within(alloc, &mut file, limit),
            Err(_) => Err(LoadFault::Failed),
        };
        match loaded {
            Err(LoadFault::Failed) => {
                self.faults = self.faults.saturating_add(1);
                Err(LoadFault::Failed)
            }
            other => other,
        }
    }
}

/// What a reader gives, as standard input; nothing is told.
#[derive(Drop)]
pub struct InputSource<R> {
    reader: R,
    faults: u64,
}

impl<R: Read + Drop> InputSource<R> {
    /// The bytes that this reader gives.
    pub fn new(reader: R) -> InputSource<R>
        ensures none_yet { result.faults ≡ 0 }
    {
        InputSource { reader, faults: 0 }
    }
}

impl<R: Read + Drop> Source for InputSource<R> {
    ghost faults = { λ s. s.faults };

    ghost told = { λ _. None };

    fn fault_count(&self) -> u64 {
        self.faults
    }

    fn read(&mut self, buffer: &mut [u8]) -> Result<usize, Failed> {
        match self.reader.read(buffer) {
            Ok(count) => Ok(count),
            Err(_) => {
                self.faults = self.faults.saturating_add(1);
                Err(Failed)
            }
        }
    }
}

/// A writer, as standard output; nothing is told.
#[derive(Drop)]
pub struct OutputSink<W> {
    writer: W,
    faults: u64,
}

impl<W: Write + Drop> OutputSink<W> {
    /// Writes to this writer.
    pub fn new(writer: W) -> OutputSink<W>
        ensures none_yet { result.faults ≡ 0 }
    {
        OutputSink { writer, faults: 0 }
    }
}

impl<W: Write + Drop> Sink for OutputSink<W> {
    ghost faults = { λ s. s.faults };

    ghost told = { λ _. None };

    fn fault_count(&self) -> u64 {
        self.faults
    }

    fn write(&mut self, piece: &[u8]) -> Result<usize, Failed> {
        match self.writer.write(piece) {
            Ok(count) if count > 0 || piece.is_empty() => Ok(count),
            _ => {
                self.faults = self.faults.saturating_add(1);
                Err(Failed)
            }
        }
    }
}

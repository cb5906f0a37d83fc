//! Files, a source and a sink that never fail.
ghost use Rattle.std.specs.Prelude.{◌≡◌, ◌≤◌, ◌<◌, Some, None};
ghost use Rattle.io_edge.specs.Outside.{bytes_of};

use crate::memory::{NamedFile, copy_file, hand_out};
use crate::traits::{Failed, Files, LoadFault, Sink, Source};
use std::alloc::Global;
use std::marker::Model;

/// Files in memory that never fail.
#[derive(Drop)]
pub struct SureFiles {
    files: Vec<NamedFile>,
}

impl Model for SureFiles {
    ghost use Rattle.io_edge.specs.Outside.{File};
    ghost use Rattle.std.specs.Prelude.{List};

    ghost Value = { List File };

    ghost view = { λ f. f.files.items };
}

impl SureFiles {
    /// These files; the first of a name counts.
    pub fn new(files: Vec<NamedFile>) -> SureFiles
        ensures files { result ≡ files.items }
    {
        SureFiles { files }
    }
}

impl Files for SureFiles {
    ghost faults = { λ _. 0 };

    ghost told = { λ f. Some (λ name. bytes_of name f) };

    fn fault_count(&self) -> u64 {
        0
    }

    fn load(&mut self, alloc: Global, name: &str, limit: usize) -> Result<Vec<u8>, LoadFault> {
        copy_file(alloc, self.files.as_slice(), name, limit)
    }
}

/// A source in memory that never fails, and hands out all that there is room for.
#[derive(Drop)]
pub struct SureSource {
    bytes: Vec<u8>,
    at: usize,
}

impl Model for SureSource {
    ghost use Rattle.std.specs.Prelude.{◌≤◌, ℕ, List, drop, vec_len};

    ghost Value = { List ℕ };

    ghost view = { λ s. drop s.at s.bytes.items };

    ghost invariant = { λ s. s.at ≤ vec_len s.bytes };
}

impl SureSource {
    /// A source of these bytes.
    pub fn new(bytes: Vec<u8>) -> SureSource
        ensures left { result ≡ bytes.items }
    {
        SureSource { bytes, at: 0 }
    }
}

impl Source for SureSource {
    ghost faults = { λ _. 0 };

    ghost told = { λ s. Some s };

    fn fault_count(&self) -> u64 {
        0
    }

    fn read(&mut self, buffer: &mut [u8]) -> Result<usize, Failed> {
        let count = hand_out(&self.bytes[self.at..], buffer, usize::MAX);
        self.at += count;
        Ok(count)
    }
}

/// A sink that takes each piece whole, keeps no byte, and never fails.
#[derive(Clone, Copy, Debug, Default, Drop, PartialEq, Eq)]
pub struct SureSink;

impl Sink for SureSink {
    ghost faults = { λ _. 0 };

    ghost told = { λ _. None };

    fn fault_count(&self) -> u64 {
        0
    }

    fn write(&mut self, piece: &[u8]) -> Result<usize, Failed> {
        Ok(piece.len())
    }
}

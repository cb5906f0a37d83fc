//! The three traits, with what their calls may answer.
ghost use Rattle.std.specs.Prelude.{◌≡◌, ◌≤◌, ◌<◌, ◌^◌, ℕ, List, [], length, Option, Some, None, IfOk, OnOk, OnErr, IfSome, IsErrOf, IsOk};
ghost use Rattle.io_edge.specs.Outside.{Rose, Lacks, IsLonger, HandsOut, Takes};

use std::alloc::{AllocError, AllocFailed, Global};
use thiserror::Error;

/// A call of the outside failed, and was counted.
#[derive(Clone, Copy, Debug, Drop, Error, PartialEq, Eq)]
#[error("the call failed")]
pub struct Failed;

/// Why a file was not loaded.
#[derive(Clone, Copy, Debug, Drop, Error, PartialEq, Eq)]
pub enum LoadFault {
    /// The call failed, and was counted.
    #[error("the file could not be read")]
    Failed,
    /// The files are known, and none has this name.
    #[error("no such file")]
    Absent,
    /// The file has more bytes than the limit.
    #[error("the file is too long")]
    TooLong,
    /// Memory ran out.
    #[error("out of memory")]
    Memory,
}

/// Files that can be loaded by their names.
pub trait Files {
    /// How many calls failed so far.
    ghost faults: { Self → ℕ };

    /// The bytes of each name, where they are known.
    ghost told: { Self → Option (List ℕ → Option (List ℕ)) };

    /// How many calls failed so far, up to 2^64 - 1.
    fn fault_count(&self) -> u64
        ensures count { result ≡ faults self.now };

    /// All bytes of the file of this name, at most `limit`.
    fn load(&mut self, alloc: Global, name: &str, limit: usize) -> Result<Vec<u8>, LoadFault>
        ensures never_falls { faults self.old ≤ faults self.new }
        ensures stays { told self.new ≡ told self.old }
        ensures fits { IfOk result (λ v. length v.items ≤ limit) }
        ensures bytes { IfOk result (λ v. IfSome (told self.old)
            (λ files. files name.now ≡ Some v.items)) }
        ensures failed { IsErrOf result LoadFault.Failed →
            Rose (faults self.old) (faults self.new) }
        ensures absent { IsErrOf result LoadFault.Absent → Lacks (told self.old) name.now }
        ensures too_long { IsErrOf result LoadFault.TooLong →
            IfSome (told self.old) (λ files. IsLonger (files name.now) limit) };
}

/// A stream of bytes that is read.
pub trait Source {
    /// How many calls failed so far.
    ghost faults: { Self → ℕ };

    /// The bytes that are left, where they are known.
    ghost told: { Self → Option (List ℕ) };

    /// How many calls failed so far, up to 2^64 - 1.
    fn fault_count(&self) -> u64
        ensures count { result ≡ faults self.now };

    /// Puts the next bytes into the buffer and says how many. None into a buffer that has room is
    /// the end.
    fn read(&mut self, buffer: &mut [u8]) -> Result<usize, Failed>
        ensures within { IfOk result (λ n. n ≤ length buffer.old) }
        ensures never_falls { faults self.old ≤ faults self.new }
        ensures hands_out { HandsOut (told self.old) (told self.new) result buffer.new }
        ensures end { IfOk result (λ n. n ≡ 0 → 0 < length buffer.old →
            IfSome (told self.old) (λ left. left ≡ [])) }
        ensures failed { OnErr result (Rose (faults self.old) (faults self.new)) };
}

/// A stream of bytes that is written.
pub trait Sink {
    /// How many calls failed so far.
    ghost faults: { Self → ℕ };

    /// The bytes that were taken so far, where they are known.
    ghost told: { Self → Option (List ℕ) };

    /// How many calls failed so far, up to 2^64 - 1.
    fn fault_count(&self) -> u64
        ensures count { result ≡ faults self.now };

    /// Takes the first bytes of the piece and says how many. To take none of a piece that has some
    /// is a fault, and is counted.
    fn write(&mut self, piece: &[u8]) -> Result<usize, Failed>
        ensures within { IfOk result (λ n. n ≤ length piece.now) }
        ensures never_falls { faults self.old ≤ faults self.new }
        ensures takes { Takes (told self.old) (told self.new) result piece.now }
        ensures nothing_taken { IfOk result (λ n. n ≡ 0 → 0 < length piece.now →
            Rose (faults self.old) (faults self.new)) }
        ensures failed { OnErr result (Rose (faults self.old) (faults self.new)) };
}

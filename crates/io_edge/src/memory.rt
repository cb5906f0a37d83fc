//! Files, a source and a sink in memory, which tell what they hold and fail where they are to.
ghost use Rattle.std.specs.Prelude.{◌≡◌, ◌≤◌, ◌<◌, [], take, length, Some, None, IfOk, IfSome, IsErr, IsErrOf, OnErr, OnOk, is_err, min, true, false};
ghost use Rattle.std.specs.Option.{option_copied};
ghost use Rattle.std.specs.String.{string_bytes};
ghost use Rattle.io_edge.specs.Outside.{HandsOut, IsLonger, Rose, Takes, after_call, bytes_of, is_planned, told_of};

use crate::plan::FaultPlan;
use crate::traits::{Failed, Files, LoadFault, Sink, Source};
use std::alloc::Global;
use std::marker::Model;

/// A file in memory: a name and its bytes.
#[derive(Drop)]
pub struct NamedFile {
    name: String,
    bytes: Vec<u8>,
}

impl Model for NamedFile {
    ghost use Rattle.io_edge.specs.Outside.{File};
    ghost use Rattle.std.specs.String.{string_bytes};

    ghost Value = { File };

    ghost view = { λ f. record { name = string_bytes f.name; bytes = f.bytes.items } };
}

impl NamedFile {
    /// A file of this name with these bytes.
    pub fn new(name: String, bytes: Vec<u8>) -> NamedFile
        ensures file { result ≡ record { name = string_bytes name; bytes = bytes.items } }
    {
        NamedFile { name, bytes }
    }

    /// The file's name.
    pub fn name(&self) -> &str
        ensures name { result.now ≡ self.now.name }
    {
        self.name.as_str()
    }

    /// The file's bytes.
    pub fn bytes(&self) -> &[u8]
        ensures bytes { result.now ≡ self.now.bytes }
    {
        self.bytes.as_slice()
    }
}

/// The bytes of the first file of this name.
pub(crate) fn find<'a>(files: &'a [NamedFile], name: &str) -> Option<&'a [u8]>
    ensures found { option_copied result ≡ bytes_of name.now files.now }
{
    for file in files {
        if file.name() == name {
            return Some(file.bytes());
        }
    }
    None
}

/// A copy of the bytes of the first file of this name, where they are no more than the limit.
pub(crate) fn copy_file(
    alloc: Global,
    files: &[NamedFile],
    name: &str,
    limit: usize,
) -> Result<Vec<u8>, LoadFault>
    ensures fits { IfOk result (λ v. length v.items ≤ limit) }
    ensures bytes { IfOk result (λ v. bytes_of name.now files.now ≡ Some v.items) }
    ensures never_failed { IsErrOf result LoadFault.Failed → ⊥ }
    ensures absent { IsErrOf result LoadFault.Absent → bytes_of name.now files.now ≡ None }
    ensures too_long { IsErrOf result LoadFault.TooLong →
        IsLonger (bytes_of name.now files.now) limit }
{
    let Some(bytes) = find(files, name) else {
        return Err(LoadFault::Absent);
    };
    if bytes.len() > limit {
        return Err(LoadFault::TooLong);
    }
    match Vec::from_slice(alloc, bytes) {
        Ok(copy) => Ok(copy),
        Err(_) => Err(LoadFault::Memory),
    }
}

/// Puts the first bytes into the buffer, at most `most`, and says how many.
pub(crate) fn hand_out(bytes: &[u8], buffer: &mut [u8], most: usize) -> usize
    ensures some { 0 < most → 0 < length buffer.old → result ≡ 0 → bytes.now ≡ [] }
    ensures count { result ≡ min (min (length bytes.now) (length buffer.old)) most }
    ensures within { result ≤ length buffer.old }
    ensures there { result ≤ length bytes.now }
    ensures copied { take result buffer.new ≡ take result bytes.now }
{
    let count = bytes.len().min(buffer.len()).min(most);
    buffer[..count].copy_from_slice(&bytes[..count]);
    count
}

/// Files in memory; the calls that the plan names fail.
#[derive(Drop)]
pub struct MemFiles {
    files: Vec<NamedFile>,
    plan: FaultPlan,
}

impl Model for MemFiles {
    ghost use Rattle.io_edge.specs.Outside.{Folder};

    ghost Value = { Folder };

    ghost view = { λ f. record { files = f.files.items; plan = f.plan } };
}

impl MemFiles {
    /// These files; the first of a name counts.
    pub fn new(files: Vec<NamedFile>, plan: FaultPlan) -> MemFiles
        ensures files { result ≡ record { files = files.items; plan = plan } }
    {
        MemFiles { files, plan }
    }
}

impl Files for MemFiles {
    ghost faults = { λ f. f.plan.faults };

    ghost told = { λ f. told_of f.files };

    fn fault_count(&self) -> u64 {
        self.plan.faults()
    }

    fn load(&mut self, alloc: Global, name: &str, limit: usize) -> Result<Vec<u8>, LoadFault>
        ensures never_falls { self.old.plan.faults ≤ self.new.plan.faults }
        ensures stays { told_of self.new.files ≡ told_of self.old.files }
        ensures fits { IfOk result (λ v. length v.items ≤ limit) }
        ensures bytes { IfOk result (λ v. bytes_of name.now self.old.files ≡ Some v.items) }
        ensures failed { IsErrOf result LoadFault.Failed →
            Rose self.old.plan.faults self.new.plan.faults }
        ensures absent { IsErrOf result LoadFault.Absent → bytes_of name.now self.old.files ≡ None }
        ensures too_long { IsErrOf result LoadFault.TooLong →
            IsLonger (bytes_of name.now self.old.files) limit }
        // It fails exactly where the plan says so.
        ensures planned { is_planned self.old.plan ≡ true → IsErrOf result LoadFault.Failed }
        ensures unplanned { is_planned self.old.plan ≡ false → IsErrOf result LoadFault.Failed → ⊥ }
        ensures plan { self.new.plan ≡ after_call self.old.plan }
    {
        if self.plan.fails() {
            return Err(LoadFault::Failed);
        }
        copy_file(alloc, self.files.as_slice(), name, limit)
    }
}

/// A source in memory. A call hands out at most `most` bytes, and the calls that the plan names fail.
#[derive(Drop)]
pub struct MemSource {
    bytes: Vec<u8>,
    at: usize,
    most: usize,
    plan: FaultPlan,
}

impl Model for MemSource {
    ghost use Rattle.io_edge.specs.Outside.{Script};
    ghost use Rattle.std.specs.Prelude.{◌≤◌, ◌<◌, drop, vec_len};

    ghost Value = { Script };

    ghost view = { λ s. record { left = drop s.at s.bytes.items; most = s.most; plan = s.plan } };

    ghost invariant = { λ s. (s.at ≤ vec_len s.bytes) × (0 < s.most) };
}

impl MemSource {
    /// A source of these bytes, at most `most` a call.
    pub fn new(bytes: Vec<u8>, most: usize, plan: FaultPlan) -> MemSource
        requires some { 0 < most }
        ensures source { result ≡ record { left = bytes.items; most = most; plan = plan } }
    {
        MemSource {
            bytes,
            at: 0,
            most,
            plan,
        }
    }

    /// The bytes that are left.
    pub fn left(&self) -> &[u8]
        ensures left { result.now ≡ self.now.left }
    {
        &self.bytes[self.at..]
    }
}

impl Source for MemSource {
    ghost faults = { λ s. s.plan.faults };

    ghost told = { λ s. Some s.left };

    fn fault_count(&self) -> u64 {
        self.plan.faults()
    }

    fn read(&mut self, buffer: &mut [u8]) -> Result<usize, Failed>
        ensures within { IfOk result (λ n. n ≤ length buffer.old) }
        ensures never_falls { self.old.plan.faults ≤ self.new.plan.faults }
        ensures hands_out { HandsOut (Some self.old.left) (Some self.new.left) result buffer.new }
        ensures end { IfOk result (λ n. n ≡ 0 → 0 < length buffer.old →
            IfSome (Some self.old.left) (λ left. left ≡ [])) }
        ensures failed { OnErr result (Rose self.old.plan.faults self.new.plan.faults) }
        // It fails exactly where the plan says so, and hands out as much as the room and `most` allow.
        ensures planned { is_err result ≡ is_planned self.old.plan }
        ensures plan { self.new.plan ≡ after_call self.old.plan }
        ensures most { IfOk result (λ n. n ≡ min (min (length self.old.left) (length buffer.old))
            self.old.most) }
        ensures same_most { self.new.most ≡ self.old.most }
    {
        if self.plan.fails() {
            return Err(Failed);
        }
        let count = hand_out(&self.bytes[self.at..], buffer, self.most);
        self.at += count;
        Ok(count)
    }
}

/// A sink in memory. A call takes at most `most` bytes, and the calls that the plan names fail.
#[derive(Drop)]
pub struct MemSink {
    bytes: Vec<u8>,
    most: usize,
    plan: FaultPlan,
}

impl Model for MemSink {
    ghost use Rattle.io_edge.specs.Outside.{Taken};
    ghost use Rattle.std.specs.Prelude.{◌<◌};

    ghost Value = { Taken };

    ghost view = { λ s. record { bytes = s.bytes.items; most = s.most; plan = s.plan } };

    ghost invariant = { λ s. 0 < s.most };
}

impl MemSink {
    /// An empty sink that takes at most `most` bytes a call.
    pub fn new(alloc: Global, most: usize, plan: FaultPlan) -> MemSink
        requires some { 0 < most }
        ensures sink { result ≡ record { bytes = []; most = most; plan = plan } }
    {
        MemSink {
            bytes: Vec::new(alloc),
            most,
            plan,
        }
    }

    /// The bytes that were taken.
    pub fn bytes(&self) -> &[u8]
        ensures bytes { result.now ≡ self.now.bytes }
    {
        self.bytes.as_slice()
    }
}

impl Sink for MemSink {
    ghost faults = { λ s. s.plan.faults };

    ghost told = { λ s. Some s.bytes };

    fn fault_count(&self) -> u64 {
        self.plan.faults()
    }

    /// Out of memory is a fault like another.
    fn write(&mut self, piece: &[u8]) -> Result<usize, Failed>
        ensures within { IfOk result (λ n. n ≤ length piece.now) }
        ensures never_falls { self.old.plan.faults ≤ self.new.plan.faults }
        ensures takes { Takes (Some self.old.bytes) (Some self.new.bytes) result piece.now }
        ensures nothing_taken { IfOk result (λ n. n ≡ 0 → 0 < length piece.now →
            Rose self.old.plan.faults self.new.plan.faults) }
        ensures failed { OnErr result (Rose self.old.plan.faults self.new.plan.faults) }
        // It fails where the plan says so, and takes as much as `most` allows.
        ensures planned { is_planned self.old.plan ≡ true → IsErr result }
        ensures plan { OnOk result (self.new.plan ≡ after_call self.old.plan) }
        ensures most { IfOk result (λ n. n ≡ min (length piece.now) self.old.most) }
        ensures same_most { self.new.most ≡ self.old.most }
    {
        if self.plan.fails() {
            return Err(Failed);
        }
        let count = piece.len().min(self.most);
        match self.bytes.extend_from_slice(&piece[..count]) {
            Ok(()) => Ok(count),
            Err(_) => {
                self.plan.count();
                Err(Failed)
            }
        }
    }
}

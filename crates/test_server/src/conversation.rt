//! A conversation: a line of the script comes only when the reply to the one before it has been written.
ghost use Rattle.std.specs.Prelude.{◌≤◌, length};

use crate::devices::{LINES, REPLIES, SERVE, SOURCE};
use crate::table::{SURE, folder, status, words_of};
use io_edge::{Failed, FaultPlan, Sink, Source};
use std::cell::Cell;
use std::test::Fail;

/// How many bytes the first line has, with its end.
fn first_line(text: &[u8]) -> usize
    ensures within { result ≤ length text.now }
{
    for at in 0..text.len() {
        if text[at] == b'\n' {
            return at + 1;
        }
    }
    text.len()
}

/// A script that hands out a line a call, and fails where the reply to the line before has not been written.
#[derive(Drop)]
struct Asker<'a> {
    left: &'a [u8],
    // whether a line was handed out whose reply has not been written
    waits: &'a Cell<bool>,
    plan: FaultPlan,
}

impl Source for Asker<'_> {
    ghost use Rattle.std.specs.Prelude.{None};

    ghost faults = { λ s. s.plan.faults };

    ghost told = { λ _. None };

    fn fault_count(&self) -> u64 {
        self.plan.faults()
    }

    fn read(&mut self, buffer: &mut [u8]) -> Result<usize, Failed> {
        if self.waits.get() {
            self.plan.count();
            return Err(Failed);
        }
        let end = first_line(self.left);
        let count = end.min(buffer.len());
        buffer[..count].copy_from_slice(&self.left[..count]);
        self.waits.set(0 < count && count == end);
        self.left = &self.left[count..];
        Ok(count)
    }
}

/// A sink that keeps what is written, and tells the script when a reply ends.
#[derive(Drop)]
struct Listener<'a> {
    taken: Vec<u8>,
    waits: &'a Cell<bool>,
    plan: FaultPlan,
}

impl Sink for Listener<'_> {
    ghost use Rattle.std.specs.Prelude.{None};

    ghost faults = { λ s. s.plan.faults };

    ghost told = { λ _. None };

    fn fault_count(&self) -> u64 {
        self.plan.faults()
    }

    fn write(&mut self, piece: &[u8]) -> Result<usize, Failed> {
        if self.taken.extend_from_slice(piece).is_err() {
            self.plan.count();
            return Err(Failed);
        }
        if piece.last() == Some(&b'\n') {
            self.waits.set(false);
        }
        Ok(piece.len())
    }
}

/// Each reply is written before the next line is read, so a client may wait for it.
#[test]
fn line_by_line(rt: HostRuntime) -> Result<(), Fail> {
    let alloc = rt.alloc();
    let waits = Cell::new(false);
    let words = words_of(alloc, SERVE)?;
    let mut files = folder(alloc, SOURCE, &SURE)?;
    let mut script = Asker {
        left: LINES,
        waits: &waits,
        plan: FaultPlan::none(alloc),
    };
    let mut out = Listener {
        taken: Vec::new(alloc),
        waits: &waits,
        plan: FaultPlan::none(alloc),
    };
    let status = status(alloc, words.as_slice(), &mut files, &mut script, &mut out);
    assert_eq!(rt; out.taken.as_slice(), REPLIES);
    assert_eq!(rt; status, 0);
    Ok(())
}

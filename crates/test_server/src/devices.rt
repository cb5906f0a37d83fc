//! Devices that move few bytes a call, devices that fail, and a file that is too long.
use crate::table::{Devices, SURE, ran, served};
use std::alloc::Global;
use std::test::Fail;

pub(crate) const SERVE: &str = "daig serve --widening plain f";

/// Counts to ten.
pub(crate) const SOURCE: &[u8] =
    b"proc main() { var i: int; var n: int; n = 10; i = 0; while (i < n) { i = i + 1; } }";

/// A state, an edit, what it leaves, the edit taken back, and the state again.
pub(crate) const LINES: &[u8] =
    b"{\"at\":\"after 3\",\"do\":\"state\"}\n{\"do\":\"replace\",\"id\":1,\"text\":\"n = 20;\"}\n{\"do\":\"cost\"}\n{\"do\":\"undo\"}\n{\"at\":\"after 3\",\"do\":\"state\"}\n";

pub(crate) const REPLIES: &[u8] =
    b"{\"state\":\"i=[10,max] n=[10,10]\"}\n{\"next\":6}\n{\"cost\":11,\"kept\":1}\n{\"next\":6}\n{\"state\":\"i=[10,max] n=[10,10]\"}\n";

/// How many bytes a device moves a call.
const PIECES: [usize; 3] = [1, 2, 7];

/// How many lines end in these bytes.
fn lines_in(bytes: &[u8]) -> usize {
    let mut lines: usize = 0;
    for byte in bytes {
        if *byte == b'\n' {
            lines = lines.saturating_add(1);
        }
    }
    lines
}

/// So many lines of the text.
fn first_lines(text: &[u8], count: usize) -> &[u8] {
    let mut lines: usize = 0;
    for i in 0..text.len() {
        if lines == count {
            return &text[..i];
        }
        if text[i] == b'\n' {
            lines = lines.saturating_add(1);
        }
    }
    text
}

/// The replies to the lines that end within so many bytes.
fn replies_within(read: usize) -> &'static [u8] {
    first_lines(REPLIES, lines_in(&LINES[..read.min(LINES.len())]))
}

/// The source with so many spaces after it.
fn padded_source(alloc: Global, spaces: usize) -> Result<Vec<u8>, Fail> {
    let mut source = SOURCE.to_vec(alloc)?;
    for _ in 0..spaces {
        source.push(b' ')?;
    }
    Ok(source)
}

/// Whatever pieces the bytes come and go in, they are the same; a last line needs no LF.
#[test]
fn small_pieces(rt: HostRuntime) -> Result<(), Fail> {
    let alloc = rt.alloc();
    let open = LINES.strip_suffix(b"\n").unwrap_or(LINES);
    for most in [1, 2, 7, 100_000] {
        for script in [LINES, open] {
            let (status, bytes) = served(alloc, SERVE, SOURCE, script, most)?;
            assert_eq!(rt; bytes.as_slice(), REPLIES, "{most}");
            assert_eq!(rt; status, 0, "{most}");
        }
    }
    Ok(())
}

/// Each read of a script fails in turn: there are the replies to the lines whose LF came, and 4.
#[test]
fn failing_reads(rt: HostRuntime) -> Result<(), Fail> {
    for most in PIECES {
        for call in 0..=LINES.len().div_ceil(most) {
            let devices = Devices {
                most_read: most,
                failing_reads: &[call as u64],
                ..SURE
            };
            let (code, bytes) = ran(rt.alloc(), SERVE, SOURCE, LINES, &devices)?;
            let wanted = replies_within(call.saturating_mul(most));
            assert_eq!(rt; (code, bytes.as_slice()), (4, wanted), "{most} {call}");
        }
    }
    Ok(())
}

/// Each write of a sink fails in turn: a prefix went out, and 5 comes.
#[test]
fn failing_writes(rt: HostRuntime) -> Result<(), Fail> {
    for most in PIECES {
        for call in 0..REPLIES.len().div_ceil(most) {
            let devices = Devices {
                most_written: most,
                failing_writes: &[call as u64],
                ..SURE
            };
            let (code, bytes) = ran(rt.alloc(), SERVE, SOURCE, LINES, &devices)?;
            assert_eq!(rt; code, 5, "{most} {call}");
            assert!(rt; REPLIES.starts_with(bytes.as_slice()), "{most} {call}");
        }
    }
    Ok(())
}

/// A file that cannot be loaded, one of the most bytes, and one of a byte more.
#[test]
fn files(rt: HostRuntime) -> Result<(), Fail> {
    let room: usize = 1_048_576;
    let pad = room.saturating_sub(SOURCE.len());
    for (pad, call, wanted) in [(0, 0, 7), (pad, 1, 0), (pad.saturating_add(1), 1, 9)] {
        let source = padded_source(rt.alloc(), pad)?;
        let devices = Devices {
            failing_loads: &[call],
            ..SURE
        };
        let (code, bytes) = ran(rt.alloc(), SERVE, source.as_slice(), b"", &devices)?;
        assert_eq!(rt; (code, bytes.len()), (wanted, 0), "{pad}");
    }
    Ok(())
}

/// Each load fails in turn where a certificate is checked; then none: the source is no certificate.
#[test]
fn certificates(rt: HostRuntime) -> Result<(), Fail> {
    let line = b"{\"line\":1,\"verify\":\"no\"}\n".as_slice();
    for (call, wanted, told) in [(0, 7, b"".as_slice()), (1, 7, b"".as_slice()), (2, 0, line)] {
        let devices = Devices {
            failing_loads: &[call],
            ..SURE
        };
        let (code, bytes) = ran(rt.alloc(), "daig verify f f", SOURCE, b"", &devices)?;
        assert_eq!(rt; code, wanted, "{call}");
        assert_eq!(rt; bytes.as_slice(), told, "{call}");
    }
    Ok(())
}

//! Lines, sources and edits at the limits.
use crate::table::{chained, multiplied, nested, padded, repeated, served, variables};
use std::alloc::Global;
use std::test::Fail;

const PLAIN: &str = "daig serve --widening plain f";

/// Counts to ten.
const TEN: &str =
    "proc main() { var i: int; var n: int; n = 10; i = 0; while (i < n) { i = i + 1; } }";

/// A length of a line, and the replies to the line and to one that is not long.
const LONG_LINES: [(usize, &str); 3] = [
    (
        65_536,
        "{\"state\":\"i=[0,0] n=[10,10]\"}\n{\"state\":\"i=[0,0] n=[10,10]\"}\n",
    ),
    (
        65_537,
        "{\"refused\":15}\n{\"state\":\"i=[0,0] n=[10,10]\"}\n",
    ),
    (
        200_000,
        "{\"refused\":15}\n{\"state\":\"i=[0,0] n=[10,10]\"}\n",
    ),
];

/// A line of the most bytes, and one of a byte more, which is skipped to its end.
#[test]
fn long_lines(rt: HostRuntime) -> Result<(), Fail> {
    let alloc = rt.alloc();
    for (length, wanted) in &LONG_LINES {
        let script = padded(alloc, "{\"at\":\"after 1\",\"do\":\"state\"}", *length)?;
        let (status, bytes) = served(alloc, PLAIN, TEN.as_bytes(), script.as_bytes(), 100_000)?;
        assert_eq!(rt; bytes.as_slice(), wanted.as_bytes(), "{length}");
        assert_eq!(rt; status, 0, "{length}");
    }
    Ok(())
}

/// A program with so many of a part.
#[derive(Clone, Copy, Debug)]
enum Program {
    /// Pieces between front and back.
    Repeated(&'static str, &'static str, usize, &'static str),
    /// Ifs, each in the one before.
    Nested(usize),
    /// Variables of a kind.
    Variables(&'static str, usize),
    /// Procedures, each of which calls the one before.
    Chained(usize),
}

impl Program {
    fn source(self, alloc: Global) -> Result<String, Fail> {
        match self {
            Program::Repeated(front, piece, count, back) => {
                repeated(alloc, front, piece, count, back)
            }
            Program::Nested(depth) => nested(alloc, depth),
            Program::Variables(kind, count) => variables(alloc, kind, count),
            Program::Chained(count) => chained(alloc, count),
        }
    }
}

/// Programs just within a limit and just past it, what is written of each, and the status.
const LIMITS: [(Program, &str, u8); 14] = [
    (
        Program::Repeated("proc main() { var x: int; x = 0", "+ 0", 32, "; }"),
        "",
        0,
    ),
    (
        Program::Repeated("proc main() { var x: int; x = 0", "+ 0", 33, "; }"),
        "{\"at\":77,\"name\":\"TooDeep\",\"refused\":7}\n",
        3,
    ),
    (
        Program::Repeated("proc f() { } proc main() {", "call f();", 4095, "}"),
        "",
        0,
    ),
    (
        Program::Repeated("proc f() { } proc main() {", "call f();", 4096, "}"),
        "{\"at\":0,\"name\":\"Chains\",\"proc\":\"main\",\"refused\":9}\n",
        3,
    ),
    (
        Program::Repeated("proc main() {", "skip;", 10_001, "}"),
        "{\"at\":0,\"name\":\"Statements\",\"proc\":\"main\",\"refused\":9}\n",
        3,
    ),
    (Program::Nested(32), "", 0),
    (
        Program::Nested(33),
        "{\"at\":235,\"name\":\"TooDeep\",\"refused\":7}\n",
        3,
    ),
    (Program::Variables("int", 16), "", 0),
    (
        Program::Variables("int", 17),
        "{\"at\":0,\"name\":\"Ints\",\"proc\":\"main\",\"refused\":9}\n",
        3,
    ),
    (
        Program::Variables("array", 17),
        "{\"at\":0,\"name\":\"Ints\",\"proc\":\"main\",\"refused\":9}\n",
        3,
    ),
    (Program::Variables("list", 8), "", 0),
    (
        Program::Variables("list", 9),
        "{\"at\":0,\"name\":\"Lists\",\"proc\":\"main\",\"refused\":9}\n",
        3,
    ),
    (Program::Chained(8), "", 0),
    (
        Program::Chained(9),
        "{\"at\":0,\"name\":\"Depth\",\"proc\":\"main\",\"refused\":9}\n",
        3,
    ),
];

#[test]
fn limits(rt: HostRuntime) -> Result<(), Fail> {
    for (program, wanted, code) in &LIMITS {
        let source = program.source(rt.alloc())?;
        let (status, bytes) = served(rt.alloc(), PLAIN, source.as_bytes(), b"", 100_000)?;
        let right = bytes.as_slice() == wanted.as_bytes() && status == *code;
        assert!(rt; right, "{program:?}: {status} {bytes:?}");
    }
    Ok(())
}

/// How many procedures stand below the main one, how often each calls the one before, and the limit that is passed.
const MULTIPLIED: [(u32, usize, &str); 9] = [
    (62, 0, ""),
    (63, 0, "Procedures"),
    (7, 1, ""),
    (8, 1, "Depth"),
    (5, 4, ""),
    (6, 4, "Chains"),
    (8, 4, "Depth"),
    (62, 2, "Depth"),
    (63, 2, "Procedures"),
];

/// What is written of a main procedure that passes a limit; nothing for no limit.
fn refusal(alloc: Global, limit: &str) -> Result<String, Fail> {
    if limit.is_empty() {
        Ok(String::new(alloc))
    } else {
        Ok(format!(in alloc;
            "{{\"at\":0,\"name\":\"{limit}\",\"proc\":\"main\",\"refused\":9}}\n"
        )?)
    }
}

/// Procedures, and chains that multiply: of six levels of four calls the lowest alone has 4,096.
#[test]
fn procedures_and_chains(rt: HostRuntime) -> Result<(), Fail> {
    for (count, times, limit) in &MULTIPLIED {
        let source = multiplied(rt.alloc(), *count, *times)?;
        let (_, bytes) = served(rt.alloc(), PLAIN, source.as_bytes(), b"", 100_000)?;
        let wanted = refusal(rt.alloc(), limit)?;
        assert_eq!(rt; bytes.as_slice(), wanted.as_bytes(), "{count} {times}");
    }
    Ok(())
}

/// A prefix of a program is none.
#[test]
fn cut_sources(rt: HostRuntime) -> Result<(), Fail> {
    let alloc = rt.alloc();
    let whole = TEN.as_bytes();
    for end in 0..whole.len() {
        let (status, _bytes) = served(alloc, PLAIN, &whole[..end], b"", 100_000)?;
        assert_eq!(rt; status, 3, "{end}");
    }
    Ok(())
}

/// A block within the deepest one may be put in, and no block below it.
#[test]
fn deep_edits(rt: HostRuntime) -> Result<(), Fail> {
    let alloc = rt.alloc();
    let source = nested(alloc, 32)?;
    let script =
        "{\"do\":\"insert\",\"place\":\"then 32\",\"text\":\"if (0 == 0) { }\"}\n{\"do\":\"insert\",\"place\":\"then 32\",\"text\":\"skip;\"}\n";
    let wanted = "{\"at\":0,\"name\":\"Nesting\",\"proc\":\"main\",\"refused\":9}\n{\"next\":34}\n";
    let (status, bytes) = served(alloc, PLAIN, source.as_bytes(), script.as_bytes(), 100_000)?;
    assert_eq!(rt; bytes.as_slice(), wanted.as_bytes());
    assert_eq!(rt; status, 0);
    Ok(())
}

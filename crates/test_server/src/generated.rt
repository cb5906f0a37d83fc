//! Generated programs and scripts, and what is summed up of them.
use crate::table::served;
use daig_gen::{script, source};
use std::test::Fail;

/// The summary of a script that is run twice.
#[test]
fn summaries(rt: HostRuntime) -> Result<(), Fail> {
    let alloc = rt.alloc();
    let (status, once) = served(alloc, "daig gen --seed 7 --size 100", b"", b"", 100_000)?;
    let (_, again) = served(alloc, "daig gen --seed 7 --size 100", b"", b"", 7)?;
    assert_eq!(rt; once.as_slice(), again.as_slice());
    assert_eq!(rt; status, 0);
    Ok(())
}

/// Sources and scripts, worked out from the rules by another program. Seed 97 has each kind of piece and of turn.
#[test]
fn texts(rt: HostRuntime) -> Result<(), Fail> {
    let alloc = rt.alloc();
    let table: [(u64, u32, &str, &str); 3] = [
        (
            0,
            1,
            "proc main() { var v0: int; var v1: int; var v2: int; var v3: int; var a: array; var p: list; var q: list; p = new; p.next = q; q = p; }\n",
            "{\"at\":\"after 2\",\"do\":\"state\"}\n{\"do\":\"cost\"}\n",
        ),
        (
            1,
            5,
            "proc main() { var v0: int; var v1: int; var v2: int; var v3: int; var a: array; var p: list; var q: list; v1 = input; if (v2 < v2) { v2 = v2; } else { v2 = 95; } v2 = v1 - v2; while (v2 < 52) { v2 = v2 + 1; } v2 = 12; }\n",
            "{\"do\":\"replace\",\"id\":8,\"text\":\"v0 = 65;\"}\n{\"do\":\"insert\",\"place\":\"after 6\",\"text\":\"skip;\"}\n{\"do\":\"replace\",\"id\":3,\"text\":\"v1 = 28;\"}\n{\"at\":\"after 1\",\"do\":\"state\"}\n{\"do\":\"cost\"}\n{\"at\":\"after 1\",\"do\":\"state\"}\n{\"do\":\"cost\"}\n",
        ),
        (
            97,
            9,
            "proc main() { var v0: int; var v1: int; var v2: int; var v3: int; var a: array; var p: list; var q: list; if (v2 < v1) { v2 = v1; } else { v1 = 9; } v2 = v0 - v1; p = new; p.next = q; q = p; v2 = input; while (v2 < 50) { v2 = v2 + 1; } v2 = v3 + 89; v2 = 76; v0 = v3 + 84; a = array 67; }\n",
            "{\"at\":\"after 2\",\"do\":\"state\"}\n{\"do\":\"cost\"}\n{\"do\":\"replace\",\"id\":8,\"text\":\"v1 = 37;\"}\n{\"at\":\"after 9\",\"do\":\"state\"}\n{\"do\":\"cost\"}\n{\"do\":\"replace\",\"id\":1,\"text\":\"v3 = 15;\"}\n{\"do\":\"replace\",\"id\":6,\"text\":\"v1 = 95;\"}\n{\"at\":\"after 5\",\"do\":\"state\"}\n{\"do\":\"cost\"}\n{\"do\":\"insert\",\"place\":\"after 10\",\"text\":\"skip;\"}\n{\"at\":\"after 2\",\"do\":\"state\"}\n{\"do\":\"cost\"}\n{\"do\":\"insert\",\"place\":\"after 14\",\"text\":\"skip;\"}\n",
        ),
    ];
    for (seed, size, program, requests) in table {
        let text = source(alloc, seed, size)?;
        assert!(rt;
            text.as_slice() == program.as_bytes(),
            "the source of {seed}, {size}"
        );
        let lines = script(alloc, seed, size)?;
        assert!(rt;
            lines.as_slice() == requests.as_bytes(),
            "the script of {seed}, {size}"
        );
    }
    Ok(())
}

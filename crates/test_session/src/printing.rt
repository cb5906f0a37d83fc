//! Statements as texts.
use crate::texts::read;
use imp_print::stmt_text;
use std::test::Fail;

/// A loop with an `if` in it.
const LOOP: &str = "proc main() { var i: int;
    while (i < 3) { if (i == 1) { i = i + (2 * i); } else { i = (i - (1 - i)); } } }";

/// The loop, four spaces further to the right than in a listing.
const PRINTED: &str = "    while (i < 3) {
      if (i == 1) {
        i = i + 2 * i;
      } else {
        i = i - (1 - i);
      }
    }
";

#[test]
fn statements_are_printed_further_to_the_right(rt: HostRuntime) -> Result<(), Fail> {
    let program = read(rt.alloc(), LOOP)?;
    let Some(main) = program.procs().first() else {
        return Err("no procedure".into());
    };
    let Some(stmt) = main.body().get(0) else {
        return Err("no statement".into());
    };
    let text = stmt_text(rt.alloc(), stmt, 4)?;
    assert_eq!(rt; text.as_slice(), PRINTED.as_bytes());
    Ok(())
}

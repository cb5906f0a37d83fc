//! Programs from texts.
ghost use Rattle.std.specs.Prelude.{◌≡◌, ℕ, ◌<◌, ◌≤◌, ◌^◌, true, length, IfOk};
ghost use Rattle.std.specs.List.{All};
ghost use Rattle.imp_syntax.specs.Plain.{program_numbers};
ghost use Rattle.imp_check.specs.Programs.{AreNumbered};

use call_contexts::procedure_count;
use imp_check::is_numbered;
use imp_parse::parse_program;
use imp_syntax::{ProcId, Program, StmtId};
use imp_table::{Table, check_table};
use std::alloc::Global;
use std::test::Fail;

/// The bytes of a text that is not long.
pub(crate) fn bytes_of(text: &str) -> Result<&[u8], Fail>
    ensures short { IfOk result (λ bytes. length bytes.now < 2 ^ 31) }
{
    let bytes = text.as_bytes();
    if bytes.len() < 1000000 {
        Ok(bytes)
    } else {
        Err("a long text".into())
    }
}

/// The program of a text.
pub(crate) fn read(alloc: Global, text: &str) -> Result<Program, Fail>
    ensures numbered { IfOk result (λ program. AreNumbered program) }
{
    let program = parse_program(alloc, bytes_of(text)?)?;
    if is_numbered(alloc, &program)? {
        Ok(program)
    } else {
        Err("numbers that are not the parser's".into())
    }
}

/// The table of a text that has no fault.
pub(crate) fn table_of(alloc: Global, text: &str) -> Result<Table, Fail> {
    let program = read(alloc, text)?;
    Ok(check_table(alloc, &program)?)
}

/// Whether these numbers are below another one.
fn are_below(stmts: &[StmtId], bound: u32) -> bool
    ensures below { result ≡ true → All (λ (n : ℕ). n < bound) stmts.now }
{
    for stmt in stmts {
        if bound <= stmt.number() {
            return false;
        }
    }
    true
}

/// The number after those of the statements, which are numbered from 1 on.
pub(crate) fn next_of(alloc: Global, table: &Table) -> Result<u32, Fail>
    ensures positive { IfOk result (λ n. 0 < n) }
    ensures low { IfOk result (λ n. n ≤ 1000001) }
    ensures below { IfOk result (λ n. All (λ (m : ℕ). m < n) (program_numbers table.now.program)) }
{
    let view = table.view();
    let count = view.count();
    if count > 1000000 {
        return Err("many statements".into());
    }
    let next = count + 1;
    for place in 0..procedure_count(&view) {
        let stmts = view.statements(alloc, ProcId::new(place))?;
        if !are_below(stmts.as_slice(), next) {
            return Err("numbers that are not the parser's".into());
        }
    }
    Ok(next)
}

//! The turns of a script, as text.
ghost use Rattle.std.specs.Prelude.{◌≡◌, ◌++◌, ◌+◌, ◌<◌, OnOk};
ghost use Rattle.daig_gen.specs.Script.{turn_of, ask_text, replace_text, insert_text, lines_of, state_after, turn_lines, turn_state};

use crate::draws::Draws;
use crate::pieces::{put_constant, put_number};
use std::alloc::AllocError;

/// What the script asks for.
#[derive(Clone, Copy)]
enum ScriptRequest {
    /// The state after a statement, and its cost.
    Ask,
    /// Another statement in its place.
    Replace,
    /// A statement after it.
    Insert,
}

impl ScriptRequest {
    /// The turn that a number below 4 stands for.
    #[tactic(auto, unfolding(crate::specs::Script::turn_of))]
    fn of(number: u64) -> ScriptRequest
        ensures turn { result ≡ turn_of number }
    {
        match number {
            2 => ScriptRequest::Replace,
            3 => ScriptRequest::Insert,
            _ => ScriptRequest::Ask,
        }
    }
}

/// Adds the lines of the next turn, about a program of so many statements.
#[tactic(auto, unfolding(crate::specs::Script::turn_lines, crate::specs::Script::turn_state))]
pub(crate) fn put_turn(
    lines: &mut Vec<u8>,
    draws: &mut Draws,
    statements: u64,
) -> Result<(), AllocError>
    requires { 0 < statements }
    ensures added { OnOk result (lines.new.items ≡ lines.old.items
        ++ turn_lines statements draws.old) }
    ensures state { OnOk result (draws.new ≡ turn_state draws.old) }
{
    let turn = ScriptRequest::of(draws.pick(4));
    let statement = 1 + draws.pick(statements);
    put_lines(lines, draws, turn, statement)
}

/// Adds the lines of a turn about this statement.
fn put_lines(
    lines: &mut Vec<u8>,
    draws: &mut Draws,
    turn: ScriptRequest,
    statement: u64,
) -> Result<(), AllocError>
    ensures added { OnOk result (lines.new.items ≡ lines.old.items
        ++ lines_of turn statement draws.old) }
    ensures state { OnOk result (draws.new ≡ state_after turn draws.old) }
{
    match turn {
        ScriptRequest::Ask => put_ask(lines, statement),
        ScriptRequest::Replace => {
            let x = draws.variable();
            let c = draws.constant();
            put_replace(lines, statement, x, c)
        }
        ScriptRequest::Insert => put_insert(lines, statement),
    }
}

/// Adds the lines that ask for the state after the statement, and for its cost.
fn put_ask(lines: &mut Vec<u8>, statement: u64) -> Result<(), AllocError>
    ensures added { OnOk result (lines.new.items ≡ lines.old.items ++ ask_text statement) }
{
    lines.extend_from_slice(b"{\"at\":\"after ")?;
    put_number(lines, statement)?;
    lines.extend_from_slice(b"\",\"do\":\"state\"}\n{\"do\":\"cost\"}\n")?;
    Ok(())
}

/// Adds the line that puts `vX = C;` in the statement's place.
fn put_replace(lines: &mut Vec<u8>, statement: u64, x: u64, c: u64) -> Result<(), AllocError>
    ensures added { OnOk result (lines.new.items ≡ lines.old.items ++ replace_text statement x c) }
{
    lines.extend_from_slice(b"{\"do\":\"replace\",\"id\":")?;
    put_number(lines, statement)?;
    lines.extend_from_slice(b",\"text\":\"")?;
    put_constant(lines, x, c)?;
    lines.extend_from_slice(b"\"}\n")?;
    Ok(())
}

/// Adds the line that puts `skip;` after the statement.
fn put_insert(lines: &mut Vec<u8>, statement: u64) -> Result<(), AllocError>
    ensures added { OnOk result (lines.new.items ≡ lines.old.items ++ insert_text statement) }
{
    lines.extend_from_slice(b"{\"do\":\"insert\",\"place\":\"after ")?;
    put_number(lines, statement)?;
    lines.extend_from_slice(b"\",\"text\":\"skip;\"}\n")?;
    Ok(())
}

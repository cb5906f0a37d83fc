//! Statements and blocks.
ghost use Rattle.std.specs.Prelude.{◌≡◌, ◌++◌, codes, IfOk, OnOk};
ghost use Rattle.imp_syntax.specs.Plain.{number_of};
ghost use Rattle.imp_syntax.specs.ActionViews.{action_of, operands_of};
ghost use Rattle.imp_print.specs.Expressions.{condition_text};
ghost use Rattle.imp_print.specs.Statements.{action_text, call_text, margin, line, deeper, is_empty, else_text, statement_text, block_text};

use crate::expressions::put_cond;
use crate::lines::{put_action, put_call, put_margin};
use base_values::{Memory, Text};
use imp_syntax::{Action, Block, Call, Cond, Stmt, StmtNode};

/// Adds what stands before a line, and how far it stands to the right.
pub(crate) fn begin_line(
    text: &mut Text,
    listing: bool,
    number: Option<u32>,
    right: &Text,
) -> Result<(), Memory>
    ensures added { OnOk result (text.new ≡ text.old ++ (margin listing number ++ right.now)) }
{
    put_margin(text, listing, number)?;
    text.append(right.as_slice())
}

/// Adds a line.
pub(crate) fn put_line(
    text: &mut Text,
    listing: bool,
    number: Option<u32>,
    right: &Text,
    content: &[u8],
) -> Result<(), Memory>
    ensures added { OnOk result (text.new ≡ text.old ++ line listing number right.now content.now) }
{
    begin_line(text, listing, number, right)?;
    text.append(content)?;
    text.append(b"\n")
}

/// Two spaces more.
fn deeper(right: &Text) -> Result<Text, Memory>
    ensures is { IfOk result (λ more. more ≡ deeper right.now) }
{
    let mut more = right.clone()?;
    more.append(b"  ")?;
    Ok(more)
}

/// Adds the line of a simple statement.
fn put_action_line(
    text: &mut Text,
    listing: bool,
    number: Option<u32>,
    right: &Text,
    action: &Action,
) -> Result<(), Memory>
    ensures added { OnOk result (text.new ≡ text.old ++ line listing number right.now
        (action_text (action_of action.now) ++ codes ";")) }
{
    begin_line(text, listing, number, right)?;
    put_action(text, action)?;
    text.append(b";\n")
}

/// Adds the line of a call.
fn put_call_line(
    text: &mut Text,
    listing: bool,
    number: Option<u32>,
    right: &Text,
    call: &Call,
) -> Result<(), Memory>
    ensures added { let arguments = operands_of call.now.arguments in
        OnOk result (text.new ≡ text.old ++ line listing number right.now
        (call_text call.now.target call.now.callee arguments ++ codes ";")) }
{
    begin_line(text, listing, number, right)?;
    put_call(text, call)?;
    text.append(b";\n")
}

/// Adds the first line of an if or of a loop: its word with a bracket, the condition, and what opens the block.
fn put_test_line(
    text: &mut Text,
    listing: bool,
    number: Option<u32>,
    right: &Text,
    word: &[u8],
    test: &Cond,
) -> Result<(), Memory>
    ensures added { OnOk result (text.new ≡ text.old ++ line listing number right.now
        (word.now ++ condition_text test.now ++ codes ") {")) }
{
    begin_line(text, listing, number, right)?;
    text.append(word)?;
    put_cond(text, test)?;
    text.append(b") {\n")
}

/// Adds a statement, its lines so far to the right.
#[cycle(put_stmt)]
pub(crate) fn put_stmt(
    text: &mut Text,
    listing: bool,
    right: &Text,
    stmt: &Stmt,
) -> Result<(), Memory>
    ensures added { OnOk result (text.new ≡ text.old ++ statement_text listing right.now stmt.now) }
{
    let number = Some(stmt.id().number());
    match stmt.node() {
        StmtNode::Simple(action) => put_action_line(text, listing, number, right, action),
        StmtNode::Break => put_line(text, listing, number, right, b"break;"),
        StmtNode::Call(call) => put_call_line(text, listing, number, right, call),
        StmtNode::If(test, then, otherwise) => {
            put_test_line(text, listing, number, right, b"if (", test)?;
            put_inner(text, listing, right, then)?;
            put_else(text, listing, right, otherwise)
        }
        StmtNode::While(test, body) => {
            put_test_line(text, listing, number, right, b"while (", test)?;
            put_inner(text, listing, right, body)?;
            put_line(text, listing, None, right, b"}")
        }
    }
}

/// Adds a block of a statement that stands so far to the right: two spaces more.
#[cycle(put_stmt)]
fn put_inner(text: &mut Text, listing: bool, right: &Text, block: &Block) -> Result<(), Memory>
    ensures added { OnOk result (text.new ≡ text.old ++ block_text listing
        (deeper right.now) block.now) }
{
    let more = deeper(right)?;
    put_block(text, listing, &more, block)
}

fn is_empty(block: &Block) -> bool
    ensures is { result ≡ is_empty block.now }
{
    block.is_empty()
}

/// Adds the end of an if: an else that is not empty, and the last brace.
#[cycle(put_stmt)]
fn put_else(text: &mut Text, listing: bool, right: &Text, otherwise: &Block) -> Result<(), Memory>
    ensures added { OnOk result (text.new ≡ text.old ++ else_text listing right.now
        (is_empty otherwise.now) (block_text listing (deeper right.now) otherwise.now)) }
{
    if is_empty(otherwise) {
        return put_line(text, listing, None, right, b"}");
    }
    put_line(text, listing, None, right, b"} else {")?;
    put_inner(text, listing, right, otherwise)?;
    put_line(text, listing, None, right, b"}")
}

/// Adds the statements of a block, their lines so far to the right.
#[cycle(put_stmt)]
pub(crate) fn put_block(
    text: &mut Text,
    listing: bool,
    right: &Text,
    block: &Block,
) -> Result<(), Memory>
    ensures added { OnOk result (text.new ≡ text.old ++ block_text listing right.now block.now) }
{
    let stmts = block.as_slice();
    'each: for i in 0..stmts.len() {
        put_stmt(text, listing, right, &stmts[i])?;
    }
    Ok(())
}

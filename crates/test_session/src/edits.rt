//! Edits from texts.
ghost use Rattle.std.specs.Prelude.{◌≤◌, IfOk};
ghost use Rattle.std.specs.Bool.{OnTrue};
ghost use Rattle.imp_edit.specs.Edited.{Continues};
ghost use Rattle.test_session.specs.Singles.{IsSingle};

use crate::texts::bytes_of;
use imp_parse::parse_simple;
use imp_syntax::{Edit, Stmt, StmtId, StmtNode};
use std::alloc::Global;
use std::test::Fail;

/// Whether a statement is an action, with this number.
fn is_single(stmt: &Stmt, number: u32) -> bool
    ensures is { OnTrue result (IsSingle number stmt.now) }
{
    match stmt.node() {
        StmtNode::Simple(_) => stmt.id().number() == number,
        _ => false,
    }
}

/// The action of a text, with this number.
fn single(alloc: Global, text: &str, number: u32) -> Result<Stmt, Fail>
    requires low { number ≤ 1000001 }
    ensures is { IfOk result (IsSingle number) }
{
    let (stmt, _) = parse_simple(alloc, bytes_of(text)?, number)?;
    if is_single(&stmt, number) {
        Ok(stmt)
    } else {
        Err("no action".into())
    }
}

/// The edit that makes the action of a text, with this number, of a statement.
pub(crate) fn replacement(alloc: Global, stmt: u32, text: &str, number: u32) -> Result<Edit, Fail>
    requires low { number ≤ 1000001 }
    ensures continues { IfOk result (λ edit. Continues edit number) }
{
    let new = single(alloc, text, number)?;
    Ok(Edit::Replace(StmtId::new(stmt), new))
}

//! Trees with a change at one statement.
ghost use Rattle.std.specs.Prelude.{◌≡◌, ◌++◌, IfOk, OnOk};
ghost use Rattle.imp_syntax.specs.Plain.{statements_of};
ghost use Rattle.edit_entries.specs.Holes.{append, with_body};
ghost use Rattle.imp_edit.specs.Changes.{body_started, else_started, followed, guarded, in_block, in_program, in_statement, then_started};
ghost use Rattle.imp_edit.specs.Made.{made, made_at};

use base_values::{Items, Memory};
use imp_syntax::{Block, Cond, Edit, Place, Proc, Program, Stmt, StmtId, StmtNode};
use std::alloc::Global;

/// One block before another.
#[tactic(auto, using(crate::proofs::TreeLemmas::in_front))]
pub(crate) fn in_front(alloc: Global, more: &Block, block: &Block) -> Result<Block, Memory>
    ensures is { IfOk result (λ b. b ≡ append more.now block.now) }
{
    block.with_inserted(alloc, 0, more)
}

/// The program with what the edit makes of the statement of this number. It makes each block anew, in time linear in
/// the program.
pub(crate) fn in_program(
    alloc: Global,
    stmt: StmtId,
    edit: &Edit,
    procs: &[Proc],
) -> Result<Program, Memory>
    ensures is { IfOk result (λ p. p ≡ in_program stmt (made edit.now) procs.now) }
{
    let mut all = Items::new(alloc);
    for proc in procs {
        all.push(in_procedure(alloc, stmt, edit, proc)?)?;
    }
    Program::new(alloc, all)
}

fn in_procedure(alloc: Global, stmt: StmtId, edit: &Edit, proc: &Proc) -> Result<Proc, Memory>
    ensures is { IfOk result (λ p. p ≡ with_body proc.now
        (in_block stmt (made edit.now) proc.now.body)) }
{
    let body = in_block(alloc, stmt, edit, proc.body())?;
    proc.with_body(body)
}

/// The block with what the edit makes of the statement of this number.
#[cycle(changed)]
#[tactic(auto, using(imp_syntax::specs::Blocks::member_smaller, crate::proofs::TreeLemmas::met_whole, crate::proofs::TreeLemmas::passed, crate::proofs::TreeLemmas::left_whole))]
fn in_block(alloc: Global, id: StmtId, edit: &Edit, block: &Block) -> Result<Block, Memory>
    ensures is { IfOk result (λ b. b ≡ in_block id (made edit.now) block.now) }
{
    let stmts = block.as_slice();
    let mut all = Items::new(alloc);
    for (i, stmt) in stmts.iter().enumerate() {
        if stmt.id().number() == id.number() {
            made(alloc, edit, stmt, &mut all)?;
            add_all(&stmts[i + 1..], &mut all)?;
            return Block::new(alloc, all);
        }
        all.push(in_statement(alloc, id, edit, stmt)?)?;
    }
    Block::new(alloc, all)
}

/// The statement with what the edit makes of the statement of this number inside it.
#[cycle(changed)]
fn in_statement(alloc: Global, id: StmtId, edit: &Edit, stmt: &Stmt) -> Result<Stmt, Memory>
    ensures is { IfOk result (λ s. s ≡ in_statement id (made edit.now) stmt.now) }
{
    match stmt.node() {
        StmtNode::If(cond, then, els) => {
            let then = in_block(alloc, id, edit, then)?;
            let els = in_block(alloc, id, edit, els)?;
            let node = StmtNode::If(cond.clone()?, then, els);
            Stmt::new(alloc, stmt.id(), node)
        }
        StmtNode::While(cond, body) => {
            let body = in_block(alloc, id, edit, body)?;
            let node = StmtNode::While(cond.clone()?, body);
            Stmt::new(alloc, stmt.id(), node)
        }
        StmtNode::Simple(_) | StmtNode::Break | StmtNode::Call(_) => Ok(stmt.clone()?),
    }
}

/// What the statement of an edit becomes.
fn made(alloc: Global, edit: &Edit, stmt: &Stmt, all: &mut Items<Stmt>) -> Result<(), Memory>
    ensures added { OnOk result (all.new ≡ all.old ++ statements_of (made edit.now stmt.now)) }
{
    match edit {
        Edit::Replace(_, other) => all.push(other.clone()?),
        Edit::Insert(place, more) => made_at(alloc, place, more, stmt, all),
        Edit::Delete(_) => Ok(()),
        Edit::Guard(_, cond) => guarded(alloc, cond, stmt, all),
        Edit::Declare(_, _) => all.push(stmt.clone()?),
        Edit::AddProc { before: _, proc: _ } => all.push(stmt.clone()?),
        Edit::DropProc(_) => all.push(stmt.clone()?),
    }
}

/// What the statement at a place becomes.
fn made_at(
    alloc: Global,
    place: &Place,
    more: &Block,
    stmt: &Stmt,
    all: &mut Items<Stmt>,
) -> Result<(), Memory>
    ensures added { OnOk result (all.new ≡ all.old ++ statements_of
        (made_at place.now more.now stmt.now)) }
{
    match place {
        Place::After(_) => followed(more, stmt, all),
        Place::ThenStart(_) => then_started(alloc, more, stmt, all),
        Place::ElseStart(_) => else_started(alloc, more, stmt, all),
        Place::BodyStart(_) => body_started(alloc, more, stmt, all),
        Place::ProcStart(_) => all.push(stmt.clone()?),
    }
}

/// Adds copies of statements.
fn add_all(stmts: &[Stmt], all: &mut Items<Stmt>) -> Result<(), Memory>
    ensures added { OnOk result (all.new ≡ all.old ++ stmts.now) }
{
    for stmt in stmts {
        all.push(stmt.clone()?)?;
    }
    Ok(())
}

/// A statement with others after it.
fn followed(more: &Block, stmt: &Stmt, all: &mut Items<Stmt>) -> Result<(), Memory>
    ensures added { OnOk result (all.new ≡ all.old ++ statements_of (followed more.now stmt.now)) }
{
    all.push(stmt.clone()?)?;
    add_all(more.as_slice(), all)
}

/// An if with these statements before its first block.
fn then_started(
    alloc: Global,
    more: &Block,
    stmt: &Stmt,
    all: &mut Items<Stmt>,
) -> Result<(), Memory>
    ensures added { OnOk result (all.new ≡ all.old ++ statements_of
        (then_started more.now stmt.now)) }
{
    match stmt.node() {
        StmtNode::If(_, then, _) => {
            let then = in_front(alloc, more, then)?;
            all.push(stmt.with_then(alloc, then)?)
        }
        _ => all.push(stmt.clone()?),
    }
}

/// An if with these statements before its second block.
fn else_started(
    alloc: Global,
    more: &Block,
    stmt: &Stmt,
    all: &mut Items<Stmt>,
) -> Result<(), Memory>
    ensures added { OnOk result (all.new ≡ all.old ++ statements_of
        (else_started more.now stmt.now)) }
{
    match stmt.node() {
        StmtNode::If(_, _, els) => {
            let els = in_front(alloc, more, els)?;
            all.push(stmt.with_else(alloc, els)?)
        }
        _ => all.push(stmt.clone()?),
    }
}

/// A while with these statements before its body.
fn body_started(
    alloc: Global,
    more: &Block,
    stmt: &Stmt,
    all: &mut Items<Stmt>,
) -> Result<(), Memory>
    ensures added { OnOk result (all.new ≡ all.old ++ statements_of
        (body_started more.now stmt.now)) }
{
    match stmt.node() {
        StmtNode::While(_, body) => {
            let body = in_front(alloc, more, body)?;
            all.push(stmt.with_body(alloc, body)?)
        }
        _ => all.push(stmt.clone()?),
    }
}

/// An if or while with this condition.
#[tactic(auto, using(crate::proofs::TreeLemmas::conditioned))]
fn guarded(alloc: Global, cond: &Cond, stmt: &Stmt, all: &mut Items<Stmt>) -> Result<(), Memory>
    ensures added { OnOk result (all.new ≡ all.old ++ statements_of (guarded cond.now stmt.now)) }
{
    all.push(stmt.with_condition(alloc, cond.clone()?)?)
}

//! How many statements stand in a program, and how deep.
ghost use Rattle.std.specs.Prelude.{◌≡◌, ◌-◌, ◌^◌, min};
ghost use Rattle.imp_check.specs.Programs.{statement_count, block_count, program_count, statement_nesting, nesting, deepest};

use imp_syntax::{Block, Proc, Stmt, StmtNode};

/// How many statements stand in the procedures, up to 2^32 - 1.
pub(crate) fn program_count(procs: &[Proc]) -> u32
    ensures is { result ≡ min (program_count procs.now) (2 ^ 32 - 1) }
{
    let mut total: u32 = 0;
    for proc in procs {
        total = total.saturating_add(block_count(proc.body()));
    }
    total
}

/// How many statements stand in a block, those inside them too, up to 2^32 - 1.
#[cycle(counts)]
#[tactic(auto, using(imp_syntax::specs::Blocks::member_smaller, imp_syntax::specs::Blocks::block_rest))]
pub fn block_count(block: &Block) -> u32
    ensures is { result ≡ min (block_count block.now) (2 ^ 32 - 1) }
{
    let mut total: u32 = 0;
    for stmt in block.as_slice() {
        total = total.saturating_add(statement_count(stmt));
    }
    total
}

/// How many statements a statement is, with those inside it, up to 2^32 - 1.
#[cycle(counts)]
pub fn statement_count(stmt: &Stmt) -> u32
    ensures is { result ≡ min (statement_count stmt.now) (2 ^ 32 - 1) }
{
    match stmt.node() {
        StmtNode::Simple(_) => 1,
        StmtNode::Break => 1,
        StmtNode::Call(_) => 1,
        StmtNode::If(_, then, els) => block_count(then)
            .saturating_add(block_count(els))
            .saturating_add(1),
        StmtNode::While(_, body) => block_count(body).saturating_add(1),
    }
}

/// The deepest nesting of a block in the procedures, up to 2^32 - 1.
pub(crate) fn deepest(procs: &[Proc]) -> u32
    ensures is { result ≡ min (deepest procs.now) (2 ^ 32 - 1) }
{
    let mut most: u32 = 0;
    for proc in procs {
        most = most.max(nesting(proc.body()));
    }
    most
}

/// How deep the blocks of a block are, up to 2^32 - 1.
#[cycle(nestings)]
#[tactic(auto, using(imp_syntax::specs::Blocks::member_smaller, imp_syntax::specs::Blocks::block_rest))]
pub fn nesting(block: &Block) -> u32
    ensures is { result ≡ min (nesting block.now) (2 ^ 32 - 1) }
{
    let mut most: u32 = 0;
    for stmt in block.as_slice() {
        most = most.max(statement_nesting(stmt));
    }
    most
}

#[cycle(nestings)]
fn statement_nesting(stmt: &Stmt) -> u32
    ensures is { result ≡ min (statement_nesting stmt.now) (2 ^ 32 - 1) }
{
    match stmt.node() {
        StmtNode::Simple(_) => 0,
        StmtNode::Break => 0,
        StmtNode::Call(_) => 0,
        StmtNode::If(_, then, els) => nesting(then).max(nesting(els)).saturating_add(1),
        StmtNode::While(_, body) => nesting(body).saturating_add(1),
    }
}

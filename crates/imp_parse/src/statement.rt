//! Reading statements and blocks, for `parsed`, `faulty` and `only` of `parse_stmts`.
ghost use Rattle.std.specs.Prelude.{◌≡◌, ◌+◌, ◌^◌, ◌<◌, ◌≤◌, length, IfOk};
ghost use Rattle.imp_syntax.specs.StmtViews.{statement_of};
ghost use Rattle.imp_parse.specs.Kinds.{kinds};
ghost use Rattle.imp_parse.specs.Parts.{composed_at, closed_block_at};
ghost use Rattle.imp_parse.specs.Judged.{Gives};
ghost use Rattle.imp_parse.specs.Lists.{begun};
ghost use Rattle.imp_parse.specs.Reader.{fix};
ghost use Rattle.imp_parse.specs.StatementReading.{begins_statement, statements_step, statements_at, numbered_at, if_by, while_by, block_by, else_by, statement_by};

use crate::condition::condition;
use crate::error::Stopped;
use crate::marks::{front, mark};
use crate::simple::simple;
use base_values::Items;
use imp_lex::{Mark, Token, TokenKind, Word};
use imp_syntax::{Block, Stmt, StmtId, StmtNode};
use std::alloc::Global;

/// Whether a statement begins with the first token.
fn begins_statement(tokens: &[Token]) -> bool
    ensures is { result ≡ begun begins_statement (kinds tokens.now) }
{
    match front(tokens) {
        None => false,
        Some((kind, _)) => begins(kind),
    }
}

fn begins(kind: &TokenKind) -> bool
    ensures is { result ≡ begins_statement kind.now }
{
    match kind {
        TokenKind::Name(_) => true,
        TokenKind::Word(Word::Skip) => true,
        TokenKind::Word(Word::Break) => true,
        TokenKind::Word(Word::Assert) => true,
        TokenKind::Word(Word::Call) => true,
        TokenKind::Word(Word::If) => true,
        TokenKind::Word(Word::While) => true,
        _ => false,
    }
}

/// A simple statement of this number, the next number, and the tokens after it.
pub(crate) fn numbered(
    alloc: Global,
    number: u32,
    tokens: &[Token],
) -> Result<(Stmt, u32, &[Token]), Stopped>
    requires room { number + length tokens.now < 2 ^ 32 }
    ensures read { Gives (λ x. ((x.0, x.1), kinds x.2.now)) result
        (numbered_at number (kinds tokens.now)) }
    ensures shorter { IfOk result (λ x. length x.2.now < length tokens.now) }
    ensures numbers { IfOk result (λ x. x.1 + length x.2.now ≤ number + length tokens.now) }
{
    let (stmt, rest) = simple(alloc, number, tokens)?;
    Ok((stmt, number + 1, rest))
}

/// The statement of this number and outermost part, the next number, and the tokens after it.
fn composed(
    alloc: Global,
    number: u32,
    node: StmtNode,
    next: u32,
    rest: &[Token],
) -> Result<(Stmt, u32, &[Token]), Stopped>
    ensures read { Gives (λ x. ((x.0, x.1), kinds x.2.now)) result
        (composed_at (statement_of number node) next (kinds rest.now)) }
    ensures shorter { IfOk result (λ x. length x.2.now ≤ length rest.now) }
    ensures numbers { IfOk result (λ x. x.1 + length x.2.now ≤ next + length rest.now) }
{
    let stmt = Stmt::new(alloc, StmtId::new(number), node)?;
    Ok((stmt, next, rest))
}

/// The block of these statements, which a brace closes, the next number, and the tokens after it.
fn closed_block(
    alloc: Global,
    stmts: Items<Stmt>,
    next: u32,
    tokens: &[Token],
) -> Result<(Block, u32, &[Token]), Stopped>
    ensures read { Gives (λ x. ((x.0, x.1), kinds x.2.now)) result
        (closed_block_at stmts next (kinds tokens.now)) }
    ensures shorter { IfOk result (λ x. length x.2.now < length tokens.now) }
    ensures numbers { IfOk result (λ x. x.1 + length x.2.now < next + length tokens.now) }
{
    let rest = mark(Mark::CloseBrace, tokens)?;
    let block = Block::new(alloc, stmts)?;
    Ok((block, next, rest))
}

/// A statement from this number, the next number, and the tokens after it.
#[cycle(statement)]
#[tactic(auto, unfolding(crate::specs::StatementReading::statement_by))]
fn statement(alloc: Global, number: u32, tokens: &[Token]) -> Result<(Stmt, u32, &[Token]), Stopped>
    requires room { number + length tokens.now < 2 ^ 32 }
    ensures read { Gives (λ x. ((x.0, x.1), kinds x.2.now)) result
        (statement_by (fix statements_step) number (kinds tokens.now)) }
    ensures shorter { IfOk result (λ x. length x.2.now < length tokens.now) }
    ensures numbers { IfOk result (λ x. x.1 + length x.2.now ≤ number + length tokens.now) }
{
    match front(tokens) {
        Some((TokenKind::Word(Word::If), rest)) => if_stmt(alloc, number, rest),
        Some((TokenKind::Word(Word::While), rest)) => while_stmt(alloc, number, rest),
        _ => numbered(alloc, number, tokens),
    }
}

/// An if, after its word.
#[cycle(statement)]
fn if_stmt(alloc: Global, number: u32, tokens: &[Token]) -> Result<(Stmt, u32, &[Token]), Stopped>
    requires room { number + length tokens.now + 1 < 2 ^ 32 }
    ensures read { Gives (λ x. ((x.0, x.1), kinds x.2.now)) result
        (if_by (fix statements_step) number (kinds tokens.now)) }
    ensures shorter { IfOk result (λ x. length x.2.now < length tokens.now) }
    ensures numbers { IfOk result (λ x. x.1 + length x.2.now ≤ number + length tokens.now) }
{
    let rest = mark(Mark::OpenParenthesis, tokens)?;
    let (test, rest) = condition(alloc, rest)?;
    let rest = mark(Mark::CloseParenthesis, rest)?;
    let (then, next, rest) = block(alloc, number + 1, rest)?;
    let (otherwise, next, rest) = else_block(alloc, next, rest)?;
    let node = StmtNode::If(test, then, otherwise);
    composed(alloc, number, node, next, rest)
}

/// A while, after its word.
#[cycle(statement)]
fn while_stmt(
    alloc: Global,
    number: u32,
    tokens: &[Token],
) -> Result<(Stmt, u32, &[Token]), Stopped>
    requires room { number + length tokens.now + 1 < 2 ^ 32 }
    ensures read { Gives (λ x. ((x.0, x.1), kinds x.2.now)) result
        (while_by (fix statements_step) number (kinds tokens.now)) }
    ensures shorter { IfOk result (λ x. length x.2.now < length tokens.now) }
    ensures numbers { IfOk result (λ x. x.1 + length x.2.now ≤ number + length tokens.now) }
{
    let rest = mark(Mark::OpenParenthesis, tokens)?;
    let (test, rest) = condition(alloc, rest)?;
    let rest = mark(Mark::CloseParenthesis, rest)?;
    let (body, next, rest) = block(alloc, number + 1, rest)?;
    let node = StmtNode::While(test, body);
    composed(alloc, number, node, next, rest)
}

/// A block whose statements are numbered from here, the next number, and the tokens after it.
#[cycle(statement)]
fn block(alloc: Global, number: u32, tokens: &[Token]) -> Result<(Block, u32, &[Token]), Stopped>
    requires room { number + length tokens.now < 2 ^ 32 }
    ensures read { Gives (λ x. ((x.0, x.1), kinds x.2.now)) result
        (block_by (fix statements_step) number (kinds tokens.now)) }
    ensures shorter { IfOk result (λ x. length x.2.now < length tokens.now) }
    ensures numbers { IfOk result (λ x. x.1 + length x.2.now ≤ number + length tokens.now) }
{
    let rest = mark(Mark::OpenBrace, tokens)?;
    let (stmts, next, rest) = statements(alloc, number, rest)?;
    closed_block(alloc, stmts, next, rest)
}

/// `else` and a block, or the empty block where no `else` stands.
#[cycle(statement)]
fn else_block(
    alloc: Global,
    number: u32,
    tokens: &[Token],
) -> Result<(Block, u32, &[Token]), Stopped>
    requires room { number + length tokens.now < 2 ^ 32 }
    ensures read { Gives (λ x. ((x.0, x.1), kinds x.2.now)) result
        (else_by (fix statements_step) number (kinds tokens.now)) }
    ensures shorter { IfOk result (λ x. length x.2.now ≤ length tokens.now) }
    ensures numbers { IfOk result (λ x. x.1 + length x.2.now ≤ number + length tokens.now) }
{
    match front(tokens) {
        Some((TokenKind::Word(Word::Else), rest)) => block(alloc, number, rest),
        _ => Ok((Block::empty(), number, tokens)),
    }
}

/// Statements from this number, the next number, and the tokens after them.
#[cycle(statement)]
pub(crate) fn statements(
    alloc: Global,
    number: u32,
    tokens: &[Token],
) -> Result<(Items<Stmt>, u32, &[Token]), Stopped>
    requires room { number + length tokens.now < 2 ^ 32 }
    ensures read { Gives (λ x. ((x.0, x.1), kinds x.2.now)) result
        (statements_at number (kinds tokens.now)) }
    ensures shorter { IfOk result (λ x. length x.2.now ≤ length tokens.now) }
    ensures numbers { IfOk result (λ x. x.1 + length x.2.now ≤ number + length tokens.now) }
{
    let mut found = Items::new(alloc);
    let mut next = number;
    let mut rest = tokens;
    'each: while begins_statement(rest) {
        let (one, after, left) = statement(alloc, next, rest)?;
        found.push(one)?;
        next = after;
        rest = left;
    }
    Ok((found, next, rest))
}

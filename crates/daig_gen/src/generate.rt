//! The source and the script.
ghost use Rattle.std.specs.Prelude.{◌≡◌, ◌+◌, ◌++◌, ◌*◌, IfOk, OnOk, ◌≤◌, length};
ghost use Rattle.daig_gen.specs.Source.{text_of, state_after, piece, pieces, source_of};
ghost use Rattle.daig_gen.specs.Script.{turns, script_of};

use crate::draws::Draws;
use crate::pieces::{
    PieceKind, put_array, put_constant, put_difference, put_if, put_input, put_node, put_sum,
    put_while,
};
use crate::turns::put_turn;
use base_values::Memory;
use std::alloc::{AllocError, Global};

/// The declarations that each source begins with.
const HEAD: &[u8] =
    b"proc main() { var v0: int; var v1: int; var v2: int; var v3: int; var a: array; var p: list; var q: list; ";

/// The source of this seed, of `size` pieces. It has at most 64 bytes a piece, and 108 around them.
///
/// Fails only when memory runs out.
#[tactic(auto, using(crate::proofs::ShortSource::source_short))]
pub fn source(alloc: Global, seed: u64, size: u32) -> Result<Vec<u8>, Memory>
    ensures text { IfOk result (λ v. v.items ≡ source_of seed size) }
    ensures short { length (source_of seed size) ≤ 64 * size + 108 }
{
    source_text(alloc, seed, size)
}

/// Puts the source together.
#[tactic(auto, unfolding(crate::specs::Source::source_of, crate::specs::Source::head))]
fn source_text(alloc: Global, seed: u64, size: u32) -> Result<Vec<u8>, Memory>
    ensures text { IfOk result (λ v. v.items ≡ source_of seed size) }
{
    let mut draws = Draws::new(seed);
    let mut text = Vec::from_slice(alloc, HEAD)?;
    put_pieces(&mut text, &mut draws, size)?;
    text.extend_from_slice(b"}\n")?;
    Ok(text)
}

/// The script of this seed, of `size` turns, for the source of the same seed and size. It has at most 128 bytes a turn.
///
/// Fails only when memory runs out.
#[tactic(auto, using(crate::proofs::Short::script_short))]
pub fn script(alloc: Global, seed: u64, size: u32) -> Result<Vec<u8>, Memory>
    ensures text { IfOk result (λ v. v.items ≡ script_of seed size) }
    ensures short { length (script_of seed size) ≤ 128 * size }
{
    script_text(alloc, seed, size)
}

/// Puts the script together.
#[tactic(auto, unfolding(crate::specs::Script::script_of))]
fn script_text(alloc: Global, seed: u64, size: u32) -> Result<Vec<u8>, Memory>
    ensures text { IfOk result (λ v. v.items ≡ script_of seed size) }
{
    let mut draws = Draws::new(seed);
    let mut text = Vec::new(alloc);
    let statements = put_pieces(&mut text, &mut draws, size)?;
    let mut lines = Vec::new(alloc);
    put_turns(&mut lines, &mut draws, statements, size)?;
    Ok(lines)
}

/// Adds the next `size` pieces, and tells how many statements they have.
fn put_pieces(text: &mut Vec<u8>, draws: &mut Draws, size: u32) -> Result<u64, AllocError>
    ensures added { OnOk result (text.new.items ≡ text.old.items ++ (pieces size draws.old).bytes) }
    ensures count { IfOk result (λ n. n ≡ (pieces size draws.old).statements) }
    ensures state { OnOk result (draws.new ≡ (pieces size draws.old).state) }
    ensures enough { IfOk result (λ n. size ≤ n) }
{
    let mut statements = 0;
    for _ in 0..size {
        let count = put_piece(text, draws)?;
        statements += count;
    }
    Ok(statements)
}

/// Adds the next piece and a space, and tells how many statements it has.
#[tactic(auto, unfolding(crate::specs::Source::piece))]
fn put_piece(text: &mut Vec<u8>, draws: &mut Draws) -> Result<u64, AllocError>
    ensures added { OnOk result (text.new.items ≡ text.old.items ++ (piece draws.old).bytes) }
    ensures count { IfOk result (λ n. n ≡ (piece draws.old).statements) }
    ensures some { IfOk result (λ n. 1 ≤ n) }
    ensures few { IfOk result (λ n. n ≤ 3) }
    ensures state { OnOk result (draws.new ≡ (piece draws.old).state) }
{
    let kind = PieceKind::of(draws.pick(8));
    put_text(text, draws, kind)?;
    text.extend_from_slice(b" ")?;
    Ok(kind.statements())
}

/// Adds a piece of this kind.
fn put_text(text: &mut Vec<u8>, draws: &mut Draws, kind: PieceKind) -> Result<(), AllocError>
    ensures added { OnOk result (text.new.items ≡ text.old.items ++ text_of kind draws.old) }
    ensures state { OnOk result (draws.new ≡ state_after kind draws.old) }
{
    match kind {
        PieceKind::Constant => put_constant(text, draws.variable(), draws.constant()),
        PieceKind::Sum => put_sum(text, draws.variable(), draws.variable(), draws.constant()),
        PieceKind::Difference => {
            put_difference(text, draws.variable(), draws.variable(), draws.variable())
        }
        PieceKind::While => put_while(text, draws.variable(), draws.constant()),
        PieceKind::If => put_if(text, draws.variable(), draws.variable(), draws.constant()),
        PieceKind::Array => put_array(text, draws.constant()),
        PieceKind::Input => put_input(text, draws.variable()),
        PieceKind::Node => put_node(text),
    }
}

/// Adds the next `size` turns, about a program of so many statements.
fn put_turns(
    lines: &mut Vec<u8>,
    draws: &mut Draws,
    statements: u64,
    size: u32,
) -> Result<(), AllocError>
    requires { size ≤ statements }
    ensures added { OnOk result (lines.new.items ≡ lines.old.items
        ++ turns statements size draws.old) }
{
    for _ in 0..size {
        put_turn(lines, draws, statements)?;
    }
    Ok(())
}

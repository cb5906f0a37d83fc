//! Whether statement numbers are 1 or more, and each stands once.
ghost use Rattle.std.specs.Prelude.{◌≡◌, ◌++◌, ◌↔◌, true, IfOk, OnOk};
ghost use Rattle.imp_syntax.specs.Plain.{numbers_in, numbers, program_numbers};
ghost use Rattle.imp_check.specs.Programs.{AreNumbered, all_once};

use base_values::{Items, Memory};
use imp_syntax::{Block, Proc, Program, Stmt, StmtNode};
use std::alloc::Global;
use std::collections::HashSet;

/// Whether all statement numbers of a program are 1 or more, and each stands there once. It takes time linear in the
/// program, and fails only when memory runs out.
#[tactic(auto, using(crate::proofs::NumberLemmas::numbered))]
pub fn is_numbered(alloc: Global, program: &Program) -> Result<bool, Memory>
    ensures decides { IfOk result (λ answer. (answer ≡ true) ↔ AreNumbered program.now) }
{
    let mut all = Items::new(alloc);
    program_numbers(program.procs(), &mut all)?;
    all_once(alloc, all.as_slice())
}

#[tactic(auto, using(crate::proofs::NumberLemmas::program_step))]
fn program_numbers(procs: &[Proc], all: &mut Items<u32>) -> Result<(), Memory>
    ensures added { OnOk result (all.new ≡ all.old ++ program_numbers procs.now) }
{
    for proc in procs {
        numbers(proc.body(), all)?;
    }
    Ok(())
}

#[cycle(numbers)]
#[tactic(auto, using(imp_syntax::specs::Blocks::member_smaller, imp_syntax::specs::Blocks::block_rest))]
fn numbers(block: &Block, all: &mut Items<u32>) -> Result<(), Memory>
    ensures added { OnOk result (all.new ≡ all.old ++ numbers block.now) }
{
    for stmt in block.as_slice() {
        numbers_in(stmt, all)?;
    }
    Ok(())
}

#[cycle(numbers)]
fn numbers_in(stmt: &Stmt, all: &mut Items<u32>) -> Result<(), Memory>
    ensures added { OnOk result (all.new ≡ all.old ++ numbers_in stmt.now) }
{
    all.push(stmt.id().number())?;
    match stmt.node() {
        StmtNode::If(_, then, els) => {
            numbers(then, all)?;
            numbers(els, all)
        }
        StmtNode::While(_, body) => numbers(body, all),
        _ => Ok(()),
    }
}

/// Whether no number is 0, and none stands again.
#[tactic(auto, using(crate::proofs::NumberLemmas::once_step, crate::proofs::NumberLemmas::once_end, crate::proofs::NumberLemmas::has_step, crate::proofs::NumberLemmas::zero_fails, crate::proofs::NumberLemmas::again_fails))]
fn all_once(alloc: Global, numbers: &[u32]) -> Result<bool, Memory>
    ensures is { IfOk result (λ answer. answer ≡ all_once numbers.now) }
{
    let mut seen: HashSet<u32> = HashSet::new(alloc);
    for i in (0..numbers.len()).rev() {
        let number = numbers[i];
        if number == 0 {
            return Ok(false);
        }
        if !seen.insert(number)? {
            return Ok(false);
        }
    }
    Ok(true)
}

//! How many chains of calls there are, and how long they are.
ghost use Rattle.std.specs.Prelude.{◌≡◌, ◌<◌, ◌∷◌, length, map, IfOk};
ghost use Rattle.std.specs.Str.{bytes_eq};
ghost use Rattle.imp_check.specs.Chains.{calls_in, calls, chains_to, chains_through, all_chains};
ghost use Rattle.imp_check.specs.Tallies.{capped, tally_of, tally_sum, called, tallies_of};

use crate::names::same_name;
use base_values::{Memory, Text};
use imp_syntax::{Block, Proc, Stmt, StmtNode};
use std::alloc::Global;

/// How many chains, and how many calls are in the longest, each up to 2^32 - 1.
#[derive(Clone, Copy, Debug, PartialEq, Eq)]
pub(crate) struct ChainTally {
    pub(crate) count: u32,
    pub(crate) longest: u32,
}

impl ChainTally {
    #[tactic(auto, unfolding(crate::specs::Tallies::tally_sum))]
    fn added(self, other: ChainTally) -> ChainTally
        ensures is { result ≡ tally_sum self other }
    {
        ChainTally {
            count: self.count.saturating_add(other.count),
            longest: self.longest.max(other.longest),
        }
    }

    /// These chains, each with each of so many calls after it.
    #[tactic(auto, unfolding(crate::specs::Tallies::called))]
    fn called(self, calls: u32) -> ChainTally
        ensures is { result ≡ called self calls }
    {
        if self.count > 0 && calls > 0 {
            ChainTally {
                count: self.count.saturating_mul(calls),
                longest: self.longest.saturating_add(1),
            }
        } else {
            ChainTally {
                count: 0,
                longest: 0,
            }
        }
    }
}

/// How many calls of a procedure stand in a block, up to 2^32 - 1.
#[cycle(calls)]
#[tactic(auto, using(imp_syntax::specs::Blocks::member_smaller, imp_syntax::specs::Blocks::block_rest, crate::proofs::ChainLemmas::length_calls))]
fn calls(name: &Text, block: &Block) -> u32
    ensures is { result ≡ capped (length (calls name.now block.now)) }
{
    let mut total: u32 = 0;
    for stmt in block.as_slice() {
        total = total.saturating_add(calls_in(name, stmt));
    }
    total
}

#[cycle(calls)]
#[tactic(auto, using(crate::proofs::ChainLemmas::length_both))]
fn calls_in(name: &Text, stmt: &Stmt) -> u32
    ensures is { result ≡ capped (length (calls_in name.now stmt.now)) }
{
    match stmt.node() {
        StmtNode::Simple(_) => 0,
        StmtNode::Break => 0,
        StmtNode::Call(call) => u32::from(same_name(&call.callee, name)),
        StmtNode::If(_, then, els) => calls(name, then).saturating_add(calls(name, els)),
        StmtNode::While(_, body) => calls(name, body),
    }
}

/// The chains to a procedure through the later ones, of which the tallies are known.
#[tactic(auto, using(crate::proofs::ChainLemmas::tallies_length, crate::proofs::ChainLemmas::none_added))]
fn through(name: &Text, later: &[Proc], tallies: &[ChainTally]) -> ChainTally
    requires known { tallies.now ≡ tallies_of later.now }
    ensures is { result ≡ tally_of (chains_through name.now later.now) }
{
    let mut total = ChainTally {
        count: 0,
        longest: 0,
    };
    for (i, proc) in later.iter().enumerate() {
        total = total.added(tallies[i].called(calls(name, proc.body())));
    }
    total
}

/// The chains to a procedure, where the tallies of the later ones are known.
fn chains_to(name: &Text, later: &[Proc], tallies: &[ChainTally]) -> ChainTally
    requires known { tallies.now ≡ tallies_of later.now }
    ensures is { result ≡ tally_of (chains_to name.now later.now) }
{
    if later.is_empty() {
        ChainTally {
            count: 1,
            longest: 0,
        }
    } else {
        through(name, later, tallies)
    }
}

/// The chains to each procedure, the last one first.
#[tactic(auto, using(crate::proofs::ChainLemmas::tallies_before))]
fn tallies(alloc: Global, procs: &[Proc]) -> Result<Vec<ChainTally>, Memory>
    ensures is { IfOk result (λ tallies. tallies.items ≡ tallies_of procs.now) }
{
    let mut found: Vec<ChainTally> = Vec::new(alloc);
    for i in (0..procs.len()).rev() {
        let one = chains_to(procs[i].name(), &procs[i + 1..], found.as_slice());
        found.insert(0, one)?;
    }
    Ok(found)
}

/// All chains of a program.
#[tactic(auto, using(crate::proofs::ChainLemmas::all_end, crate::proofs::ChainLemmas::none_added, crate::proofs::ChainLemmas::added_none))]
pub(crate) fn all_chains(alloc: Global, procs: &[Proc]) -> Result<ChainTally, Memory>
    ensures is { IfOk result (λ tally. tally ≡ tally_of (all_chains procs.now)) }
{
    let mut total = ChainTally {
        count: 0,
        longest: 0,
    };
    let tallies = tallies(alloc, procs)?;
    for tally in &tallies {
        total = total.added(*tally);
    }
    Ok(total)
}

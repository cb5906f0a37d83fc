//! Sets of statements.
ghost use Rattle.std.specs.Prelude.{◌≡◌, ◌+◌, ◌*◌, ◌<◌, ◌≤◌, ◌^◌, [], length, All, Contains, ℕ, IfOk, OnOk};
ghost use Rattle.std.specs.Bool.{Decides};
ghost use Rattle.std.specs.BTreeSet.{insert_key};
ghost use Rattle.std.specs.Ordering.{nat_cmp};
ghost use Rattle.base_sets.specs.Bits.{numbers_below, numbers_in};
ghost use Rattle.base_sets.specs.Sets.{Puts, Strict};

use base_sets::NumberSet;
use base_values::{Items, Memory};
use imp_syntax::StmtId;
use std::alloc::Global;
use std::marker::Model;

/// Some statements, seen as the list of their numbers, rising.
#[derive(Drop)]
pub struct StatementSet {
    numbers: NumberSet,
}

impl Model for StatementSet {
    ghost use Rattle.std.specs.Prelude.{List, ℕ, All, ◌<◌, ◌^◌};

    ghost Value = { List ℕ };

    ghost view = { λ a. a.numbers };

    ghost invariant = { λ a. All (λ (n : ℕ). n < 2 ^ 32) a.numbers };
}

impl StatementSet {
    /// No statements. It takes no memory yet.
    #[inline]
    pub fn new(alloc: Global) -> StatementSet
        ensures empty { result ≡ [] }
    {
        StatementSet {
            numbers: NumberSet::new(alloc),
        }
    }

    /// Whether a statement is there.
    #[inline(always)]
    pub fn has(&self, number: u32) -> bool
        ensures there { Decides result (Contains self.now number) }
    {
        self.numbers.has(number as usize)
    }

    /// Puts a statement among the others.
    #[inline(always)]
    pub fn put(&mut self, number: u32) -> Result<(), Memory>
        ensures puts { OnOk result (Puts self.old self.new number) }
        ensures put { OnOk result (self.new ≡ insert_key nat_cmp self.old number) }
    {
        self.numbers.add(number as usize)
    }

    /// Their numbers rise, each once.
    pub fn numbers_rise(&self)
        ensures rise { Strict self.now }
    {
        self.numbers.numbers_rise();
    }

    /// The statements, their numbers rising. It takes a step more for each 64 numbers up to the greatest of them.
    pub(crate) fn rising(&self, alloc: Global) -> Result<Items<StmtId>, Memory>
        ensures are { IfOk result (λ stmts. stmts ≡ self.now) }
    {
        let words = self.numbers.words();
        let mut stmts = Vec::new(alloc);
        for place in 0..words.len() {
            push_word(words, place, &mut stmts)?;
        }
        Ok(Items::from_vec(stmts))
    }
}

/// Adds the statements of a word. A word that has all its bits set needs no test of each.
fn push_word(words: &[u64], place: usize, stmts: &mut Vec<StmtId>) -> Result<(), Memory>
    requires there { place < length words.now }
    requires few { length words.now ≤ 2 ^ 58 }
    requires small { All (λ (n : ℕ). n < 2 ^ 32) (numbers_in words.now) }
    requires below { stmts.old.items ≡ numbers_below words.now (64 * place) }
    ensures below { OnOk result (stmts.new.items ≡ numbers_below words.now (64 * (place + 1))) }
{
    let word = words[place];
    if word == 0 {
        return Ok(());
    }
    if word == u64::MAX {
        stmts.reserve(64)?;
        'all: for bit in 0..64usize {
            stmts.push_reserved(StmtId::new((64 * place + bit) as u32));
        }
        return Ok(());
    }
    'some: for bit in 0..64usize {
        if (word >> bit) & 1 == 1 {
            stmts.push(StmtId::new((64 * place + bit) as u32))?;
        }
    }
    Ok(())
}

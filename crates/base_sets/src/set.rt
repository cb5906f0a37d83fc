//! Sets of numbers.
ghost use Rattle.std.specs.Prelude.{◌≡◌, ◌+◌, ◌*◌, ◌/◌, ◌<◌, ◌≤◌, ◌^◌, [], length, Contains, OnOk, OnErr};
ghost use Rattle.std.specs.Bool.{Decides};
ghost use Rattle.std.specs.BTreeSet.{insert_key};
ghost use Rattle.std.specs.Ordering.{nat_cmp};
ghost use Rattle.base_sets.specs.Bits.{SameWords, numbers_in, with_bit};
ghost use Rattle.base_sets.specs.Sets.{Puts, Strict};

use base_values::Memory;
use std::alloc::{AllocError, Global};
use std::marker::Model;

/// Some numbers, seen as their list, rising.
#[derive(Drop)]
pub struct NumberSet {
    // bit k of word w is set where 64 w + k is one of the numbers
    words: Vec<u64>,
}

impl Model for NumberSet {
    ghost use Rattle.std.specs.Prelude.{List, ℕ, ◌≤◌, ◌^◌, length};
    ghost use Rattle.base_sets.specs.Bits.{numbers_in};

    ghost Value = { List ℕ };

    ghost view = { λ a. numbers_in a.words.items };

    ghost invariant = { λ a. length a.words.items ≤ 2 ^ 58 };
}

impl NumberSet {
    /// No numbers. It takes no memory yet.
    #[inline]
    pub fn new(alloc: Global) -> NumberSet
        ensures empty { result ≡ [] }
    {
        NumberSet {
            words: Vec::new(alloc),
        }
    }

    /// Whether a number is there.
    #[tactic(auto, using(crate::proofs::Bits::tests_bit, crate::proofs::Bits::past_bits))]
    #[inline(always)]
    pub fn has(&self, number: usize) -> bool
        ensures there { Decides result (Contains self.now number) }
    {
        let word = number / 64;
        if word < self.words.len() {
            (self.words[word] >> (number % 64)) & 1 == 1
        } else {
            false
        }
    }

    /// Puts a number among the others, at its place.
    #[inline(always)]
    pub fn add(&mut self, number: usize) -> Result<(), Memory>
        ensures puts { OnOk result (Puts self.old self.new number) }
        ensures inserts { OnOk result (self.new ≡ insert_key nat_cmp self.old number) }
        ensures err { OnErr result (self.new ≡ self.old) }
    {
        reserve(&mut self.words, number)?;
        set_bit(&mut self.words, number);
        Ok(())
    }

    /// The numbers rise, each once.
    pub fn numbers_rise(&self)
        ensures rise { Strict self.now }
    {
        let _words = &self.words;
    }

    /// The words of bits: bit k of word w is set where 64 w + k is one of the numbers.
    #[inline(always)]
    pub fn words(&self) -> &[u64]
        ensures few { length result.now ≤ 2 ^ 58 }
        ensures bits { numbers_in result.now ≡ self.now }
    {
        self.words.as_slice()
    }
}

/// A word for the bit of a number.
#[inline(always)]
fn reserve(words: &mut Vec<u64>, number: usize) -> Result<(), AllocError>
    requires few { length words.old.items ≤ 2 ^ 58 }
    ensures few { length words.new.items ≤ 2 ^ 58 }
    ensures word { OnOk result (number / 64 < length words.new.items) }
    ensures same { OnOk result (SameWords words.old.items words.new.items) }
    ensures err { OnErr result (words.new.items ≡ words.old.items) }
{
    if words.len() <= number / 64 {
        return grow(words, number);
    }
    Ok(())
}

/// More words, up to the one for the bit of a number.
#[tactic(auto, using(crate::proofs::Bits::same_words))]
#[cold]
#[inline(never)]
fn grow(words: &mut Vec<u64>, number: usize) -> Result<(), AllocError>
    requires past { length words.old.items ≤ number / 64 }
    ensures few { length words.old.items ≤ 2 ^ 58 → length words.new.items ≤ 2 ^ 58 }
    ensures word { OnOk result (number / 64 < length words.new.items) }
    ensures same { OnOk result (SameWords words.old.items words.new.items) }
    ensures err { OnErr result (words.new.items ≡ words.old.items) }
{
    let word = number / 64;
    words.resize(word + 1, 0)?;
    Ok(())
}

/// Sets the bit of a number.
#[inline(always)]
fn set_bit(words: &mut Vec<u64>, number: usize)
    requires word { number / 64 < length words.old.items }
    ensures sets { words.new.items ≡ with_bit words.old.items number }
{
    let word = number / 64;
    words[word] = words[word] | (1u64 << (number % 64));
}

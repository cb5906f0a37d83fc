//! Marks on numbers.
ghost use Rattle.std.specs.Prelude.{◌≡◌, ◌+◌, ◌/◌, ◌<◌, ℕ, IfOk, length, vec_len};
ghost use Rattle.std.specs.Bool.{Decides};
ghost use Rattle.cell_removal.specs.Marks.{HasMark, HasRoom, Puts, with_mark};

use base_values::Memory;
use std::alloc::Global;
use std::marker::Model;

/// Some numbers: a bit for each number up to the greatest of them.
#[derive(Drop)]
pub(crate) struct BitSet {
    words: Vec<u64>,
}

impl Model for BitSet {
    ghost use Rattle.std.specs.Prelude.{List, ℕ};

    ghost Value = { List ℕ };

    ghost view = { λ a. a.words.items };
}

impl BitSet {
    /// No number is marked, and there is room for those below this: a word for each 64 of them, and one more.
    #[tactic(auto, using(crate::proofs::Marking::none_marked, crate::proofs::Marking::room_below))]
    #[inline]
    pub(crate) fn with_room(alloc: Global, room: usize) -> Result<BitSet, Memory>
        ensures none { IfOk result (λ marks. (n : ℕ) → HasMark marks n → ⊥) }
        ensures room { IfOk result (λ marks. (n : ℕ) → n < room → HasRoom marks n) }
        ensures words { IfOk result (λ marks. length marks ≡ room / 64 + 1) }
    {
        let mut words = Vec::new(alloc);
        words.resize(room / 64 + 1, 0)?;
        Ok(BitSet { words })
    }

    /// Whether a number is marked.
    #[tactic(auto, using(crate::proofs::Marking::tests_mark, crate::proofs::Marking::past_marks))]
    #[inline]
    pub(crate) fn has(&self, number: usize) -> bool
        ensures marked { Decides result (HasMark self.now number) }
    {
        let word = number / 64;
        if word < self.words.len() {
            (self.words[word] >> (number % 64)) & 1 == 1
        } else {
            false
        }
    }

    /// Marks a number that there is room for.
    #[tactic(auto, using(crate::proofs::Marking::puts_bit))]
    #[inline]
    pub(crate) fn add(&mut self, number: usize)
        requires room { HasRoom self.old number }
        ensures puts { Puts self.old self.new number }
        ensures room { length self.new ≡ length self.old }
    {
        set_bit(&mut self.words, number);
    }
}

/// Sets the bit of a number.
#[inline]
fn set_bit(words: &mut Vec<u64>, number: usize)
    requires word { number / 64 < vec_len words.old }
    ensures sets { words.new.items ≡ with_mark words.old.items number }
{
    let word = number / 64;
    words[word] = words[word] | (1u64 << (number % 64));
}

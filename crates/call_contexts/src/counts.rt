//! In how many statements each number stands.
ghost use Rattle.std.specs.Prelude.{◌≡◌, ◌≤◌, ◌+◌, ◌-◌, ◌==◌, ℕ, [], IfOk, OnOk};
ghost use Rattle.std.specs.Bool.{OnTrue};
ghost use Rattle.std.specs.List.{All};
ghost use Rattle.std.specs.Map.{keys_of};
ghost use Rattle.base_values.specs.Numbers.{greatest};
ghost use Rattle.imp_chains.specs.Chains.{has};
ghost use Rattle.call_contexts.specs.Tallies.{one_if, occurs, rising, Tells, capped};

use base_values::{Items, Memory, Number};
use std::alloc::Global;
use std::collections::{BTreeMap, BTreeSet};
use std::marker::Model;

/// In how many statements each number stands, seen as the numbers that stand in some, rising, each with its count.
#[derive(Drop)]
pub(crate) struct Counts {
    counts: BTreeMap<u64, u32>,
}

impl Model for Counts {
    ghost use Rattle.std.specs.Prelude.{ℕ, List};
    ghost use Rattle.call_contexts.specs.Tallies.{tally_code};

    ghost Value = { List (ℕ × ℕ) };

    ghost coded = { tally_code };

    ghost view = { λ a. a.counts.entries };
}

/// These numbers, rising, each once.
#[tactic(auto, using(crate::proofs::Counted::rising_last, crate::proofs::Counted::rising_more))]
fn rising(alloc: Global, numbers: &[Number]) -> Result<Vec<u64>, Memory>
    ensures is { IfOk result (λ found. found.items ≡ rising numbers.now) }
{
    let mut found = BTreeSet::new(alloc);
    for i in (0..numbers.len()).rev() {
        found.insert(numbers[i].value())?;
    }
    Ok(found.into_iter().collect(alloc)?)
}

/// Values as numbers.
fn numbers_of(alloc: Global, values: &[u64]) -> Result<Items<Number>, Memory>
    requires small { All (λ (n : ℕ). n ≤ greatest) values.now }
    ensures are { IfOk result (λ numbers. numbers ≡ values.now) }
{
    let mut numbers = Items::with_capacity(alloc, values.len())?;
    for value in values {
        numbers.push(Number::new(*value))?;
    }
    Ok(numbers)
}

/// One more for a number.
fn add_one(counts: &mut BTreeMap<u64, u32>, number: u64) -> Result<(), Memory>
    ensures more { OnOk result ((f : ℕ → ℕ) → Tells counts.old.entries (λ n. capped (f n)) →
        Tells counts.new.entries (λ n. capped (f n + one_if (n == number)))) }
{
    match counts.get_mut(&number) {
        Some(count) => *count = count.saturating_add(1),
        None => {
            counts.insert(number, 1)?;
        }
    }
    Ok(())
}

/// One less for a number.
fn take_one(counts: &mut BTreeMap<u64, u32>, number: u64)
    ensures less { (f : ℕ → ℕ) → Tells counts.old.entries f →
        Tells counts.new.entries (λ n. f n - one_if (n == number)) }
{
    match counts.get_mut(&number) {
        Some(count) if *count > 1 => *count -= 1,
        _ => {
            counts.remove(&number);
        }
    }
}

/// One more for each of these numbers.
fn add_each(counts: &mut BTreeMap<u64, u32>, numbers: &[u64]) -> Result<(), Memory>
    ensures more { OnOk result ((f : ℕ → ℕ) → Tells counts.old.entries (λ n. capped (f n)) →
        Tells counts.new.entries (λ n. capped (f n + occurs n numbers.now))) }
{
    for item in numbers {
        add_one(counts, *item)?;
    }
    Ok(())
}

/// One less for each of these numbers.
fn take_each(counts: &mut BTreeMap<u64, u32>, numbers: &[u64])
    ensures less { (f : ℕ → ℕ) → Tells counts.old.entries f →
        Tells counts.new.entries (λ n. f n - occurs n numbers.now) }
{
    for item in numbers {
        take_one(counts, *item);
    }
}

impl Counts {
    /// No statements.
    pub(crate) fn new(alloc: Global) -> Counts
        ensures none { result ≡ [] }
    {
        Counts {
            counts: BTreeMap::new(alloc),
        }
    }

    /// One statement more, which has these numbers.
    pub(crate) fn add(&mut self, alloc: Global, numbers: &[Number]) -> Result<(), Memory>
        ensures more { OnOk result ((f : ℕ → ℕ) → Tells self.old (λ n. capped (f n)) →
            Tells self.new (λ n. capped (f n + one_if (has n numbers.now)))) }
    {
        match numbers {
            [] => {}
            [number] => add_one(&mut self.counts, number.value())?,
            _ => {
                let once = rising(alloc, numbers)?;
                add_each(&mut self.counts, once.as_slice())?;
            }
        }
        Ok(())
    }

    /// One statement less, which had these numbers.
    pub(crate) fn take(&mut self, alloc: Global, numbers: &[Number]) -> Result<(), Memory>
        ensures less { OnOk result ((f : ℕ → ℕ) → Tells self.old f →
            Tells self.new (λ n. f n - one_if (has n numbers.now))) }
    {
        match numbers {
            [] => {}
            [number] => take_one(&mut self.counts, number.value()),
            _ => {
                let once = rising(alloc, numbers)?;
                take_each(&mut self.counts, once.as_slice());
            }
        }
        Ok(())
    }

    /// A copy.
    pub(crate) fn copy(&self) -> Result<Counts, Memory>
        ensures same { IfOk result (λ copy. copy ≡ self.now) }
    {
        let counts = self.counts.clone()?;
        Ok(Counts { counts })
    }

    /// The numbers, rising.
    pub(crate) fn numbers(&self, alloc: Global) -> Result<Items<Number>, Memory>
        requires small { All (λ (n : ℕ). n ≤ greatest) (keys_of self.now) }
        ensures are { IfOk result (λ numbers. numbers ≡ keys_of self.now) }
    {
        let values: Vec<u64> = self.counts.keys().copied().collect(alloc)?;
        numbers_of(alloc, values.as_slice())
    }

    /// Whether these are of the same numbers.
    pub(crate) fn has_same_numbers(&self, other: &Counts) -> bool
        ensures same { OnTrue result (keys_of self.now ≡ keys_of other.now) }
    {
        self.counts.len() == other.counts.len() && self.counts.keys().eq(other.counts.keys())
    }
}

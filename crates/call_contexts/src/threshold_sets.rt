//! The thresholds of numbers.
ghost use Rattle.std.specs.Prelude.{◌≡◌, ◌++◌, IfOk, OnOk};
ghost use Rattle.std.specs.Ordering.{nat_cmp};
ghost use Rattle.std.specs.List.Sorted.{IsStrictlySortedBy};
ghost use Rattle.imp_chains.specs.Thresholds.{thresholds_of};
ghost use Rattle.call_contexts.specs.Mirrored.{above_one, negatives};

use base_values::{Items, Memory, Number};
use std::alloc::Global;

/// Adds the negatives of the numbers above 1, the last first.
#[tactic(auto, using(crate::proofs::Mirrored::negatives_last, crate::proofs::Mirrored::negatives_more))]
fn add_negatives(thresholds: &mut Items<i64>, numbers: &[Number]) -> Result<(), Memory>
    ensures added { OnOk result (thresholds.new ≡ thresholds.old ++ negatives numbers.now) }
{
    for i in (0..numbers.len()).rev() {
        let number = numbers[i].value();
        if number > 1 {
            thresholds.push(-(number as i64))?;
        }
    }
    Ok(())
}

/// Adds the numbers above 1, in their order.
fn add_numbers(thresholds: &mut Items<i64>, numbers: &[Number]) -> Result<(), Memory>
    ensures added { OnOk result (thresholds.new ≡ thresholds.old ++ above_one numbers.now) }
{
    for i in 0..numbers.len() {
        let number = numbers[i].value();
        if number > 1 {
            thresholds.push(number as i64)?;
        }
    }
    Ok(())
}

/// The thresholds of rising numbers, in time linear in them.
#[tactic(auto, using(crate::proofs::Mirrored::thresholds_mirrored))]
pub(crate) fn thresholds_of(alloc: Global, numbers: &[Number]) -> Result<Items<i64>, Memory>
    requires rise { IsStrictlySortedBy nat_cmp numbers.now }
    ensures are { IfOk result (λ thresholds. thresholds ≡ thresholds_of numbers.now) }
{
    let room = numbers.len().saturating_mul(2).saturating_add(3);
    let mut thresholds = Items::with_capacity(alloc, room)?;
    add_negatives(&mut thresholds, numbers)?;
    thresholds.push(-1)?;
    thresholds.push(0)?;
    thresholds.push(1)?;
    add_numbers(&mut thresholds, numbers)?;
    Ok(thresholds)
}

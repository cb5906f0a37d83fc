//! Thresholds, and whether they rise.
ghost use Rattle.std.specs.Prelude.{◌≡◌, ◌&&◌, int_le};
ghost use Rattle.num_thresholds.specs.Thresholds.{greatest_to, least_from, AreSeen};

use crate::nearest::{first_from, last_to, scanned_from, scanned_to};
use std::marker::Model;

/// Numbers at which widening stops, and whether it was seen that they rise.
#[derive(Drop)]
pub struct Thresholds<'a> {
    numbers: &'a [i64],
    rising: bool,
}

impl<'a> Model for Thresholds<'a> {
    ghost use Rattle.std.specs.Prelude.{ℤ, List};
    ghost use Rattle.num_thresholds.specs.Thresholds.{AreSeen};

    ghost Value = { List ℤ };

    ghost view = { λ a. a.numbers.now };

    ghost invariant = { λ a. AreSeen a.rising a.numbers.now };
}

/// Whether what rose up to a number still does with the next one.
fn is_still(rising: bool, last: i64, next: i64) -> bool
    ensures is { result ≡ (rising && int_le last next) }
{
    rising && last <= next
}

/// Whether numbers rise.
fn is_rising(numbers: &[i64]) -> bool
    ensures seen { AreSeen result numbers.now }
{
    let mut rising = true;
    let mut last = i64::MIN;
    for number in numbers {
        rising = is_still(rising, last, *number);
        last = *number;
    }
    rising
}

impl<'a> Thresholds<'a> {
    /// These numbers. It takes one pass over them.
    pub fn new(numbers: &'a [i64]) -> Thresholds<'a>
        ensures are { result ≡ numbers.now }
    {
        let rising = is_rising(numbers);
        Thresholds { numbers, rising }
    }

    /// The least of them that is not below a number, if there is one.
    pub fn least_from(&self, z: i64) -> Option<i64>
        ensures least { result ≡ least_from self.now z }
    {
        if self.rising {
            first_from(self.numbers, z)
        } else {
            scanned_from(self.numbers, z)
        }
    }

    /// The greatest of them that is not above a number, if there is one.
    pub fn greatest_to(&self, z: i64) -> Option<i64>
        ensures greatest { result ≡ greatest_to self.now z }
    {
        if self.rising {
            last_to(self.numbers, z)
        } else {
            scanned_to(self.numbers, z)
        }
    }

    /// Whether it was seen that they rise. Its contract tells too that each has 64 bits.
    #[inline]
    pub fn rise(&self) -> bool
        ensures seen { AreSeen result self.now }
    {
        self.rising
    }
}

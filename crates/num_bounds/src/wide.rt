//! Ranges before the cut to 64 bits.

ghost use Rattle.std.specs.Prelude.{◌≡◌, ◌^◌, ◌-◌, ℤ, pos, negsuc, ◌≤ℤ◌, ◌*ℤ◌};
ghost use Rattle.num_bounds.specs.Operations.{word, hull_of, single};

use crate::range::Range;
use std::marker::Model;

/// A range whose ends may need more than 64 bits.
#[derive(Clone, Copy)]
pub struct Wide {
    pub lo: i128,
    pub hi: i128,
}

impl Model for Wide {
    ghost use Rattle.num_bounds.specs.Bounds.{Bounds};

    ghost Value = { Bounds };

    ghost view = { λ w. record { lo = w.lo; hi = w.hi } };

    ghost inverse = { λ b. record { lo = b.lo; hi = b.hi } };
}

impl Wide {
    /// The range of one number.
    pub fn single(number: i128) -> Wide
        ensures only { result ≡ single number }
    {
        Wide {
            lo: number,
            hi: number,
        }
    }

    /// The least range that holds both.
    pub fn hull(self, other: Wide) -> Wide
        ensures hull { result ≡ hull_of self other }
    {
        Wide {
            lo: self.lo.min(other.lo),
            hi: self.hi.max(other.hi),
        }
    }

    /// What is left within 64 bits.
    pub fn word(self) -> Option<Range>
        ensures word { result ≡ word self }
    {
        let lo = self.lo.max(i64::MIN as i128);
        let hi = self.hi.min(i64::MAX as i128);
        if lo <= hi {
            Some(Range::from_ends(lo as i64, hi as i64))
        } else {
            None
        }
    }
}

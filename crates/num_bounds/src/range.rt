//! The ranges and their operations.

ghost use Rattle.std.specs.Prelude.{◌≡◌, ◌≢◌, ◌<◌, ◌≤◌, ◌^◌, pos, ◌*ℤ◌, ◌+ℤ◌, ◌-ℤ◌, ◌≤ℤ◌, int_div, IfSome};
ghost use Rattle.num_bounds.specs.Bounds.{IsRange};
ghost use Rattle.num_bounds.specs.Operations.{range_between, cut_of, word, word_if, hull_of, corners, sums, differences, negations, products, part_quotients, either_hull, quotients, below_zero, above_zero, magnitude, least_remainder, greatest_remainder, remainders};
ghost use Rattle.num_bounds.specs.Meaning.{CoversResults, CoversNegations, CoversQuotients, CoversRemainders, IsAllTaken, IsAllNegated, AreEndsTaken, HasNoZero, IsMeet, IsJoin, AreLattice};

use crate::wide::Wide;
use std::marker::Model;

/// The integers from `lo` to `hi`, both in it. There is always one.
#[derive(Clone, Copy, Debug, PartialEq, Eq, Hash)]
pub struct Range {
    lo: i64,
    hi: i64,
}

impl Model for Range {
    ghost use Rattle.std.specs.Prelude.{◌≤ℤ◌};
    ghost use Rattle.num_bounds.specs.Bounds.{Bounds};

    ghost Value = { Bounds };

    ghost view = { λ r. record { lo = r.lo; hi = r.hi } };

    ghost invariant = { λ r. r.lo ≤ℤ r.hi };

    ghost inverse = { λ b. record { lo = b.lo; hi = b.hi } };
}

impl Range {
    /// The range from `lo` to `hi`, or `None` where it would be empty.
    pub fn new(lo: i64, hi: i64) -> Option<Range>
        ensures exact { result ≡ range_between lo hi }
        ensures range { IfSome result IsRange }
    {
        if lo <= hi {
            Some(Range { lo, hi })
        } else {
            None
        }
    }

    /// The range from `lo` to `hi`, of which the caller knows that it is not empty.
    pub fn from_ends(lo: i64, hi: i64) -> Range
        requires ordered { lo ≤ℤ hi }
        ensures exact { result ≡ record { lo = lo; hi = hi } }
    {
        Range { lo, hi }
    }

    /// The least number of the range.
    pub fn lo(self) -> i64
        ensures least { result ≡ self.lo }
        ensures range { IsRange self }
    {
        let _high = self.hi;
        self.lo
    }

    /// The greatest number of the range.
    pub fn hi(self) -> i64
        ensures greatest { result ≡ self.hi }
        ensures range { IsRange self }
    {
        let _low = self.lo;
        self.hi
    }

    /// The sums of a number of each range.
    pub fn add(self, other: Range) -> Option<Range>
        ensures exact { result ≡ word (sums self other) }
        ensures sound { CoversResults ◌+ℤ◌ self other result }
        ensures best { IsAllTaken ◌+ℤ◌ self other result }
        ensures range { IfSome result IsRange }
    {
        Wide {
            lo: self.lo as i128 + other.lo as i128,
            hi: self.hi as i128 + other.hi as i128,
        }
        .word()
    }

    /// The differences: a number of this range less one of the other.
    pub fn sub(self, other: Range) -> Option<Range>
        ensures exact { result ≡ word (differences self other) }
        ensures sound { CoversResults ◌-ℤ◌ self other result }
        ensures best { IsAllTaken ◌-ℤ◌ self other result }
        ensures range { IfSome result IsRange }
    {
        Wide {
            lo: self.lo as i128 - other.hi as i128,
            hi: self.hi as i128 - other.lo as i128,
        }
        .word()
    }

    /// The numbers of the range with the other sign.
    pub fn neg(self) -> Option<Range>
        ensures exact { result ≡ word (negations self) }
        ensures sound { CoversNegations self result }
        ensures best { IsAllNegated self result }
        ensures range { IfSome result IsRange }
    {
        Wide {
            lo: -(self.hi as i128),
            hi: -(self.lo as i128),
        }
        .word()
    }

    /// The products of a number of each range.
    pub fn mul(self, other: Range) -> Option<Range>
        ensures exact { result ≡ word (products self other) }
        ensures sound { CoversResults ◌*ℤ◌ self other result }
        ensures best { AreEndsTaken self other }
        ensures range { IfSome result IsRange }
    {
        let of_lo = product(self.lo, other.lo).hull(product(self.lo, other.hi));
        let of_hi = product(self.hi, other.lo).hull(product(self.hi, other.hi));
        of_lo.hull(of_hi).word()
    }

    /// The quotients of a number of this range by one of the other that is not 0, rounded towards 0.
    pub fn quot(self, other: Range) -> Option<Range>
        ensures exact { result ≡ word_if (quotients self other) }
        ensures sound { CoversQuotients self other result }
        ensures range { IfSome result IsRange }
    {
        let below = part_quotients(self, other.below_zero());
        let above = part_quotients(self, other.above_zero());
        word_if(either_hull(below, above))
    }

    /// The remainders of a number of this range by one of the other that is not 0, each with the
    /// dividend's sign. This range may hold more numbers than are remainders.
    pub fn rem(self, other: Range) -> Option<Range>
        ensures exact { result ≡ remainders self other }
        ensures sound { CoversRemainders self other result }
        ensures range { IfSome result IsRange }
    {
        let divisor = other.magnitude();
        if divisor == 0 {
            return None;
        }
        let limit = self.magnitude().min(divisor - 1);
        Some(Range {
            lo: least_remainder(self.lo, limit),
            hi: greatest_remainder(self.hi, limit),
        })
    }

    /// The numbers of the range from `lo` to `hi`, or `None` where there is none.
    pub fn cut(self, lo: i64, hi: i64) -> Option<Range>
        ensures exact { result ≡ cut_of self lo hi }
        ensures meet { IsMeet self lo hi result }
        ensures range { IfSome result IsRange }
    {
        Range::new(self.lo.max(lo), self.hi.min(hi))
    }

    /// The least range that holds both. There always is one.
    pub fn hull(self, other: Range) -> Option<Range>
        ensures exact { result ≡ Some (hull_of self other) }
        ensures join { IfSome result (IsJoin self other) }
        ensures range { IfSome result IsRange }
    {
        Some(Range {
            lo: self.lo.min(other.lo),
            hi: self.hi.max(other.hi),
        })
    }

    /// A theorem, and no work: the hull of ranges is the same in any order and grouping, and the cut
    /// to another range's ends in any order; a cut of the hull gives either range back.
    pub fn lattice_laws(a: Range, b: Range, c: Range)
        ensures lattice { AreLattice a b c }
    {
        let _ends = (a.lo, b.lo, c.lo);
    }

    /// The part below 0.
    fn below_zero(self) -> Option<Range>
        ensures exact { result ≡ below_zero self }
        ensures no_zero { IfSome result HasNoZero }
    {
        Range::new(self.lo, self.hi.min(-1))
    }

    /// The part above 0.
    fn above_zero(self) -> Option<Range>
        ensures exact { result ≡ above_zero self }
        ensures no_zero { IfSome result HasNoZero }
    {
        Range::new(self.lo.max(1), self.hi)
    }

    /// The greatest distance from 0.
    fn magnitude(self) -> u64
        ensures exact { result ≡ magnitude self }
        ensures bound { result ≤ 2 ^ 63 }
    {
        self.lo.unsigned_abs().max(self.hi.unsigned_abs())
    }
}

fn product(x: i64, y: i64) -> Wide
    ensures exact { result ≡ record { lo = x *ℤ y; hi = x *ℤ y } }
{
    Wide::single(x as i128 * y as i128)
}

/// Rounded towards 0.
fn quotient(x: i64, y: i64) -> Wide
    requires { y ≢ pos 0 }
    ensures exact { result ≡ record { lo = int_div x y; hi = int_div x y } }
{
    Wide::single(x as i128 / y as i128)
}

/// The quotients by a part of the divisor's range that lies below or above 0.
fn corner_quotients(dividend: Range, part: Range) -> Wide
    requires { HasNoZero part }
    ensures exact { result ≡ corners int_div dividend part }
{
    let of_lo = quotient(dividend.lo, part.lo).hull(quotient(dividend.lo, part.hi));
    let of_hi = quotient(dividend.hi, part.lo).hull(quotient(dividend.hi, part.hi));
    of_lo.hull(of_hi)
}

/// The quotients by such a part, if it is there.
fn part_quotients(dividend: Range, part: Option<Range>) -> Option<Wide>
    requires { IfSome part HasNoZero }
    ensures exact { result ≡ part_quotients dividend part }
{
    match part {
        Some(part) => Some(corner_quotients(dividend, part)),
        None => None,
    }
}

/// The least range that holds those of the two that are there.
fn either_hull(a: Option<Wide>, b: Option<Wide>) -> Option<Wide>
    ensures exact { result ≡ either_hull a b }
{
    match (a, b) {
        (Some(a), Some(b)) => Some(a.hull(b)),
        (Some(a), None) => Some(a),
        (None, b) => b,
    }
}

/// The least remainder of dividends from `lo` on.
fn least_remainder(lo: i64, limit: u64) -> i64
    requires { limit < 2 ^ 63 }
    ensures exact { result ≡ least_remainder lo limit }
    ensures side { result ≤ℤ pos 0 }
{
    if lo < 0 { -(limit as i64) } else { 0 }
}

/// The greatest remainder of dividends up to `hi`.
fn greatest_remainder(hi: i64, limit: u64) -> i64
    requires { limit < 2 ^ 63 }
    ensures exact { result ≡ greatest_remainder hi limit }
    ensures side { pos 0 ≤ℤ result }
{
    if hi > 0 { limit as i64 } else { 0 }
}

/// What is left of a range within 64 bits, if the range is there.
fn word_if(range: Option<Wide>) -> Option<Range>
    ensures exact { result ≡ word_if range }
{
    match range {
        Some(range) => range.word(),
        None => None,
    }
}

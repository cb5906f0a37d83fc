//! Entries, which contracts see as their numbers.
ghost use Rattle.std.specs.Prelude.{◌≡◌, ◌*◌, ◌^◌, ◌+ℤ◌, ℤ, pos, neg_ℤ, int_lt};
ghost use Rattle.std.specs.Cmp.{partial_equiv_from_equiv};
ghost use Rattle.std.specs.Int.{int_div_euclid};
ghost use Rattle.dbm_narrow.specs.Widths.{HasRoom, IsBound, IsFirstFrom, IsNumber, cut_number, fed_number, int_equiv, same_int, start_at};

use crate::width::Width;
use std::alloc::AllocError;
use std::marker::Model;

/// An entry of a width: a bound, or none. Its value is the number.
#[derive(Copy)]
pub struct Entry<W: Width> {
    number: W,
}

impl<W: Width> Model for Entry<W> {
    ghost use Rattle.std.specs.Prelude.{ℤ};
    ghost use Rattle.dbm_narrow.specs.Widths.{same_of};

    ghost Value = { ℤ };

    ghost view = { λ a. W.value a.number };

    ghost inverse = { λ x. record { number = W.of x } };

    ghost inverse_ok = { λ a h. same_of (λ x. record { number = x }) (W.of_value a.number) };
}

impl<W: Width> Clone for Entry<W> {
    fn clone(&self) -> Result<Entry<W>, AllocError> {
        Ok(*self)
    }
}

/// Two entries are equal where their numbers are.
impl<W: Width> PartialEq for Entry<W> {
    ghost eq = { same_int };

    ghost laws = { partial_equiv_from_equiv int_equiv };

    #[inline]
    fn eq(&self, other: &Entry<W>) -> bool {
        !self.is_less(*other) && !other.is_less(*self)
    }
}

impl<W: Width> Eq for Entry<W> {
    ghost laws = { int_equiv };
}

impl<W: Width> Entry<W> {
    /// No bound.
    #[inline]
    pub fn none() -> Entry<W>
        ensures value { result ≡ pos (32 * W.unit) }
    {
        Entry { number: W::none() }
    }

    /// A sum of this or more is no bound.
    #[inline]
    pub fn free() -> Entry<W>
        ensures value { result ≡ pos (16 * W.unit) }
    {
        Entry { number: W::free() }
    }

    /// The greatest bound of a matrix.
    #[inline]
    pub fn greatest() -> Entry<W>
        ensures value { result ≡ pos (2 * W.unit) }
    {
        Entry {
            number: W::greatest(),
        }
    }

    /// The least bound of a matrix.
    #[inline]
    pub fn least() -> Entry<W>
        ensures value { result ≡ neg_ℤ (pos (2 * W.unit)) }
    {
        Entry { number: W::least() }
    }

    /// The number 0.
    #[inline]
    pub fn zero() -> Entry<W>
        ensures value { result ≡ pos 0 }
    {
        Entry { number: W::zero() }
    }

    /// The sum of two.
    #[inline]
    pub fn sum(self, other: Entry<W>) -> Entry<W>
        requires room { HasRoom W.unit (self +ℤ other) }
        ensures value { result ≡ self +ℤ other }
    {
        Entry {
            number: self.number.sum(other.number),
        }
    }

    /// The negative of a bound.
    #[inline]
    pub fn negative(self) -> Entry<W>
        requires bound { IsBound (2 * W.unit) self }
        ensures value { result ≡ neg_ℤ self }
    {
        Entry {
            number: self.number.negative(),
        }
    }

    /// Whether one is less than another.
    #[inline]
    pub fn is_less(self, other: Entry<W>) -> bool
        ensures less { result ≡ int_lt self other }
    {
        self.number.is_less(other.number)
    }

    /// Half of one, rounded down.
    #[inline]
    pub fn halved(self) -> Entry<W>
        ensures half { result ≡ int_div_euclid self (pos 2) }
    {
        Entry {
            number: self.number.halved(),
        }
    }

    /// The entry of a bound within the limits.
    #[inline]
    pub fn of(bound: i128) -> Entry<W>
        requires bound { IsBound (2 * W.unit) bound }
        ensures value { result ≡ bound }
    {
        Entry {
            number: W::of(bound),
        }
    }

    /// The number.
    #[inline]
    pub fn number(self) -> i128
        ensures value { result ≡ self }
    {
        self.number.number()
    }

    /// Half of the number, rounded down.
    #[inline]
    pub fn half_number(self) -> i128
        ensures half { result ≡ int_div_euclid self (pos 2) }
    {
        self.number.half_number()
    }

    /// The number of 64 bits that it feeds a hasher.
    #[inline]
    pub fn fed(self) -> i64
        requires entry { IsNumber W.unit self }
        ensures number { result ≡ fed_number W.unit self }
    {
        self.number.fed()
    }

    /// The least number of 64 bits that is not less than it, or than half of it where doubled: None where
    /// all are less.
    #[inline]
    pub fn start(self, doubled: bool) -> Option<i64>
        ensures start { IsFirstFrom (start_at doubled self) result }
    {
        self.number.start(doubled)
    }

    /// The entry as step 5 of closing leaves it: none from 2^64 on.
    #[inline]
    pub fn cut(self) -> Entry<W>
        ensures value { result ≡ cut_number W.unit self }
    {
        Entry {
            number: self.number.cut(),
        }
    }

    /// Whether it is below -2^64.
    #[inline]
    pub fn is_low(self) -> bool
        ensures low { result ≡ int_lt self (neg_ℤ (pos (2 ^ 64))) }
    {
        self.number.is_low()
    }
}

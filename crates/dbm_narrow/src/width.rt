//! Widths of entries: how many bytes one takes, and how large its bounds may be. There are two, `i32` and
//! `i128`.
ghost use Rattle.std.specs.Prelude.{◌≡◌, ◌<◌, ◌≤◌, ◌*◌, ◌^◌, ◌+ℤ◌, ℕ, ℤ, Bool, pos, neg_ℤ, int_lt, false, true, refl};
ghost use Rattle.std.specs.Int.{int_div_euclid};
ghost use Rattle.std.proofs.Math.Nat.{le-add_right, le_refl};
ghost use Rattle.std.proofs.lemmas.Nat.{pow_pos};
ghost use Rattle.dbm_narrow.specs.Widths.{HasRoom, IsBound, IsFirstFrom, IsLight, IsNumber, cut_number, fed_number, no_true, start_at};

/// A type of entries: each finite bound lies from `-2 * unit` to `2 * unit`, and `32 * unit` stands for
/// none.
pub trait Width: Copy + Drop {
    // The number.
    ghost value: { Self → ℤ };

    // The value of a number.
    ghost of: { ℤ → Self };

    // A value is that of its number.
    ghost of_value: { (x : Self) → of (value x) ≡ x };

    // Half of the greatest bound.
    ghost unit: { ℕ };

    // It is not 0.
    ghost positive: { 0 < unit };

    // Whether a bound may leave the limits on the way.
    ghost checked: { Bool };

    // Where none may, the limits are four times what 16 rounds make of 2^70.
    ghost roomy: { checked ≡ false → 2 ^ 103 ≤ unit };

    /// No bound.
    fn none() -> Self
        ensures value { value result ≡ pos (32 * unit) };

    /// A sum of this or more is no bound.
    fn free() -> Self
        ensures value { value result ≡ pos (16 * unit) };

    /// The greatest bound of a matrix.
    fn greatest() -> Self
        ensures value { value result ≡ pos (2 * unit) };

    /// The least bound of a matrix.
    fn least() -> Self
        ensures value { value result ≡ neg_ℤ (pos (2 * unit)) };

    /// The number 0.
    fn zero() -> Self
        ensures value { value result ≡ pos 0 };

    /// The sum of two.
    fn sum(self, other: Self) -> Self
        requires room { HasRoom unit (value self +ℤ value other) }
        ensures value { value result ≡ value self +ℤ value other };

    /// The negative of a bound.
    fn negative(self) -> Self
        requires bound { IsBound (2 * unit) (value self) }
        ensures value { value result ≡ neg_ℤ (value self) };

    /// Whether one is less than another.
    fn is_less(self, other: Self) -> bool
        ensures less { result ≡ int_lt (value self) (value other) };

    /// Half of one, rounded down.
    fn halved(self) -> Self
        ensures half { value result ≡ int_div_euclid (value self) (pos 2) };

    /// The value of a number within the limits.
    fn of(bound: i128) -> Self
        requires bound { IsBound (2 * unit) bound }
        ensures value { value result ≡ bound };

    /// The number.
    fn number(self) -> i128
        ensures value { result ≡ value self };

    /// Half of the number, rounded down.
    fn half_number(self) -> i128
        ensures half { result ≡ int_div_euclid (value self) (pos 2) };

    /// The number of 64 bits that an entry feeds a hasher: 2^29 for no bound, 0 for one that has more.
    fn fed(self) -> i64
        requires entry { IsNumber unit (value self) }
        ensures number { result ≡ fed_number unit (value self) };

    /// The least number of 64 bits that is not less than it, or than half of it where doubled: None where
    /// all are less.
    fn start(self, doubled: bool) -> Option<i64>
        ensures start { IsFirstFrom (start_at doubled (value self)) result };

    /// Whether a bound may leave the limits on the way, so that rounds look for one.
    fn is_checked() -> bool
        ensures value { result ≡ checked };

    /// The number as step 5 of closing leaves it: none from 2^64 on.
    fn cut(self) -> Self
        ensures value { value result ≡ cut_number unit (value self) };

    /// Whether it is below -2^64.
    fn is_low(self) -> bool
        ensures low { result ≡ int_lt (value self) (neg_ℤ (pos (2 ^ 64))) };

    // Arrays of numbers fit in memory.
    ghost light: { IsLight Self.row };
}

impl Width for i32 {
    ghost value = { λ x. x };

    ghost of = { λ x. x };

    ghost of_value = { λ x. refl };

    ghost unit = { 2 ^ 24 };

    ghost positive = { pow_pos 24 };

    ghost checked = { true };

    ghost roomy = { no_true };

    ghost light = { (le-add_right 4 12, le-add_right 4 12) };

    #[inline]
    fn none() -> i32 {
        536870912
    }

    #[inline]
    fn free() -> i32 {
        268435456
    }

    #[inline]
    fn greatest() -> i32 {
        33554432
    }

    #[inline]
    fn least() -> i32 {
        -33554432
    }

    #[inline]
    fn zero() -> i32 {
        0
    }

    #[inline]
    fn sum(self, other: i32) -> i32 {
        self + other
    }

    #[inline]
    fn negative(self) -> i32 {
        -self
    }

    #[inline]
    fn is_less(self, other: i32) -> bool {
        self < other
    }

    #[inline]
    fn halved(self) -> i32 {
        self.div_euclid(2)
    }

    #[inline]
    fn of(bound: i128) -> i32 {
        bound as i32
    }

    #[inline]
    fn number(self) -> i128 {
        i128::from(self)
    }

    #[inline]
    fn half_number(self) -> i128 {
        i128::from(self.div_euclid(2))
    }

    #[inline]
    fn fed(self) -> i64 {
        i64::from(self)
    }

    #[inline]
    fn start(self, doubled: bool) -> Option<i64> {
        let number = i64::from(self);
        if doubled {
            Some((number + 1).div_euclid(2))
        } else {
            Some(number)
        }
    }

    #[inline]
    fn is_checked() -> bool {
        true
    }

    // No number of 32 bits is cut.
    #[inline]
    fn cut(self) -> i32 {
        self
    }

    #[inline]
    fn is_low(self) -> bool {
        false
    }
}

impl Width for i128 {
    ghost value = { λ x. x };

    ghost of = { λ x. x };

    ghost of_value = { λ x. refl };

    ghost unit = { 2 ^ 103 };

    ghost positive = { pow_pos 103 };

    ghost checked = { false };

    ghost roomy = { λ e. le_refl (2 ^ 103) };

    ghost light = { (le_refl 16, le_refl 16) };

    #[inline]
    fn none() -> i128 {
        324518553658426726783156020576256
    }

    #[inline]
    fn free() -> i128 {
        162259276829213363391578010288128
    }

    #[inline]
    fn greatest() -> i128 {
        20282409603651670423947251286016
    }

    #[inline]
    fn least() -> i128 {
        -20282409603651670423947251286016
    }

    #[inline]
    fn zero() -> i128 {
        0
    }

    #[inline]
    fn sum(self, other: i128) -> i128 {
        self + other
    }

    #[inline]
    fn negative(self) -> i128 {
        -self
    }

    #[inline]
    fn is_less(self, other: i128) -> bool {
        self < other
    }

    #[inline]
    fn halved(self) -> i128 {
        self.div_euclid(2)
    }

    #[inline]
    fn of(bound: i128) -> i128 {
        bound
    }

    #[inline]
    fn number(self) -> i128 {
        self
    }

    #[inline]
    fn half_number(self) -> i128 {
        self.div_euclid(2)
    }

    #[inline]
    fn fed(self) -> i64 {
        if self >= 162259276829213363391578010288128 {
            536870912
        } else if self < -9223372036854775808 {
            0
        } else if self < 9223372036854775808 {
            self as i64
        } else {
            0
        }
    }

    #[inline]
    fn start(self, doubled: bool) -> Option<i64> {
        let least = if doubled {
            self.div_euclid(2) + self.rem_euclid(2)
        } else {
            self
        };
        if least < -9223372036854775808 {
            Some(-9223372036854775808)
        } else if least < 9223372036854775808 {
            Some(least as i64)
        } else {
            None
        }
    }

    // 16 rounds make 2^102 of 2^70, and the limit is 2^104.
    #[inline]
    fn is_checked() -> bool {
        false
    }

    #[inline]
    fn cut(self) -> i128 {
        if self < 18446744073709551616 {
            self
        } else {
            324518553658426726783156020576256
        }
    }

    #[inline]
    fn is_low(self) -> bool {
        self < -18446744073709551616
    }
}

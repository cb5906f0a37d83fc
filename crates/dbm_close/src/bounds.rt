//! Sums and halves of bounds.
ghost use Rattle.std.specs.Prelude.{◌≡◌, ◌-◌, ◌^◌, negsuc, pos, neg_ℤ, Some};
ghost use Rattle.std.specs.Bool.{MatchBool};
ghost use Rattle.dbm_close.specs.Steps.{cut, half};
ghost use Rattle.dbm_core.specs.Limits.{IsWithin};
ghost use Rattle.dbm_core.specs.Weights.{AtMost, add_weight};

// An entry of this or more, 2^64, becomes none; one below its negative empties the matrix.
const CUT: i128 = 18446744073709551616;

/// The sum of two bounds.
pub fn plus(a: Option<i128>, b: Option<i128>) -> Option<i128>
    requires left { IsWithin (2 ^ 126 - 1) a }
    requires right { IsWithin (2 ^ 126 - 1) b }
    ensures sum { result ≡ add_weight a b }
{
    match (a, b) {
        (Some(x), Some(y)) => Some(x + y),
        _ => None,
    }
}

/// Whether a bound is below 0.
pub fn is_negative(a: Option<i128>) -> bool
    ensures negative { MatchBool result (AtMost a (Some (negsuc 0))) (AtMost (Some (pos 0)) a) }
{
    match a {
        Some(x) => x < 0,
        None => false,
    }
}

/// Half of a bound, rounded down.
pub fn half_bound(a: Option<i128>) -> Option<i128>
    ensures half { result ≡ half a }
{
    match a {
        Some(x) => Some(x.div_euclid(2)),
        None => None,
    }
}

/// Step 5, at one bound: 2^64 or more becomes none.
pub fn cut_bound(a: Option<i128>) -> Option<i128>
    ensures cut { result ≡ cut a }
{
    match a {
        Some(x) => if x < CUT { Some(x) } else { None },
        None => None,
    }
}

/// Whether a bound is below -2^64.
pub fn is_low_bound(a: Option<i128>) -> bool
    ensures low { MatchBool result (AtMost a (Some (negsuc (2 ^ 64))))
        (AtMost (Some (neg_ℤ (pos (2 ^ 64)))) a) }
{
    match a {
        Some(x) => x < -CUT,
        None => false,
    }
}

//! Bounds: an integer, or None for no bound, which is greater than all.
ghost use Rattle.std.specs.Prelude.{◌≡◌};
ghost use Rattle.dbm_core.specs.Weights.{greatest, least};

/// The smaller of two bounds, None being greater than all.
pub fn smaller(a: Option<i128>, b: Option<i128>) -> Option<i128>
    ensures least { result ≡ least a b }
{
    match (a, b) {
        (None, b) => b,
        (a, None) => a,
        (Some(x), Some(y)) => if y < x { Some(y) } else { Some(x) },
    }
}

/// The greater of two bounds, None being greater than all.
pub fn greater(a: Option<i128>, b: Option<i128>) -> Option<i128>
    ensures greatest { result ≡ greatest a b }
{
    match (a, b) {
        (Some(x), Some(y)) => if y < x { Some(x) } else { Some(y) },
        _ => None,
    }
}

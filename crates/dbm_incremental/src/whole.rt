//! Closed matrices that obey the triangle law, and closing what obeys it.
ghost use Rattle.std.specs.Prelude.{◌≡◌, ◌<◌, ◌^◌, true, length};
ghost use Rattle.std.specs.Bool.{MatchBool};
ghost use Rattle.dbm_close.specs.Close.{IsCloseOf};
ghost use Rattle.dbm_core.specs.Half.{entry, nodes};
ghost use Rattle.dbm_core.specs.Limits.{AreWithin, HasZeroDiagonal};
ghost use Rattle.dbm_incremental.specs.Answers.{IsClosedAnswer};
ghost use Rattle.dbm_incremental.specs.ClosedMatrices.{IsClosed, IsWhole};
ghost use Rattle.dbm_incremental.specs.Far.{HasFarEntry, HasNoFarEntry, IsBelowHalf, IsFar};

use dbm_close::{Closed, finish};
use dbm_core::Matrix;

/// Whether no entry is 2^63 or more. A closed matrix then obeys the triangle law: closing has cut no
/// entry that a walk still needs.
pub fn is_whole(m: &Matrix) -> bool
    ensures near { MatchBool result (HasNoFarEntry (nodes m.now) (entry m.now))
        (HasFarEntry (nodes m.now) (entry m.now)) }
    ensures whole { result ≡ true → IsClosed m.now → IsWhole m.now }
{
    let kept = m.kept();
    for bound in kept {
        if is_far(*bound) {
            return false;
        }
    }
    true
}

// Whether a bound is 2^63 or more.
fn is_far(a: Option<i128>) -> bool
    ensures far { MatchBool result (IsFar a) (IsBelowHalf a) }
{
    match a {
        Some(x) => x >= 9223372036854775808,
        None => false,
    }
}

/// Closes a matrix that obeys the triangle law: its entries are the least weights of its walks, so
/// this is one pass of tightening and strengthening.
pub fn close_whole(matrix: Matrix) -> Closed
    requires diagonal { HasZeroDiagonal (nodes matrix) (entry matrix) }
    requires whole { IsWhole matrix }
    requires within { AreWithin (nodes matrix) (2 ^ 102) (entry matrix) }
    ensures closed { IsCloseOf matrix result }
    ensures stays_closed { IsClosedAnswer result }
{
    let _kinds = matrix.kinds();
    finish(matrix)
}

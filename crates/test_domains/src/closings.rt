//! Matrices closed by hand.
ghost use Rattle.std.specs.Prelude.{◌≡◌, ◌^◌, IfOk, length};
ghost use Rattle.dbm_core.specs.Half.{entry, nodes};
ghost use Rattle.dbm_core.specs.Limits.{AreWithin, IsZeroAtMost};

use base_values::Memory;
use dbm_close::*;
use dbm_core::Matrix;
use std::alloc::Global;
use std::test::Fail;

const LIMIT: i128 = 1180591620717411303424;

// The matrix of two slots with these bounds, of those that it can have.
fn matrix_of(
    alloc: Global,
    kinds: [bool; 2],
    bounds: &[(usize, usize, i128)],
) -> Result<Matrix, Memory>
    ensures slots { IfOk result (λ m. length m.kinds ≡ 2) }
    ensures diagonal { IfOk result (λ m. IsZeroAtMost (nodes m) (entry m)) }
    ensures within { IfOk result (λ m. AreWithin (nodes m) (2 ^ 70) (entry m)) }
{
    let mut matrix = Matrix::new(alloc, &kinds)?;
    for (i, j, bound) in bounds {
        if *i < 4 && *j < 4 && -LIMIT <= *bound && *bound <= LIMIT {
            matrix.set_least(*i, *j, *bound);
        }
    }
    Ok(matrix)
}

// The bound at a pair of the matrix of these bounds after closing; None where that is Empty.
fn closed_bound(
    alloc: Global,
    kinds: [bool; 2],
    bounds: &[(usize, usize, i128)],
    i: usize,
    j: usize,
) -> Result<Option<Option<i128>>, Memory> {
    match close(alloc, &matrix_of(alloc, kinds, bounds)?)? {
        Closed::Empty => Ok(None),
        Closed::Matrix(closed) => {
            let nodes = 2 * closed.kinds().len();
            if i < nodes && j < nodes {
                Ok(Some(closed.get(i, j)))
            } else {
                Ok(None)
            }
        }
    }
}

// Kinds, bounds, a pair, and the bound there after closing, or None for Empty.
type Case = (
    [bool; 2],
    [(usize, usize, i128); 2],
    usize,
    usize,
    Option<Option<i128>>,
);

const WORKED_BY_HAND: [Case; 13] = [
    // A negative cycle: x1 <= x0 - 1 and x0 <= x1.
    ([false, false], [(0, 2, -1), (2, 0, 0)], 0, 0, None),
    // 2 x0 is 1, which only tightening refuses.
    ([false, false], [(1, 0, 1), (0, 1, -1)], 0, 0, None),
    // 2 x0 <= 7 is tightened to 6.
    ([false, false], [(1, 0, 7), (3, 2, 4)], 1, 0, Some(Some(6))),
    // x0 <= 3 and x1 <= 2, so x0 + x1 <= 5.
    ([false, false], [(1, 0, 7), (3, 2, 4)], 1, 2, Some(Some(5))),
    // x0 <= 2 and x1 <= x0 + 3, so 2 x1 <= 10.
    ([false, false], [(1, 0, 4), (0, 2, 3)], 3, 2, Some(Some(10))),
    // x0 <= -1 is in order for an int, and not for a length.
    (
        [false, false],
        [(1, 0, -2), (1, 0, 9)],
        1,
        0,
        Some(Some(-2)),
    ),
    ([true, false], [(1, 0, -2), (1, 0, 9)], 1, 0, None),
    // A length of 1,000,000, and one of 1,000,001.
    (
        [true, false],
        [(0, 1, -2000000), (1, 0, 2000000)],
        0,
        1,
        Some(Some(-2000000)),
    ),
    (
        [true, false],
        [(0, 1, -2000002), (1, 0, 2000002)],
        0,
        1,
        None,
    ),
    // x1 - x0 <= 2^64 - 1 stays, and 2^64 becomes none.
    (
        [false, false],
        [(0, 2, 18446744073709551615), (0, 2, LIMIT)],
        0,
        2,
        Some(Some(18446744073709551615)),
    ),
    (
        [false, false],
        [(0, 2, 18446744073709551616), (0, 2, LIMIT)],
        0,
        2,
        Some(None),
    ),
    // x1 - x0 <= -2^64 stays, and below that nothing is left.
    (
        [false, false],
        [(0, 2, -18446744073709551616), (0, 2, 0)],
        0,
        2,
        Some(Some(-18446744073709551616)),
    ),
    (
        [false, false],
        [(0, 2, -18446744073709551617), (0, 2, 0)],
        0,
        2,
        None,
    ),
];

#[test]
fn closes_matrices_worked_by_hand(rt: HostRuntime) -> Result<(), Fail> {
    let alloc = rt.alloc();
    for (kinds, bounds, i, j, wanted) in &WORKED_BY_HAND {
        let closed = closed_bound(alloc, *kinds, bounds, *i, *j)?;
        assert_eq!(rt; closed, *wanted, "at {i}, {j} with {bounds:?}");
    }
    Ok(())
}

// 3 <= 2 x0 <= 7, so x0 is 2 or 3; slot 1 is a length without bounds.
#[test]
fn ranges_of_slots(rt: HostRuntime) -> Result<(), Fail> {
    let matrix = matrix_of(rt.alloc(), [false, true], &[(1, 0, 7), (0, 1, -3)])?;
    assert_eq!(rt; slot_range(&matrix, 0), (2, 3));
    assert_eq!(rt; slot_range(&matrix, 1), (0, 1000000));
    Ok(())
}

//! Matrices worked by hand: slot 0 is an int, slot 1 an array's length.
ghost use Rattle.std.specs.Prelude.{◌≡◌, [], ◌∷◌, true, false, IfOk};

use base_values::Memory;
use dbm_core::*;
use std::alloc::Global;
use std::process::Abort;
use std::test::Fail;

const KINDS: [bool; 2] = [false, true];

// Twice the int is at most 6, and the length less the int at most 3.
fn left(alloc: Global) -> Result<Matrix, Memory>
    ensures kinds { IfOk result (λ m. m.kinds ≡ false ∷ true ∷ []) }
{
    let mut left = Matrix::new(alloc, &KINDS)?;
    left.set_least(1, 0, 6);
    left.set_least(0, 2, 3);
    Ok(left)
}

// Twice the int is at most 8, and the length less the int at most 2.
fn right(alloc: Global) -> Result<Matrix, Memory>
    ensures kinds { IfOk result (λ m. m.kinds ≡ false ∷ true ∷ []) }
{
    let mut right = Matrix::new(alloc, &KINDS)?;
    right.set_least(1, 0, 8);
    right.set_least(3, 1, 2);
    Ok(right)
}

// The bound at a pair, None where there is no such pair.
fn bound_at(m: &Matrix, i: usize, j: usize) -> Option<i128> {
    let nodes = 2 * m.kinds().len();
    if i < nodes && j < nodes {
        m.get(i, j)
    } else {
        None
    }
}

// Asserts the bounds at these pairs.
fn expect_bounds(rt: &impl Abort, m: &Matrix, wanted: &[(usize, usize, Option<i128>); 5]) {
    for (i, j, bound) in wanted {
        assert_eq!(rt; bound_at(m, *i, *j), *bound, "at {i}, {j}");
    }
}

fn has_kinds(m: &Matrix) -> bool {
    m.kinds() == KINDS.as_slice()
}

#[test]
fn copies(rt: HostRuntime) -> Result<(), Fail> {
    let alloc = rt.alloc();
    let mut matrix = Matrix::new(alloc, &KINDS)?;
    let copy = matrix.copy(alloc)?;
    assert!(rt; has_kinds(&matrix) && has_kinds(&copy));
    assert!(rt; matrix == copy);
    matrix.set_least(1, 0, 6);
    assert!(rt; matrix != copy);
    Ok(())
}

#[test]
fn bounds_keep_kinds(rt: HostRuntime) -> Result<(), Fail> {
    let left = left(rt.alloc())?;
    let right = right(rt.alloc())?;
    assert!(rt; left != right);
    assert!(rt; has_kinds(&left) && has_kinds(&right));
    Ok(())
}

const JOINED: [(usize, usize, Option<i128>); 5] = [
    (0, 0, Some(0)),
    (1, 0, Some(8)),
    (0, 2, Some(3)),
    (3, 1, Some(3)),
    (0, 1, None),
];

#[test]
fn joins(rt: HostRuntime) -> Result<(), Fail> {
    let join = left(rt.alloc())?.join(rt.alloc(), &right(rt.alloc())?)?;
    expect_bounds(&rt, &join, &JOINED);
    Ok(())
}

const WIDENED: [(usize, usize, Option<i128>); 5] = [
    (0, 0, Some(0)),
    (1, 0, Some(10)),
    (0, 2, Some(3)),
    (3, 1, Some(3)),
    (0, 1, None),
];

#[test]
fn widens(rt: HostRuntime) -> Result<(), Fail> {
    let wide = left(rt.alloc())?.widen(rt.alloc(), &[-1, 0, 1, 5], &right(rt.alloc())?)?;
    expect_bounds(&rt, &wide, &WIDENED);
    Ok(())
}

const FORGOTTEN: [(usize, usize, Option<i128>); 5] = [
    (0, 0, Some(0)),
    (1, 0, None),
    (0, 2, None),
    (3, 1, None),
    (0, 1, None),
];

#[test]
fn forgets(rt: HostRuntime) -> Result<(), Fail> {
    let free = left(rt.alloc())?.forget(rt.alloc(), 0)?;
    expect_bounds(&rt, &free, &FORGOTTEN);
    Ok(())
}

//! Extremes of each operation, worked by hand.

use num_bounds::Range;
use std::test::Fail;

const MIN: i64 = i64::MIN;

const MAX: i64 = i64::MAX;

#[derive(Clone, Copy, Debug)]
enum Operation {
    Add,
    Sub,
    Mul,
    Quot,
    Rem,
    Neg,
    Hull,
    Cut,
}

fn apply(operation: Operation, a: Range, b: Range) -> Option<Range> {
    match operation {
        Operation::Add => a.add(b),
        Operation::Sub => a.sub(b),
        Operation::Mul => a.mul(b),
        Operation::Quot => a.quot(b),
        Operation::Rem => a.rem(b),
        Operation::Neg => a.neg(),
        Operation::Hull => a.hull(b),
        Operation::Cut => a.cut(b.lo(), b.hi()),
    }
}

/// An operation, two ranges, and the range that it gives of them, None for none.
type Case = (Operation, (i64, i64), (i64, i64), Option<(i64, i64)>);

const EXTREMES: [Case; 31] = [
    (Operation::Add, (0, 0), (1, 1), Some((1, 1))),
    (Operation::Add, (MIN, MIN), (-1, -1), None),
    (Operation::Add, (MIN, -1), (-1, 1), Some((MIN, 0))),
    (Operation::Add, (MAX, MAX), (0, 1), Some((MAX, MAX))),
    (Operation::Sub, (0, 0), (MIN, MIN), None),
    (Operation::Sub, (0, 0), (MIN, 0), Some((0, MAX))),
    (Operation::Sub, (-1, 1), (-1, 1), Some((-2, 2))),
    (Operation::Neg, (MIN, MIN), (0, 0), None),
    (Operation::Neg, (MIN, MAX), (0, 0), Some((-MAX, MAX))),
    (Operation::Neg, (-1, 0), (0, 0), Some((0, 1))),
    (Operation::Mul, (-1, 1), (MIN, MAX), Some((MIN, MAX))),
    (Operation::Mul, (-2, 3), (-5, 7), Some((-15, 21))),
    (Operation::Mul, (MIN, MIN), (-1, -1), None),
    (Operation::Mul, (0, 0), (MIN, MAX), Some((0, 0))),
    (Operation::Quot, (MIN, MIN), (-1, -1), None),
    (
        Operation::Quot,
        (MIN, MIN),
        (-2, -1),
        Some((4611686018427387904, MAX)),
    ),
    (Operation::Quot, (-7, 7), (2, 2), Some((-3, 3))),
    (Operation::Quot, (1, 10), (-2, 3), Some((-10, 10))),
    (Operation::Quot, (5, 5), (0, 0), None),
    (Operation::Quot, (-7, -7), (0, 2), Some((-7, -3))),
    (Operation::Rem, (5, 9), (0, 0), None),
    (Operation::Rem, (5, 9), (3, 3), Some((0, 2))),
    (Operation::Rem, (-5, 9), (-4, 2), Some((-3, 3))),
    (Operation::Rem, (-5, 0), (7, 7), Some((-5, 0))),
    (Operation::Rem, (MIN, MIN), (-1, -1), Some((0, 0))),
    (Operation::Rem, (MIN, MAX), (MIN, MIN), Some((-MAX, MAX))),
    (Operation::Hull, (MIN, MIN), (MAX, MAX), Some((MIN, MAX))),
    (Operation::Hull, (0, 1), (-1, 0), Some((-1, 1))),
    (Operation::Cut, (0, 5), (6, 9), None),
    (Operation::Cut, (MIN, MAX), (0, 0), Some((0, 0))),
    (Operation::Cut, (-3, 3), (-1, 9), Some((-1, 3))),
];

#[test]
fn extremes(rt: HostRuntime) -> Result<(), Fail> {
    for (operation, a, b, want) in &EXTREMES {
        let a = Range::new(a.0, a.1).ok_or("empty")?;
        let b = Range::new(b.0, b.1).ok_or("empty")?;
        let got = apply(*operation, a, b).map(|range| (range.lo(), range.hi()));
        assert_eq!(rt; got, *want, "{operation:?} of {a:?} and {b:?}");
    }
    assert_eq!(rt; Range::new(1, 0), None);
    Ok(())
}

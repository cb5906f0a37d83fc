//! The nearest threshold on either side, among numbers that rise and among others.

use num_thresholds::Thresholds;
use std::test::Fail;

const MIN: i64 = i64::MIN;

const MAX: i64 = i64::MAX;

/// Numbers, whether they rise, a number to look from, the least that is not below it, and the greatest that is not above it.
type Case = (&'static [i64], bool, i64, Option<i64>, Option<i64>);

const CASES: [Case; 14] = [
    (&[], true, 0, None, None),
    (&[7], true, 7, Some(7), Some(7)),
    (&[7], true, 8, None, Some(7)),
    (&[7], true, 6, Some(7), None),
    (&[-3, 0, 5], true, 1, Some(5), Some(0)),
    (&[-3, 0, 5], true, 0, Some(0), Some(0)),
    (&[-3, 0, 5], true, 6, None, Some(5)),
    (&[-3, 0, 5], true, -4, Some(-3), None),
    (&[2, 2, 2], true, 2, Some(2), Some(2)),
    (&[MIN, MAX], true, MIN, Some(MIN), Some(MIN)),
    (&[MIN, MAX], true, 0, Some(MAX), Some(MIN)),
    (&[5, -3, 0], false, 1, Some(5), Some(0)),
    (&[5, 0, 9, -3], false, 4, Some(5), Some(0)),
    (&[MAX, MIN], false, MAX, Some(MAX), Some(MAX)),
];

#[test]
fn nearest_thresholds(rt: HostRuntime) -> Result<(), Fail> {
    for (numbers, rises, from, least, greatest) in CASES {
        let thresholds = Thresholds::new(numbers);
        assert_eq!(rt; thresholds.rise(), rises);
        assert_eq!(rt; thresholds.least_from(from), least);
        assert_eq!(rt; thresholds.greatest_to(from), greatest);
    }
    Ok(())
}

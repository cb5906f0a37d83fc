//! The nearest number: by bisection among numbers that rise, else by a pass over all.
ghost use Rattle.std.specs.Prelude.{◌≡◌, Some, if◌then◌else◌, int_le, int_lt};
ghost use Rattle.num_thresholds.specs.Thresholds.{greater, greatest_to, least_from, lesser};
ghost use Rattle.num_thresholds.specs.Thresholds.{IsRising};

/// The least of the numbers that is not below z, where they rise.
pub(crate) fn first_from(numbers: &[i64], z: i64) -> Option<i64>
    requires rising { IsRising numbers.now }
    ensures least { result ≡ least_from numbers.now z }
{
    let place = numbers.partition_point(
        |number: &i64| -> bool
            ensures is { result ≡ int_lt number.now z }
        { *number < z },
    );
    let first = numbers.get(place)?;
    Some(*first)
}

/// The greatest of the numbers that is not above z, where they rise.
pub(crate) fn last_to(numbers: &[i64], z: i64) -> Option<i64>
    requires rising { IsRising numbers.now }
    ensures greatest { result ≡ greatest_to numbers.now z }
{
    let place = numbers.partition_point(
        |number: &i64| -> bool
            ensures is { result ≡ int_le number.now z }
        { *number <= z },
    );
    let before = place.checked_sub(1)?;
    let last = numbers.get(before)?;
    Some(*last)
}

/// The lesser of a number and another one, if there is one.
fn lesser(number: i64, other: Option<i64>) -> i64
    ensures is { result ≡ lesser number other }
{
    match other {
        None => number,
        Some(other) => number.min(other),
    }
}

/// The greater of a number and another one, if there is one.
fn greater(number: i64, other: Option<i64>) -> i64
    ensures is { result ≡ greater number other }
{
    match other {
        None => number,
        Some(other) => number.max(other),
    }
}

/// The least so far, with one number more.
fn least_with(found: Option<i64>, number: i64, z: i64) -> Option<i64>
    ensures is { result ≡ (if int_lt number z then found else Some (lesser number found)) }
{
    if number < z {
        found
    } else {
        Some(lesser(number, found))
    }
}

/// The greatest so far, with one number more.
fn greatest_with(found: Option<i64>, number: i64, z: i64) -> Option<i64>
    ensures is { result ≡ (if int_lt z number then found else Some (greater number found)) }
{
    if z < number {
        found
    } else {
        Some(greater(number, found))
    }
}

/// The least of the numbers that is not below z.
pub(crate) fn scanned_from(numbers: &[i64], z: i64) -> Option<i64>
    ensures least { result ≡ least_from numbers.now z }
{
    let mut least = None;
    for number in numbers {
        least = least_with(least, *number, z);
    }
    least
}

/// The greatest of the numbers that is not above z.
pub(crate) fn scanned_to(numbers: &[i64], z: i64) -> Option<i64>
    ensures greatest { result ≡ greatest_to numbers.now z }
{
    let mut greatest = None;
    for number in numbers {
        greatest = greatest_with(greatest, *number, z);
    }
    greatest
}

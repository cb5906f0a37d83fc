//! Entries: a bound, or the width's number for none.
ghost use Rattle.std.specs.Prelude.{◌≡◌, ◌*◌, ◌+ℤ◌};
ghost use Rattle.std.specs.Int.{int_max, int_min};
ghost use Rattle.dbm_narrow.specs.Entries.{IsEntry, half_entry, or_zero, settle, through_both, wide};

use crate::entry::Entry;
use crate::width::Width;

/// A sum as an entry.
#[inline]
#[tactic(auto, unfolding(crate::specs::Entries::settle))]
pub fn settled<W: Width>(sum: Entry<W>) -> Entry<W>
    ensures value { result ≡ settle W.unit sum }
{
    if sum.is_less(Entry::free()) {
        sum
    } else {
        Entry::none()
    }
}

/// The sum of two entries.
#[inline]
pub fn plus<W: Width>(a: Entry<W>, b: Entry<W>) -> Entry<W>
    requires left { IsEntry W.unit (8 * W.unit) a }
    requires right { IsEntry W.unit (8 * W.unit) b }
    ensures sum { result ≡ settle W.unit (a +ℤ b) }
{
    settled(a.sum(b))
}

/// An entry when walks may go over two more.
#[inline]
pub fn over_both<W: Width>(
    a: Entry<W>,
    to_first: Entry<W>,
    from_first: Entry<W>,
    to_second: Entry<W>,
    from_second: Entry<W>,
) -> Entry<W>
    requires to_first { IsEntry W.unit (6 * W.unit) to_first }
    requires from_first { IsEntry W.unit (8 * W.unit) from_first }
    requires to_second { IsEntry W.unit (6 * W.unit) to_second }
    requires from_second { IsEntry W.unit (8 * W.unit) from_second }
    ensures value { result ≡ through_both W.unit to_first to_second from_first from_second a }
{
    let first = lesser(a, to_first.sum(from_first));
    settled(lesser(first, to_second.sum(from_second)))
}

/// The lesser of two numbers.
#[inline]
pub fn lesser<W: Width>(a: Entry<W>, b: Entry<W>) -> Entry<W>
    ensures value { result ≡ int_min a b }
{
    if b.is_less(a) { b } else { a }
}

/// The greater of two numbers.
#[inline]
pub fn greater<W: Width>(a: Entry<W>, b: Entry<W>) -> Entry<W>
    ensures value { result ≡ int_max a b }
{
    if a.is_less(b) { b } else { a }
}

/// The bound, 0 where there is none.
#[inline]
pub fn bound_or_zero<W: Width>(a: Entry<W>) -> Entry<W>
    ensures value { result ≡ or_zero W.unit a }
{
    if a.is_less(Entry::free()) {
        a
    } else {
        Entry::zero()
    }
}

/// The bound that an entry stands for.
#[inline]
#[tactic(auto, unfolding(crate::specs::Entries::wide))]
pub fn wide_bound<W: Width>(a: Entry<W>) -> Option<i128>
    ensures bound { result ≡ wide W.unit a }
{
    if a.is_less(Entry::free()) {
        Some(a.number())
    } else {
        None
    }
}

/// Half of an entry, rounded down.
#[inline]
#[tactic(auto, unfolding(crate::specs::Entries::half_entry))]
pub fn half<W: Width>(a: Entry<W>) -> Entry<W>
    ensures half { result ≡ half_entry W.unit a }
{
    if a.is_less(Entry::free()) {
        a.halved()
    } else {
        Entry::none()
    }
}

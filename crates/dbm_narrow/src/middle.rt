//! The bounds to and from the nodes of one slot.
ghost use Rattle.std.specs.Prelude.{◌≡◌, ◌<◌, ◌≤◌, ◌*◌, ℕ, length};
ghost use Rattle.dbm_narrow.specs.Entries.{AreEntries, IsEntry, at, none};
ghost use Rattle.dbm_narrow.specs.Held.{HoldsMiddle};
ghost use Rattle.dbm_narrow.specs.Middles.{IsNarrowMiddle};
ghost use Rattle.dbm_narrow.specs.Putting.{IsNarrowBetween, PutsFrom, PutsTo, PutsTwo};
ghost use Rattle.dbm_narrow.specs.Rounds.{IsNarrow};
ghost use Rattle.dbm_narrow.specs.Rows.{AreFlipped, ColumnsAre, LesserFit, SumsFit, over_at, stepped_at};

use crate::between::{Between, bounds_between};
use crate::entries::{lesser, plus};
use crate::entry::Entry;
use crate::rows::read;
use crate::width::Width;

/// The bounds to and from both nodes of one slot, those of the second node when walks may go
/// through the first.
#[derive(Drop)]
pub struct Middle<W: Width> {
    pub to_first: [Entry<W>; 32],
    pub from_first: [Entry<W>; 32],
    pub to_second: [Entry<W>; 32],
    pub from_second: [Entry<W>; 32],
}

/// What stands at the node of the other sign, of the nodes of this many slots.
#[inline]
pub fn flipped<W: Width>(row: &[Entry<W>; 32], slots: usize) -> [Entry<W>; 32]
    requires few { slots ≤ 16 }
    requires entries { AreEntries W.unit (2 * W.unit) row.now }
    ensures flipped { AreFlipped W.unit (2 * slots) row.now result }
    ensures beyond { (i : ℕ) → 2 * slots ≤ i → at W.unit result i ≡ none W.unit }
{
    let mut turned = [Entry::none(); 32];
    for slot in 0..slots {
        let even = read(row, 2 * slot);
        let odd = read(row, 2 * slot + 1);
        turned[2 * slot] = odd;
        turned[2 * slot + 1] = even;
    }
    turned
}

/// Each entry, or where it is less, the sum of a step and the next one.
#[inline]
pub fn over<W: Width>(row: &[Entry<W>; 32], step: Entry<W>, next: &[Entry<W>; 32]) -> [Entry<W>; 32]
    requires row { AreEntries W.unit (2 * W.unit) row.now }
    requires step { IsEntry W.unit (4 * W.unit) step }
    requires next { AreEntries W.unit (4 * W.unit) next.now }
    ensures over { ColumnsAre W.unit 32 (over_at W.unit row.now step next.now) result }
    ensures entries { LesserFit W.unit step next.now result }
{
    let mut sums = [Entry::none(); 32];
    for j in 0..32 {
        let here = read(row, j);
        let beyond = read(next, j);
        sums[j] = lesser(here, plus(step, beyond));
    }
    sums
}

/// Each entry and a step.
#[inline]
pub fn stepped<W: Width>(step: Entry<W>, row: &[Entry<W>; 32]) -> [Entry<W>; 32]
    requires step { IsEntry W.unit (8 * W.unit) step }
    requires row { AreEntries W.unit (8 * W.unit) row.now }
    ensures sums { ColumnsAre W.unit 32 (stepped_at W.unit step row.now) result }
    ensures entries { SumsFit W.unit step row.now result }
{
    let mut sums = [Entry::none(); 32];
    for j in 0..32 {
        let here = read(row, j);
        sums[j] = plus(step, here);
    }
    sums
}

/// A middle to be filled.
#[inline]
pub fn no_middle<W: Width>() -> Middle<W>
    ensures entries { IsNarrowMiddle W.unit result }
{
    Middle {
        to_first: [Entry::none(); 32],
        from_first: [Entry::none(); 32],
        to_second: [Entry::none(); 32],
        from_second: [Entry::none(); 32],
    }
}

/// Fills it with the bounds to and from both nodes of slot q.
#[inline]
pub fn fill_middle<W: Width>(kinds: &[bool], entries: &[Entry<W>], q: usize, middle: &mut Middle<W>)
    requires narrow { IsNarrow W.unit kinds.now entries.now }
    requires middle { q < length kinds.now }
    requires entries { IsNarrowMiddle W.unit middle.old }
    ensures bounds { HoldsMiddle W.unit kinds.now entries.now q middle.new }
    ensures entries { IsNarrowMiddle W.unit middle.new }
{
    let slots = kinds.len();
    let own = bounds_between(entries, slots, q, q);
    for slot in 0..slots {
        let here = bounds_between(entries, slots, q, slot);
        put_from(middle, slot, here, own.second_even);
        put_to(middle, slot, here, own.first_odd);
    }
}

// Puts the bounds from both nodes to those of another slot: `back` leads from the second node to
// the first.
#[inline]
fn put_from<W: Width>(middle: &mut Middle<W>, slot: usize, here: Between<W>, back: Entry<W>)
    requires slot { slot < 16 }
    requires narrow { IsNarrowBetween W.unit here }
    requires back { IsEntry W.unit (2 * W.unit) back }
    ensures put { PutsFrom W.unit slot here back middle.old middle.new }
{
    let even = lesser(here.second_even, plus(back, here.first_even));
    let odd = lesser(here.second_odd, plus(back, here.first_odd));
    put(
        &mut middle.from_first,
        slot,
        here.first_even,
        here.first_odd,
    );
    put(&mut middle.from_second, slot, even, odd);
}

// Puts the bounds to both nodes from those of another slot: `ahead` leads from the first node to
// the second.
#[inline]
fn put_to<W: Width>(middle: &mut Middle<W>, slot: usize, here: Between<W>, ahead: Entry<W>)
    requires slot { slot < 16 }
    requires narrow { IsNarrowBetween W.unit here }
    requires ahead { IsEntry W.unit (2 * W.unit) ahead }
    ensures put { PutsTo W.unit slot here ahead middle.old middle.new }
{
    let even = lesser(here.first_odd, plus(ahead, here.second_odd));
    let odd = lesser(here.first_even, plus(ahead, here.second_even));
    put(
        &mut middle.to_first,
        slot,
        here.second_odd,
        here.second_even,
    );
    put(&mut middle.to_second, slot, even, odd);
}

// Puts the entries at both nodes of a slot.
#[inline]
fn put<W: Width>(row: &mut [Entry<W>; 32], slot: usize, even: Entry<W>, odd: Entry<W>)
    requires slot { slot < 16 }
    ensures put { PutsTwo W.unit slot even odd row.old row.new }
{
    row[2 * slot] = even;
    row[2 * slot + 1] = odd;
}

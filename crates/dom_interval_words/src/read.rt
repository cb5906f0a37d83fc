//! The state of a text.
ghost use Rattle.std.specs.Prelude.{◌≡◌, ◌≤◌, ◌++◌, length, IfOk, IfSome};
ghost use Rattle.std.specs.Option.{option_map};
ghost use Rattle.dom_interval_meaning.specs.Ranges.{extremes};
ghost use Rattle.dom_interval_words.specs.Words as meant;
ghost use Rattle.dom_interval_words.specs.Slots.{slots_in, within_extremes};
ghost use Rattle.dom_interval_words.specs.Words.{slot_if, slot_with};

use base_values::Memory;
use cert_words::{is_number, words_of};
use dom_interval_meaning::SlotRange;
use imp_slots::{Layout, NumericSlot};
use num_bounds::Range;
use std::alloc::{AllocError, Global};

/// Whether the numbers from lo to hi are some, all within a slot's extremes.
fn is_within(is_array: bool, lo: i128, hi: i128) -> bool
    ensures exact { result ≡ within_extremes (extremes is_array) lo hi }
{
    if is_array {
        return 0 <= lo && lo <= hi && hi <= 1_000_000;
    }
    i128::from(i64::MIN) <= lo && lo <= hi && hi <= i128::from(i64::MAX)
}

/// The slot with these ends, where it fits.
#[tactic(auto, using(crate::proofs::Slots::slot_within, crate::proofs::Slots::slot_without, crate::proofs::Slots::ordered_within))]
fn slot_of(number: &NumericSlot, lo: i128, hi: i128) -> Option<SlotRange>
    ensures exact { result ≡ slot_if number.now (slot_with number.now lo hi) }
{
    let is_array = number.is_array();
    if !is_within(is_array, lo, hi) {
        return None;
    }
    Some(SlotRange {
        is_array,
        range: Range::from_ends(lo as i64, hi as i64),
    })
}

/// The slot of this kind that the first two words tell, where there is such.
fn first_slot(number: &NumericSlot, words: &[Option<i128>]) -> Option<SlotRange>
    ensures exact { result ≡ meant.first_slot number.now words.now }
    ensures long { IfSome result (λ _slot. 2 ≤ length words.now) }
{
    match words {
        [Some(lo), Some(hi), ..] => slot_of(number, *lo, *hi),
        [] => None,
        [None, ..] => None,
        [Some(_)] => None,
        [Some(_), None, ..] => None,
    }
}

/// The slots after these.
#[tactic(auto, using(crate::proofs::Slots::more_behind))]
fn slots_of(
    numbers: &[NumericSlot],
    words: &[Option<i128>],
    slots: Vec<SlotRange>,
) -> Result<Option<Vec<SlotRange>>, AllocError>
    ensures exact { IfOk result (λ found. option_map (λ v. v.items) found ≡ option_map
        (λ more. slots.items ++ more) (meant.slots_of numbers.now words.now)) }
{
    let [number, numbers @ ..] = numbers else {
        return Ok(if words.is_empty() { Some(slots) } else { None });
    };
    let Some(slot) = first_slot(number, words) else {
        return Ok(None);
    };
    let mut slots = slots;
    slots.push(slot)?;
    slots_of(numbers, &words[2..], slots)
}

fn within_of(
    alloc: Global,
    layouts: &[Layout],
    words: &[Option<i128>],
) -> Result<Option<Option<Vec<SlotRange>>>, AllocError>
    ensures exact { IfOk result (λ found. option_map (λ o. slots_in (option_map (λ v. v.items) o))
        found ≡ meant.within_of layouts.now words.now) }
{
    let [layout, ..] = layouts else {
        return Ok(None);
    };
    let slots = slots_of(layout.numbers(), words, Vec::new(alloc))?;
    Ok(slots.map(Some))
}

fn state_of(
    alloc: Global,
    layouts: &[Layout],
    words: &[Option<i128>],
) -> Result<Option<Option<Vec<SlotRange>>>, AllocError>
    ensures exact { IfOk result (λ found. option_map (λ o. slots_in (option_map (λ v. v.items) o))
        found ≡ meant.state_of layouts.now words.now) }
{
    let [word, rest @ ..] = words else {
        return Ok(None);
    };
    if is_number(0, *word) {
        return Ok(if rest.is_empty() { Some(None) } else { None });
    }
    if is_number(1, *word) {
        return within_of(alloc, layouts, rest);
    }
    Ok(None)
}

/// The slots of the state of frames with these layouts, the last one's first, that has this text, none for
/// Empty; or None where no such state fits. It fails only when memory runs out.
pub fn take(
    alloc: Global,
    layouts: &[Layout],
    text: &[u8],
) -> Result<Option<Option<Vec<SlotRange>>>, Memory>
    ensures exact { IfOk result (λ found. option_map (λ o. slots_in (option_map (λ v. v.items) o))
        found ≡ meant.interval_port.take layouts.now text.now) }
{
    let Some(words) = words_of(alloc, text)? else {
        return Ok(None);
    };
    Ok(state_of(alloc, layouts, &words)?)
}

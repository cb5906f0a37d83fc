//! The text of a state.
ghost use Rattle.std.specs.Prelude.{◌≡◌, IfOk};
ghost use Rattle.dom_interval_meaning.specs.Text as texts;

use crate::state::Kept;
use crate::{IntervalState, SlotRange};
use base_values::{Memory, Text};
use dom_numeric::{put_range, put_space};
use imp_slots::{Layout, NumericSlot};
use std::alloc::Global;

/// The slots, with one space between; `any` where there are none.
fn slots_text(alloc: Global, numbers: &[NumericSlot], slots: &[SlotRange]) -> Result<Text, Memory>
    ensures value { IfOk result (λ v. v ≡ texts.ranges_text numbers.now slots.now) }
{
    let mut text = Text::new(alloc);
    if numbers.is_empty() {
        text.append(b"any")?;
    }
    for (slot, number) in numbers.iter().enumerate() {
        if slot >= slots.len() {
            break;
        }
        put_space(&mut text, slot)?;
        put_range(&mut text, number, slots[slot].range)?;
    }
    Ok(text)
}

/// A state's text: `none` where it is empty.
#[tactic(auto, unfolding(dom_interval_meaning::specs::Text::text))]
pub fn state_text(alloc: Global, layout: &Layout, s: &IntervalState) -> Result<Text, Memory>
    ensures value { IfOk result (λ v. v ≡ texts.text layout.now s.now) }
{
    match &s.kept {
        Kept::Empty => Text::from_slice(alloc, b"none"),
        Kept::Within(slots) => slots_text(alloc, layout.numbers(), slots),
    }
}

//! The text of a state.
ghost use Rattle.std.specs.Prelude.{◌≡◌, ◌++◌, IfOk, OnOk};
ghost use Rattle.std.specs.Option.{option_map};
ghost use Rattle.cert_words.specs.Words.{words_text};
ghost use Rattle.dom_interval_meaning.specs.State.{Within};
ghost use Rattle.dom_interval_words.specs.Words.{state_words};
ghost use Rattle.dom_interval_words.specs.Slots.{slot_text, slots_in};

use base_values::{Memory, Text};
use cert_words::{put_more, put_word};
use dom_interval_meaning::SlotRange;
use std::alloc::Global;

fn put_slot(text: &mut Text, slot: SlotRange) -> Result<(), Memory>
    ensures added { OnOk result (text.new ≡ text.old ++ slot_text slot) }
{
    put_more(text, Some(i128::from(slot.range.lo())))?;
    put_more(text, Some(i128::from(slot.range.hi())))
}

#[tactic(auto, using(crate::proofs::Texts::slots_step))]
fn put_within(alloc: Global, slots: &[SlotRange]) -> Result<Text, Memory>
    ensures exact { IfOk result (λ text. text ≡ words_text (state_words (Within slots.now))) }
{
    let mut text = Text::new(alloc);
    put_word(&mut text, Some(1))?;
    for slot in slots {
        put_slot(&mut text, *slot)?;
    }
    Ok(text)
}

/// The text of the state with these slots, of Empty where there are none. It fails only when memory runs out.
pub fn put(alloc: Global, slots: Option<&[SlotRange]>) -> Result<Text, Memory>
    ensures exact { IfOk result (λ text. text ≡ words_text
        (state_words (slots_in (option_map (λ r. r.now) slots.entry)))) }
{
    let Some(slots) = slots else {
        let mut text = Text::new(alloc);
        put_word(&mut text, Some(0))?;
        return Ok(text);
    };
    put_within(alloc, slots)
}

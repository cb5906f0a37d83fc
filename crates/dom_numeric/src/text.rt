//! The text of a slot with its range.
ghost use Rattle.std.specs.Prelude.{◌≡◌, ◌++◌, OnOk};
ghost use Rattle.dom_numeric.specs.Texts.{end_text, name_text, range_text, space_at};

use base_values::{Memory, Text};
use imp_slots::NumericSlot;
use itoa::Buffer;
use num_bounds::Range;

/// Writes the space before a slot; none before slot 0. It fails only when memory runs out.
pub fn put_space(text: &mut Text, slot: usize) -> Result<(), Memory>
    ensures value { OnOk result (text.new ≡ text.old ++ space_at slot) }
{
    if slot > 0 {
        text.push(b' ')?;
    }
    Ok(())
}

/// Writes the name of a slot, that of an array after a `#`. It fails only when memory runs out.
pub fn put_name(text: &mut Text, number: &NumericSlot) -> Result<(), Memory>
    ensures value { OnOk result (text.new ≡ text.old ++ name_text number.now) }
{
    if number.is_array() {
        text.push(b'#')?;
    }
    text.append(number.name().as_slice())
}

#[tactic(auto, unfolding(crate::specs::Texts::end_text))]
fn put_end(text: &mut Text, end: i64) -> Result<(), Memory>
    ensures value { OnOk result (text.new ≡ text.old ++ end_text end) }
{
    if end == i64::MAX {
        return text.append(b"max");
    }
    if end == i64::MIN {
        return text.append(b"min");
    }
    let mut buffer = Buffer::new();
    text.append(buffer.format(end).as_bytes())
}

/// Writes `x=[lo,hi]`, where `max` and `min` stand for the greatest and the least number. It fails when memory runs out
/// alone.
#[tactic(auto, unfolding(crate::specs::Texts::range_text), using(base_values::proofs::Joined::joined_6))]
pub fn put_range(text: &mut Text, number: &NumericSlot, range: Range) -> Result<(), Memory>
    ensures value { OnOk result (text.new ≡ text.old ++ range_text number.now range) }
{
    put_name(text, number)?;
    text.append(b"=[")?;
    put_end(text, range.lo())?;
    text.append(b",")?;
    put_end(text, range.hi())?;
    text.append(b"]")?;
    Ok(())
}

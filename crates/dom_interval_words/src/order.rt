//! The order of states.
ghost use Rattle.std.specs.Prelude.{◌≡◌};
ghost use Rattle.std.specs.Option.{option_map};
ghost use Rattle.dom_interval_words.specs.Words as meant;
ghost use Rattle.dom_interval_words.specs.Slots.{slots_in};

use dom_interval_meaning::SlotRange;

/// Whether each range is inside that of the other list at its place.
fn slots_leq(left: &[SlotRange], right: &[SlotRange]) -> bool
    ensures exact { result ≡ meant.slots_leq left.now right.now }
{
    match left {
        [] => true,
        [a, left @ ..] => match right {
            [] => true,
            [b, right @ ..] => {
                b.range.lo() <= a.range.lo()
                    && a.range.hi() <= b.range.hi()
                    && slots_leq(left, right)
            }
        },
    }
}

/// Whether the left state, given by its slots, none for Empty, is found below the right one.
pub fn leq(left: Option<&[SlotRange]>, right: Option<&[SlotRange]>) -> bool
    ensures exact { result ≡ meant.leq (slots_in (option_map (λ r. r.now) left.entry))
        (slots_in (option_map (λ r. r.now) right.entry)) }
{
    match left {
        None => true,
        Some(left) => match right {
            None => false,
            Some(right) => slots_leq(left, right),
        },
    }
}

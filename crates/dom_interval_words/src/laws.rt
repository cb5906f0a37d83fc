//! The laws of intervals as words, each the contract of a function that does nothing.
ghost use Rattle.dom_interval_words.specs.Claims.{IntervalsArePortable, IntervalsHaveUpperBounds};

/// What is put is taken back, what no state that fits has as its text is refused, and the order is sound.
pub fn intervals_are_portable()
    ensures portable { IntervalsArePortable }
{}

/// Joins and widenings of states that fit are above both sides by the order, which is one.
pub fn intervals_have_upper_bounds()
    ensures upper { IntervalsHaveUpperBounds }
{}

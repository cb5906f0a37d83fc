//! The laws of list segments as words, each the contract of a function that does nothing.
ghost use Rattle.dom_listseg_words.specs.Claims.{SegmentsArePortable, SegmentsHaveUpperBounds};

/// What is put is taken back, what no state that fits has as its text is refused, and the order is sound.
pub fn segments_are_portable()
    ensures portable { SegmentsArePortable }
{}

/// Joins and widenings of states that fit are above both sides by the order, which is one.
pub fn segments_have_upper_bounds()
    ensures upper { SegmentsHaveUpperBounds }
{}

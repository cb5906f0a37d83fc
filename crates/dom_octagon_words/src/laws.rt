//! The laws of octagons as words, each the contract of a function that does nothing.
ghost use Rattle.dom_octagon_words.specs.Claims.{OctagonsArePortable, OctagonsHaveUpperBounds};

/// What is put is taken back, what no state that fits has as its text is refused, and the order is sound.
pub fn octagons_are_portable()
    ensures portable { OctagonsArePortable }
{}

/// Joins and widenings of states that fit are above both sides by the order, which is one: closing is monotone, and closing
/// what is closed gives it again, also where entries were cut.
pub fn octagons_have_upper_bounds()
    ensures upper { OctagonsHaveUpperBounds }
{}

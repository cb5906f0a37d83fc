//! The range of a numeric slot.
ghost use Rattle.std.specs.Prelude.{◌≡◌};
ghost use Rattle.dom_interval_meaning.specs.State.{slot_same, slot_equiv, slot_per, slot_fed, slot_fed-same};

use num_bounds::Range;
use std::hash::{Hash, Hasher};

/// A numeric slot's range, and whether it is an array, of whose length it is the range.
#[derive(Clone, Copy, Debug)]
pub struct SlotRange {
    pub is_array: bool,
    pub range: Range,
}

impl PartialEq for SlotRange {
    ghost eq = { slot_same };

    ghost laws = { slot_per };

    fn eq(&self, other: &SlotRange) -> bool {
        self.is_array == other.is_array && self.range == other.range
    }
}

impl Eq for SlotRange {
    ghost laws = { slot_equiv };
}

impl Hash for SlotRange {
    ghost hash_input = { slot_fed };

    ghost respects_eq = { slot_fed-same };

    fn hash<H: Hasher>(&self, state: &mut H) {
        self.is_array.hash(state);
        self.range.lo().hash(state);
        self.range.hi().hash(state);
    }
}

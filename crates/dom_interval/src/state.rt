//! States of the intervals' domain, and when two are equal.
ghost use Rattle.std.specs.Prelude.{◌≡◌};
ghost use Rattle.dom_interval_meaning.specs.State.{Intervals, intervals_same, intervals_fed};
ghost use Rattle.dom_interval_meaning.proofs.StateLaws.{intervals_equiv, intervals_per, intervals_fed-same};

use dom_interval_meaning::SlotRange;
use std::hash::{Hash, Hasher};
use std::marker::Model;

/// A state of the intervals: empty, or a range for each numeric slot.
#[derive(Debug, Drop)]
pub struct IntervalState {
    pub(crate) kept: Kept,
}

#[derive(Debug, Drop)]
pub(crate) enum Kept {
    Empty,
    Within(Vec<SlotRange>),
}

impl Model for IntervalState {
    ghost use Rattle.dom_interval_meaning.specs.State.{Intervals, intervals_code};

    ghost Value = { Intervals };

    ghost coded = { intervals_code };

    ghost use Rattle.dom_interval.specs.View.{intervals_of};

    ghost view = { λ a. intervals_of a.kept };
}

impl PartialEq for IntervalState {
    ghost eq = { intervals_same };

    ghost laws = { intervals_per };

    fn eq(&self, other: &IntervalState) -> bool {
        match (&self.kept, &other.kept) {
            (Kept::Empty, Kept::Empty) => true,
            (Kept::Within(a), Kept::Within(b)) => *a == *b,
            _ => false,
        }
    }
}

impl Eq for IntervalState {
    ghost laws = { intervals_equiv };
}

impl Hash for IntervalState {
    ghost hash_input = { intervals_fed };

    ghost respects_eq = { intervals_fed-same };

    fn hash<H: Hasher>(&self, state: &mut H) {
        match &self.kept {
            Kept::Empty => state.write_u8(0),
            Kept::Within(slots) => {
                state.write_u8(1);
                slots.hash(state);
            }
        }
    }
}

//! Intervals as texts, and their order.
ghost use Rattle.std.specs.Prelude.{◌≡◌};
ghost use Rattle.std.specs.Option.{option_map};
ghost use Rattle.dom_interval_words.specs.Slots.{slots_in};
ghost use Rattle.dom_interval_words.specs.Words.{interval_port};
ghost use Rattle.dom_interval_words.proofs.Portable.{interval_portable};

use crate::compare::{empty, within};
use crate::domain::Interval;
use crate::state::Kept;
use crate::{IntervalState, SlotRange};
use base_values::{Memory, Text};
use cert_meaning::Portable;
use imp_slots::Layout;
use std::alloc::Global;

/// The slots of a state, none where it is Empty.
fn slots(s: &IntervalState) -> Option<&[SlotRange]>
    ensures exact { slots_in (option_map (λ r. r.now) result) ≡ s.now }
{
    match &s.kept {
        Kept::Empty => None,
        Kept::Within(slots) => Some(slots.as_slice()),
    }
}

/// The state of these slots, Empty where there are none.
fn state(slots: Option<Vec<SlotRange>>) -> IntervalState
    ensures exact { result ≡ slots_in (option_map (λ v. v.items) slots) }
{
    match slots {
        None => empty(),
        Some(slots) => within(slots),
    }
}

impl Portable for Interval {
    ghost port = { λ d. interval_port };

    fn put(&self, alloc: Global, s: &IntervalState) -> Result<Text, Memory> {
        dom_interval_words::put(alloc, slots(s))
    }

    fn take(
        &self,
        alloc: Global,
        layouts: &[Layout],
        text: &[u8],
    ) -> Result<Option<IntervalState>, Memory> {
        Ok(dom_interval_words::take(alloc, layouts, text)?.map(state))
    }

    fn leq(&self, alloc: Global, l: &IntervalState, r: &IntervalState) -> Result<bool, Memory> {
        Ok(dom_interval_words::leq(slots(l), slots(r)))
    }

    ghost port_laws = { λ d. interval_portable };
}

//! Statements that have a check.
ghost use Rattle.std.specs.Prelude.{IsTrue};
ghost use Rattle.imp_slots.specs.ActionViews.{effect_of};
ghost use Rattle.domain_laws.specs.Checks.{check_of};
ghost use Rattle.batch_interp.specs.Checking.{is_checked};

use imp_slots::SlotAction;

/// A statement that has a check.
#[derive(Drop)]
pub(crate) struct Claim {
    pub(crate) number: u32,
    pub(crate) action: SlotAction,
    ghost checked: { IsTrue (is_checked (check_of (effect_of action))) },
}

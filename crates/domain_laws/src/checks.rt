//! Which check a statement has.
ghost use Rattle.std.specs.Prelude.{◌≡◌};
ghost use Rattle.imp_slots.specs.ActionViews.{effect_of, act_of};
ghost use Rattle.domain_laws.specs.Checks.{check_of, kind_if, kind_in};

use imp_slots::{SlotAction, SlotStmt};
use imp_words::Check;

/// What the check of a simple statement asks, if it has one.
pub fn check_of_action(action: &SlotAction) -> Option<Check>
    ensures is { result ≡ kind_if (check_of (effect_of action.now)) }
{
    match action {
        SlotAction::Assert(_) => Some(Check::Assert),
        SlotAction::ReadElement(_, _, _) => Some(Check::Bounds),
        SlotAction::WriteElement(_, _, _) => Some(Check::Bounds),
        SlotAction::ReadItem(_, _) => Some(Check::Null),
        SlotAction::ReadNext(_, _) => Some(Check::Null),
        SlotAction::WriteNext(_, _) => Some(Check::Null),
        SlotAction::WriteItem(_, _) => Some(Check::Null),
        SlotAction::Skip => None,
        SlotAction::SetInt(_, _) => None,
        SlotAction::Input(_) => None,
        SlotAction::MakeArray(_, _) => None,
        SlotAction::CopyArray(_, _) => None,
        SlotAction::SetNull(_) => None,
        SlotAction::MakeCell(_) => None,
        SlotAction::CopyLink(_, _) => None,
    }
}

/// What the check of a statement asks, if it has one; a break has none.
pub fn check_of(stmt: &SlotStmt) -> Option<Check>
    ensures is { result ≡ kind_in (act_of stmt.now) }
{
    match stmt {
        SlotStmt::Break => None,
        SlotStmt::Simple(action) => check_of_action(action),
    }
}

//! What statements do.
ghost use Rattle.std.specs.Prelude.{◌≡◌, IfOk};
ghost use Rattle.imp_slots.specs.ActionViews.{effect_of, act_of};

use crate::{SlotCond, SlotExpr};
use std::alloc::AllocError;

/// What a simple statement does that is neither a call nor a break. The slot that it sets stands
/// first.
#[derive(Drop)]
pub enum SlotAction {
    /// `skip`
    Skip,
    /// `assert c`
    Assert(SlotCond),
    /// `x = e`
    SetInt(u32, SlotExpr),
    /// `x = input`
    Input(u32),
    /// `x = a[e]`
    ReadElement(u32, u32, SlotExpr),
    /// `x = q.item`
    ReadItem(u32, u32),
    /// `a = array e`
    MakeArray(u32, SlotExpr),
    /// `a = b`
    CopyArray(u32, u32),
    /// `a[e] = f`
    WriteElement(u32, SlotExpr, SlotExpr),
    /// `p = null`
    SetNull(u32),
    /// `p = new`
    MakeCell(u32),
    /// `p = q`
    CopyLink(u32, u32),
    /// `p = q.next`
    ReadNext(u32, u32),
    /// `p.next = q`
    WriteNext(u32, u32),
    /// `p.item = e`
    WriteItem(u32, SlotExpr),
}

/// A simple statement but a call.
#[derive(Drop)]
pub enum SlotStmt {
    /// `break`
    Break,
    /// Any other.
    Simple(SlotAction),
}

impl Clone for SlotAction {
    ghost is_clone = { λ a copy. copy ≡ a };

    fn clone(&self) -> Result<SlotAction, AllocError> {
        let copy = match self {
            SlotAction::Skip => SlotAction::Skip,
            SlotAction::Assert(c) => SlotAction::Assert(c.clone()?),
            SlotAction::SetInt(x, e) => SlotAction::SetInt(*x, e.clone()?),
            SlotAction::Input(x) => SlotAction::Input(*x),
            SlotAction::ReadElement(x, a, e) => SlotAction::ReadElement(*x, *a, e.clone()?),
            SlotAction::ReadItem(x, q) => SlotAction::ReadItem(*x, *q),
            SlotAction::MakeArray(a, e) => SlotAction::MakeArray(*a, e.clone()?),
            SlotAction::CopyArray(a, b) => SlotAction::CopyArray(*a, *b),
            SlotAction::WriteElement(a, e, f) => {
                SlotAction::WriteElement(*a, e.clone()?, f.clone()?)
            }
            SlotAction::SetNull(p) => SlotAction::SetNull(*p),
            SlotAction::MakeCell(p) => SlotAction::MakeCell(*p),
            SlotAction::CopyLink(p, q) => SlotAction::CopyLink(*p, *q),
            SlotAction::ReadNext(p, q) => SlotAction::ReadNext(*p, *q),
            SlotAction::WriteNext(p, q) => SlotAction::WriteNext(*p, *q),
            SlotAction::WriteItem(p, e) => SlotAction::WriteItem(*p, e.clone()?),
        };
        Ok(copy)
    }
}

impl Clone for SlotStmt {
    ghost is_clone = { λ s copy. copy ≡ s };

    fn clone(&self) -> Result<SlotStmt, AllocError> {
        match self {
            SlotStmt::Break => Ok(SlotStmt::Break),
            SlotStmt::Simple(action) => Ok(SlotStmt::Simple(action.clone()?)),
        }
    }
}

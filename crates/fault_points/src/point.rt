//! A place of the evaluation that can end a run.

use base_values::Items;
use imp_slots::SlotCond;
use imp_words::FaultKind;

/// A place of the evaluation that can end a run.
#[derive(Drop)]
pub struct FaultPoint {
    /// The fault that comes there.
    pub kind: FaultKind,
    /// What holds where it does not come.
    pub claim: SlotCond,
}

/// Fault points in the order of evaluation.
pub type FaultPoints = Items<FaultPoint>;

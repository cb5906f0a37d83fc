//! How a run ends.
use crate::FaultKind;
use imp_syntax::StmtId;

/// How a run ends.
#[derive(Clone, Copy, Debug, PartialEq, Eq, Hash)]
pub enum RunEnd {
    /// Main is done.
    Ended,
    /// A statement has no result.
    Fault(StmtId, FaultKind),
    /// An input statement found no input.
    InputsUsedUp(StmtId),
    /// As many steps as were allowed were taken, and main is not done.
    FuelUsedUp,
}

//! What is found of the faults of a statement.

use base_values::Items;
use imp_syntax::StmtId;
use imp_words::FaultKind;

/// What is known of a fault at a statement.
#[derive(Clone, Copy, Debug, PartialEq, Eq, Hash)]
pub enum FaultVerdict {
    /// No run comes to the statement.
    Dead,
    /// No run ends with the fault there.
    Safe,
    /// A run may end with it.
    May,
    /// No run that comes there goes on.
    Fails,
}

/// What is found of one kind of fault at a statement.
#[derive(Clone, Copy, Debug, PartialEq, Eq, Hash)]
pub struct FaultFinding {
    /// The statement's number.
    pub id: StmtId,
    /// The fault.
    pub fault: FaultKind,
    /// What is found.
    pub verdict: FaultVerdict,
}

/// A list of findings.
pub type FaultFindings = Items<FaultFinding>;

//! What the check of a statement asks, and what is found of it.
use crate::Verdict;
use base_values::Items;
use imp_syntax::StmtId;

/// What the check of a statement asks.
#[derive(Clone, Copy, Debug, PartialEq, Eq, Hash)]
pub enum Check {
    /// The index of an array is within it.
    Bounds,
    /// A link is not null.
    Null,
    /// The condition of an `assert` holds.
    Assert,
}

/// What is found of the check of a statement.
#[derive(Clone, Copy, Debug, PartialEq, Eq, Hash)]
pub struct Finding {
    /// The statement's number.
    pub id: StmtId,
    /// What its check asks.
    pub check: Check,
    /// What is found.
    pub verdict: Verdict,
}

/// A list of findings.
pub type Findings = Items<Finding>;

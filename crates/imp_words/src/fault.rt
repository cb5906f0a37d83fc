//! The faults that end a run.

/// What a run ends with at a statement that has no result.
#[derive(Clone, Copy, Debug, PartialEq, Eq, Hash)]
pub enum FaultKind {
    /// A sum, difference, product, sign or quotient outside 64 bits, or the least number % -1.
    Overflow,
    /// A division or remainder by 0.
    Zero,
    /// An array of fewer than 0 or more than 1,000,000 elements.
    Length,
    /// An index outside its array.
    Index,
    /// The next or the item of null.
    Null,
    /// A condition that was claimed and is false.
    Assert,
}

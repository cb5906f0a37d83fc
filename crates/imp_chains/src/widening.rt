//! How loops are widened.

/// How the iterates of a loop are made: those of its first `delay` rounds are joined, the later ones
/// widened, by the thresholds of the procedure where `thresholds` says so, else by none.
#[derive(Clone, Copy, Debug, PartialEq, Eq, Hash)]
pub struct Widening {
    /// For how many rounds iterates are joined.
    pub delay: u32,
    /// Whether the numbers of a procedure are its thresholds.
    pub thresholds: bool,
}

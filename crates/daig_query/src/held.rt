//! What cells hold.

/// What a cell with a state holds: the state's number, and the index of a loop, which a fixed point has, and what leaves
/// the loop passes on; else 0.
#[derive(Clone, Copy, Debug, PartialEq, Eq, Hash)]
pub struct Held {
    pub state: usize,
    pub index: u32,
}

//! Where the slots of a frame that is entered have their values from.
use num_bounds::Range;

/// Where a slot of a frame that is entered has its value from; the slots without one are 0.
#[derive(Clone, Copy, Debug)]
pub enum ArgumentSource {
    /// A numeric slot of the caller.
    FromSlot(u32),
    /// Any number of a range.
    InRange(Range),
}

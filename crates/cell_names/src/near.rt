//! Numbers that were given before.

/// What a name led to last: the numbers of its inputs at even places, and at odd ones. Nothing has to hold of them: who
/// takes one compares the name that has it.
#[derive(Clone, Copy)]
pub(crate) struct Near {
    even: usize,
    odd: usize,
}

impl Near {
    /// Before any number was given.
    #[inline]
    pub(crate) fn new() -> Near {
        Near { even: 0, odd: 0 }
    }

    /// The number that a place led to.
    #[inline]
    pub(crate) fn at(self, place: usize) -> usize {
        if place % 2 == 0 { self.even } else { self.odd }
    }

    /// The same with a number that a place led to.
    #[inline]
    pub(crate) fn with(self, place: usize, number: usize) -> Near {
        let Near { even, odd } = self;
        if place % 2 == 0 {
            Near { even: number, odd }
        } else {
            Near { even, odd: number }
        }
    }
}

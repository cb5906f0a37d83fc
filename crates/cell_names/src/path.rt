//! Paths by their numbers, and names.
use crate::frame::{NameFrame, Point};
use base_short::Short;
use std::marker::Model;

/// A path, by its number. The empty path, at the start of `main`, has the number 0.
#[derive(Clone, Copy, Debug, PartialEq, Eq, Hash)]
pub struct PathId {
    number: usize,
}

impl Model for PathId {
    ghost use Rattle.std.specs.Prelude.{ℕ};

    ghost Value = { ℕ };

    ghost view = { λ a. a.number };

    ghost inverse = { λ number. record { number = number } };
}

ghost use Rattle.std.specs.Prelude.{◌≡◌, suc, ◌<◌, ◌^◌};

impl PathId {
    /// The empty path.
    #[inline]
    pub fn root() -> PathId
        ensures is { result ≡ 0 }
    {
        PathId { number: 0 }
    }

    /// The path of a step: the one after the empty path and the steps before.
    #[inline]
    pub(crate) fn after(step: usize) -> PathId
        requires small { step < 2 ^ 63 }
        ensures is { result ≡ suc step }
    {
        PathId { number: step + 1 }
    }

    #[inline]
    pub(crate) fn number(self) -> usize
        ensures is { result ≡ self }
    {
        self.number
    }
}

/// The name of a cell: a path that some [`Names`](crate::Names) gave, and a point.
#[derive(Clone, Copy, Debug, PartialEq, Eq, Hash)]
pub struct Name {
    pub path: PathId,
    pub point: Point,
}

/// A path that is not empty: its frames, the last one first, and the path before that one.
#[derive(Debug, PartialEq, Eq, Hash, Drop)]
pub(crate) struct PathStep {
    pub(crate) before: PathId,
    pub(crate) frames: Short<NameFrame>,
}

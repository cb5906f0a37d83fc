//! Statements that evaluate something.
ghost use Rattle.std.specs.Prelude.{◌≡◌};
ghost use Rattle.fault_verdicts.specs.Statements.{has_points, place_of};

use fault_points::FaultPoints;
use imp_syntax::{Location, StmtId};

/// A statement, with the fault points of what it evaluates.
#[derive(Drop)]
pub struct Evaluated {
    /// The statement's number.
    pub number: u32,
    /// Whether it is a loop, which evaluates its condition at its head.
    pub is_loop: bool,
    /// The fault points, in the order of evaluation.
    pub points: FaultPoints,
}

impl Evaluated {
    /// Whether its evaluation can end a run.
    pub fn has_points(&self) -> bool
        ensures is { result ≡ has_points self.now }
    {
        !self.points.is_empty()
    }

    /// Where it evaluates: a loop at its head, each other statement before it.
    pub fn place(&self) -> Location
        ensures is { result ≡ place_of self.now }
    {
        if self.is_loop {
            Location::Head(StmtId::new(self.number))
        } else {
            Location::Before(StmtId::new(self.number))
        }
    }
}

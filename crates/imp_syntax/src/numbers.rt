//! Numbers of statements and procedures.
ghost use Rattle.std.specs.Prelude.{◌≡◌, ◌<◌, ◌^◌};

use std::marker::Model;

/// The number of a statement.
#[derive(Clone, Copy, Debug, PartialEq, Eq, Hash)]
pub struct StmtId {
    number: u32,
}

impl Model for StmtId {
    ghost use Rattle.std.specs.Prelude.{ℕ};

    ghost Value = { ℕ };

    ghost view = { λ a. a.number };

    ghost inverse = { λ number. record { number = number } };
}

impl StmtId {
    /// The statement of this number.
    pub fn new(number: u32) -> StmtId
        ensures is { result ≡ number }
    {
        StmtId { number }
    }

    /// The number.
    pub fn number(self) -> u32
        ensures is { result ≡ self }
    {
        self.number
    }
}

/// The place of a procedure in one program, counted from 0.
#[derive(Clone, Copy, Debug, PartialEq, Eq, Hash)]
pub struct ProcId {
    place: u32,
}

impl Model for ProcId {
    ghost use Rattle.std.specs.Prelude.{ℕ};

    ghost Value = { ℕ };

    ghost view = { λ a. a.place };

    ghost inverse = { λ place. record { place = place } };
}

impl ProcId {
    /// The procedure at this place.
    pub fn new(place: u32) -> ProcId
        ensures is { result ≡ place }
    {
        ProcId { place }
    }

    /// The place.
    pub fn place(self) -> u32
        ensures is { result ≡ self }
    {
        self.place
    }
}

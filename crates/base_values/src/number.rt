//! Numbers of a program.
ghost use Rattle.std.specs.Prelude.{◌≡◌, ◌<◌, ◌≤◌, ◌^◌};
ghost use Rattle.base_values.specs.Numbers.{greatest};

use std::marker::Model;

/// A number of a program, seen as its value: 0 to 2^63 - 1.
#[derive(Clone, Copy, Debug, PartialEq, Eq, Hash)]
pub struct Number {
    value: u64,
}

impl Model for Number {
    ghost use Rattle.std.specs.Prelude.{ℕ, ◌≤◌};
    ghost use Rattle.base_values.specs.Numbers.{greatest};

    ghost Value = { ℕ };

    ghost view = { λ a. a.value };

    ghost invariant = { λ a. a.value ≤ greatest };

    ghost inverse = { λ value. record { value = value } };
}

impl Number {
    /// The number of this value, which is less than 2^63.
    pub fn new(value: u64) -> Number
        requires small { value ≤ greatest }
        ensures same { result ≡ value }
    {
        Number { value }
    }

    /// The value, less than 2^63.
    pub fn value(self) -> u64
        ensures same { result ≡ self }
        ensures small { result < 2 ^ 63 }
    {
        self.value
    }
}

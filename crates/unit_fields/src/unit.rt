//! Units by number.
ghost use Rattle.std.specs.Prelude.{◌≡◌};

use std::marker::Model;

/// A unit of a device, by its number from 0. Clauses see the number.
#[derive(Clone, Copy, PartialEq, Eq)]
pub struct UnitNo(u32);

impl Model for UnitNo {
    ghost use Rattle.std.specs.Prelude.{ℕ, ◌<◌, ◌^◌};

    ghost Value = { ℕ };

    ghost view = { λ a. a.0 };

    ghost inverse = { λ n. record { 0 = n } };
}

impl UnitNo {
    /// The unit of this number.
    pub fn new(n: u32) -> UnitNo
        ensures { result ≡ n }
    {
        UnitNo(n)
    }

    /// Its number.
    pub fn number(self) -> u32
        ensures { result ≡ self }
    {
        self.0
    }
}

//! Where a page stands.

use std::marker::Model;
use unit_fields::UnitNo;

/// On what a page stands.
#[derive(Clone, Copy)]
pub enum At {
    /// On a unit of the object's own; and the CRC-32C of the page.
    Unit { unit: UnitNo, csum: u32 },
    /// On a slot of a shared blob, whose row keeps the checksum.
    Slot { sbid: u64, index: u16 },
}

/// Where a page stands.
#[derive(Clone, Copy)]
pub struct Place {
    /// On what.
    pub at: At,
}

impl Model for Place {
    ghost use Rattle.row_format.specs.Prelude.{Place};
    ghost use Rattle.blob_map.specs.Shown.{shown, of_shown};

    ghost Value = { Place };

    ghost view = { λ a. shown a.at };

    ghost inverse = { λ p. record { at = of_shown p } };
}

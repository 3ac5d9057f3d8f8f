//! The checksums that extents keep of their pages.
ghost use Rattle.std.specs.Prelude.{◌≡◌, ◌++◌, OnOk, MatchOption};
ghost use Rattle.unit_fields.specs.Prelude.{IsTooShort, bytes_of};
ghost use Rattle.row_format.specs.Prelude.{csum_bytes};
ghost use Rattle.onode_codec.specs.Reading.{ReadsCsum};

use std::alloc::AllocError;
use unit_fields::{Fields, Width, push_u32_le};

/// Writes a page's checksum behind what is there.
pub fn push_csum(out: &mut Vec<u8>, width: Width, csum: u32) -> Result<(), AllocError>
    ensures { OnOk result (out.new.items ≡ out.old.items ++ csum_bytes width csum) }
{
    match width {
        Width::FourBytes => push_u32_le(out, csum),
    }
}

/// The checksum of a page at the front.
pub fn read_csum(fields: &mut Fields, width: Width) -> Option<u32>
    ensures { MatchOption result (IsTooShort (bytes_of width 1) fields.old fields.new) (ReadsCsum width fields.old fields.new) }
{
    match width {
        Width::FourBytes => fields.u32(),
    }
}

//! The pages of an object once its units are taken.
ghost use Rattle.std.specs.Prelude.{◌≡◌, ◌<◌, ℕ, Some, length, IfOk};
ghost use Rattle.std.specs.FinMap as finite;
ghost use Rattle.plan_drafts.specs.Plans.{laid};
ghost use Rattle.page_edits.specs.Writes.{held_in};

use blob_map::{At, PageMap, Place};
use bytes::Bytes as SharedBytes;
use crc32c_csum::crc32c;
use plan_drafts::Draft;
use std::alloc::AllocError;
use unit_fields::UnitNo;

/// The pages of an object, with the pages that were put on the units that were taken. Each page that was put has its checksum reckoned here.
pub fn lay(draft: Draft, units: &[UnitNo], contents: &[SharedBytes]) -> Result<PageMap, AllocError>
    requires units { (page taking : ℕ) → finite.get draft.puts page ≡ Some taking → taking < length units.now }
    requires contents { (page taking : ℕ) → finite.get draft.puts page ≡ Some taking → taking < length contents.now }
    ensures { IfOk result (λ pages. pages ≡ (laid units.now (held_in contents.now) draft).pages) }
{
    let Draft {
        size: _,
        mut kept,
        puts,
    } = draft;
    for (page, taking) in puts.entries() {
        let unit = units[*taking as usize];
        let csum = crc32c(contents[*taking as usize].as_slice());
        let at = At::Unit { unit, csum };
        kept.set(*page, Place { at })?;
    }
    Ok(kept)
}

//! Ranges of an object's bytes, and the pages that they reach.
ghost use Rattle.std.specs.Prelude.{◌≡◌, ◌+◌, ◌-◌, ◌*◌, ◌/◌, ◌<◌, ◌≤◌, min};
ghost use Rattle.std.specs.List.{range_with_len};
ghost use Rattle.object_model.specs.Prelude.{object_limit};
ghost use Rattle.plan_drafts.specs.Edits.{has_bytes_of, covers_whole, pages_touched};

use std::ops::Range;

// A page's bytes, as an offset counts them.
const PAGE_BYTES: u64 = 4096;

/// Where a page begins in its object.
pub fn page_start(page: u32) -> u64
    ensures { result ≡ 4096 * page }
{
    PAGE_BYTES * u64::from(page)
}

/// The pages that have bytes of a range.
pub fn pages_touched(off: u64, end: u64) -> Range<u32>
    requires { end ≤ object_limit }
    ensures pages { range_with_len result.start (result.end - result.start) ≡ pages_touched off end }
    ensures start { off < end → result.start ≡ off / 4096 }
    ensures end { off < end → result.end ≡ (end + 4095) / 4096 }
    ensures order { result.start ≤ result.end }
    ensures within { result.end ≤ 32768 }
{
    if end <= off {
        return 0..0;
    }
    (off / PAGE_BYTES) as u32..end.div_ceil(PAGE_BYTES) as u32
}

/// The pages that have no other bytes than those of a range.
pub fn pages_covered(off: u64, end: u64) -> Range<u32>
    requires start { off ≤ object_limit }
    requires end { end ≤ object_limit }
    ensures { result ≡ record { start = (off + 4095) / 4096; end = end / 4096 } }
{
    off.div_ceil(PAGE_BYTES) as u32..(end / PAGE_BYTES) as u32
}

/// Whether the page has no other bytes than those of a range.
pub fn covers_whole(off: u64, end: u64, page: u32) -> bool
    ensures { result ≡ covers_whole off end page }
{
    let start = page_start(page);
    off <= start && start + PAGE_BYTES <= end
}

/// Where the bytes of a range lie in a page that it reaches.
pub fn span_in(off: u64, end: u64, page: u32) -> Range<usize>
    requires { 4096 * page < end }
    ensures start { result.start ≡ off - 4096 * page }
    ensures end { result.end ≡ min 4096 (end - 4096 * page) }
{
    let start = page_start(page);
    off.saturating_sub(start) as usize..(end - start).min(PAGE_BYTES) as usize
}

/// Whether the page has bytes of a range.
pub fn has_bytes_of(off: u64, end: u64, page: u32) -> bool
    ensures { result ≡ has_bytes_of off end page }
{
    off < end && off / PAGE_BYTES <= u64::from(page) && u64::from(page) < end.div_ceil(PAGE_BYTES)
}

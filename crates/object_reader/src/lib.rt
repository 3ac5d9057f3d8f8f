//! Reads of objects: bytes of a range, their checksum, and an object whole, in a walk over all of them. Pages whose units are in memory, since
//! their transaction isn't committed, are copied from there. The others come from the device, in reads of up to 64 consecutive units, and the
//! checksum of each is compared with the one that is kept for it: by the object's extents, or by the row of a shared blob.
//!
//! In Ceph's BlueStore this is `_do_read` with `_read_cache` and `_verify_csum`.
//!
//! Proved: over rows of which none is bad, bytes of whole units in memory, and any device of the store's size on which no unit that a
//! page stands on and that isn't in memory is in flight, a read is refused exactly where plain objects of the rows' shape refuse it, and
//! such objects there are; else it gives the bytes of the pages that it must read, cut at the size, with zeros in holes, or their
//! checksum, the size, an attribute, a key's value or the omap's header, or the names in byte order; or the first of these pages whose
//! unit holds bytes with another checksum than the kept one, with the unit and both checksums, exactly where there is such a page. A page
//! whose unit is in memory has exactly these bytes, whatever the device holds, and is never a bad page. That the device failed is said
//! only where its count rose. Where the device tells what it holds, no write ended badly of a unit with a page that isn't in memory, and
//! rows and units stand for some objects, the answer is the one that these objects give, and so never a bad unit. The laws are for any
//! bytes in memory. Of a device that doesn't tell, a read that meets no bad unit is so but for the bytes: how many they are, sizes,
//! names, refusals. A walk over a store that stands for some objects, on a device that tells, shows just these: each collection, each
//! object, its size, the checksum of its bytes, its attributes, the header of its omap and its pairs.
#![tactic(auto)]

mod answering;
mod fail;
mod reading;
mod values;
mod view;

pub use answering::answer;
pub use fail::ReadFail;
pub use view::next_object;

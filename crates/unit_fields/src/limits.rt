//! The limits of a store.

/// A unit's bytes: of the device, of a checksum and of an allocation alike. A page of an object is as long.
pub const UNIT_BYTES: usize = 4096;

/// The most units that a device has, and a store.
pub const MOST_UNITS: u32 = 1048576;

/// The fewest units of a store: two superblock slots, two log halves of the least size, and one data unit.
pub const LEAST_UNITS: u32 = 19;

/// The fewest units of a log half.
pub const LEAST_HALF: u32 = 8;

/// The most units of a log half.
pub const MOST_HALF: u32 = 65536;

/// The most bytes of an object.
pub const OBJECT_LIMIT: u64 = 134217728;

/// The most bytes of a name of an object, an attribute or an omap key.
pub const NAME_LIMIT: usize = 255;

/// The most bytes of an attribute's value, an omap value or an omap header.
pub const VALUE_LIMIT: usize = 65535;

/// The most operations of a transaction.
pub const OPS_LIMIT: usize = 256;

/// The most payload bytes of a transaction: the data of its writes, headers, attribute names and values, omap keys and values.
pub const PAYLOAD_LIMIT: u64 = 1048576;

/// The most clients of a run.
pub const CLIENT_LIMIT: u32 = 64;

/// The most book entries of a mount.
pub const BOOK_LIMIT: u32 = 1048576;

/// The greatest `prefer`: a write of at least so many bytes takes units of its own where a shorter one would be deferred.
pub const MOST_PREFER: u32 = 1048576;

/// The most pages of an extent.
pub const EXTENT_PAGES: u16 = 256;

/// The most units of one write, and of one read.
pub const PIECE_UNITS: u32 = 64;

//! What a transaction is turned into before it is accepted.

use byte_maps::Items;
use bytes::Bytes as SharedBytes;
use meta_rows::RowOp;
use std::marker::Model;
use unit_fields::UnitNo;

/// A unit that a transaction took, and the bytes that are written to it.
#[derive(Drop)]
pub struct FreshUnit {
    pub unit: UnitNo,
    /// 4096 bytes, a part of what the transaction's operation has, which it shares: they keep that in memory until its commit.
    pub bytes: SharedBytes,
}

/// A unit that a page stands on whose old bytes a transaction needs.
#[derive(Clone, Copy)]
pub struct PageUnit {
    pub unit: UnitNo,
    /// The CRC-32C that is kept for the page.
    pub csum: u32,
}

impl Model for PageUnit {
    ghost use Rattle.store_image.specs.Prelude.{PageUnit};

    ghost Value = { PageUnit };

    ghost view = { λ a. record { unit = a.unit; csum = a.csum } };

    ghost inverse = { λ p. record { unit = p.unit; csum = p.csum } };
}

/// A slot of a shared blob, as pages name it.
#[derive(Clone, Copy)]
pub struct SlotNo {
    /// The blob's number.
    pub sbid: u64,
    /// Which of its slots, from 0 on.
    pub index: u16,
}

/// A unit whose old bytes are in a page that a transaction changes in part.
#[derive(Drop)]
pub struct ReadUnit {
    pub unit: UnitNo,
    /// Its 4096 bytes, shared with the memory that they were found in or the buffer that they were read into.
    pub bytes: SharedBytes,
}

/// What accepting a transaction takes: the rows that it changes, the units that it writes, and those that it frees.
#[derive(Drop)]
pub struct Plan {
    /// The row operations that its commit applies.
    pub ops: Items<RowOp>,
    /// The units that it takes, each with the bytes that are written there before the commit.
    pub fresh: Items<FreshUnit>,
    /// The units that come back to the free ones at its commit.
    pub released: Items<UnitNo>,
    /// The units whose old bytes were read for it, in the order of their pages.
    pub read: Items<ReadUnit>,
    /// How many shared blobs it makes. They have the store's next numbers, one after the other.
    pub new_blobs: u64,
}

//! What clients ask of the store, and what it answers.
use crate::op::Refusal;
use crate::transaction::Transaction;
use byte_maps::{Bytes, Items};
use unit_fields::{CollName, Name, UnitNo};

/// A transaction or a read of one collection.
#[derive(Drop)]
pub enum Command {
    Change(Transaction),
    Read(Read),
}

/// A read of a collection or of an object in it. It changes nothing.
#[derive(Drop)]
pub enum Read {
    /// Bytes of an object, cut at its size.
    Bytes {
        coll: CollName,
        object: Name,
        off: u64,
        len: u64,
    },
    /// An object's size and the CRC-32C of its bytes.
    Sum {
        coll: CollName,
        object: Name,
    },
    /// An object's size.
    Stat {
        coll: CollName,
        object: Name,
    },
    /// An attribute's value.
    GetAttr {
        coll: CollName,
        object: Name,
        name: Name,
    },
    /// An omap key's value.
    OmapGet {
        coll: CollName,
        object: Name,
        key: Name,
    },
    /// The omap header, empty where none was set.
    OmapHeader {
        coll: CollName,
        object: Name,
    },
    /// The names of a collection's objects, in byte order.
    List {
        coll: CollName,
    },
}

/// What the store answers. Plain objects give no `NoSpace`, `MetaFull` and `Csum`: these speak of the device.
#[derive(Drop)]
pub enum Answer {
    /// The transaction takes effect.
    Accepted,
    Refused(Refusal),
    /// A transaction takes more data units than are free.
    NoSpace { need: u32, free: u32 },
    /// A transaction's record takes more units than the log has room for.
    MetaFull { need: u32, room: u32 },
    /// A unit that had to be read has another checksum than its row keeps.
    Csum { unit: UnitNo, kept: u32, found: u32 },
    Bytes(Bytes),
    Size(u64),
    Sum { size: u64, crc: u32 },
    Names(Items<Bytes>),
}

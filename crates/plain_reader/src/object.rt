//! The bytes of an object, of its rows and its pages.

use crate::blobs::slot_of;
use crate::image::{start_of, unit};
use crate::reader::{Reader, number_at};
use crate::values::{behind_name, behind_names};
use byte_maps::Bytes;
use crc32c_csum::crc32c;
use std::alloc::Global;

/// The most bytes of an object.
const MOST_BYTES: u64 = 134_217_728;

/// An object.
#[derive(Drop)]
pub struct Object {
    /// Its bytes, zeros where it has no page.
    pub bytes: Vec<u8>,
    /// How many shards it has.
    pub shards: usize,
    /// Whether each of its rows says what such a row may say, and each page has the checksum that its row keeps.
    pub is_whole: bool,
}

/// Whether a key is that of a shard of any object: `O`, two names that zero bytes end, `o`, the page, and `x`.
pub fn is_shard_key(key: &[u8]) -> bool {
    let [b'O', names @ ..] = key else {
        return false;
    };
    matches!(
        behind_name(names).and_then(behind_name),
        Some([b'o', _, _, _, _, b'x'])
    )
}

/// Whether the row is a shard of this object.
fn is_shard(key: &[u8], coll: &[u8], name: &[u8]) -> bool {
    matches!(
        behind_names(key, coll, name),
        Some((b'O', [b'o', _, _, _, _, b'x']))
    )
}

/// Whether the row is the onode of this object.
fn is_onode(key: &[u8], coll: &[u8], name: &[u8]) -> bool {
    matches!(behind_names(key, coll, name), Some((b'O', [b'o'])))
}

/// The value of an object's onode.
fn onode_of<'a>(rows: &'a [(Bytes, Bytes)], coll: &[u8], name: &[u8]) -> Option<&'a [u8]> {
    for row in rows {
        if is_onode(row.0.as_slice(), coll, name) {
            return Some(row.1.as_slice());
        }
    }
    None
}

/// Where the pages of an extent stand: on units of the object's own, with a checksum for each, or on slots of a shared blob.
#[derive(Clone, Copy)]
pub enum Run<'a> {
    Units { first: u64, sums: &'a [u8] },
    Slots { blob: u64, first: u64 },
}

/// An extent of a shard. One that can't be read has no pages.
#[derive(Clone, Copy)]
pub struct Extent<'a> {
    page: u64,
    /// How many pages it has, and so how many units or slots.
    pub count: u64,
    pub run: Run<'a>,
}

impl Extent<'_> {
    /// Whether one of its pages stands on the slot.
    pub fn stands_on(&self, of: u64, index: u64) -> bool {
        match self.run {
            Run::Units { .. } => false,
            Run::Slots { blob, first } => {
                blob == of && first <= index && index < first.saturating_add(self.count)
            }
        }
    }
}

/// The rest of an extent on units, behind its kind.
fn read_units<'a>(fields: &mut Reader<'a>, page: u64, count: u64) -> Extent<'a> {
    let first = fields.number(4);
    let sums = fields.bytes(count.saturating_mul(4) as usize);
    Extent {
        page,
        count: sums.len() as u64 / 4,
        run: Run::Units { first, sums },
    }
}

/// The rest of one on slots.
fn read_slots<'a>(fields: &mut Reader<'a>, page: u64, count: u64) -> Extent<'a> {
    let blob = fields.number(8);
    let first = fields.number(2);
    Extent {
        page,
        count: count.min(256),
        run: Run::Slots { blob, first },
    }
}

/// The next extent.
pub fn read_extent<'a>(fields: &mut Reader<'a>) -> Extent<'a> {
    let page = fields.number(4);
    let count = fields.number(2);
    let kind = fields.number(1);
    let extent = if kind == 1 {
        read_slots(fields, page, count)
    } else {
        read_units(fields, page, count)
    };
    if count == 0 || 256 < count || 1 < kind {
        fields.fail();
    }
    extent
}

impl Object {
    /// An object of so many zeros.
    fn new(alloc: Global, size: u64) -> Object {
        let mut bytes = Vec::new(alloc);
        let is_whole = size <= MOST_BYTES && bytes.resize(size as usize, 0u8).is_ok();
        Object {
            bytes,
            shards: 0,
            is_whole,
        }
    }

    /// Lays a page over the bytes, cut at their end.
    fn lay(&mut self, page: u64, unit: &[u8]) {
        match self.bytes.split_at_mut_checked(start_of(page)) {
            Some((_, rest)) => {
                let count = rest.len().min(unit.len());
                rest[..count].copy_from_slice(&unit[..count]);
            }
            None => self.is_whole = false,
        }
    }

    /// Lays the page on a unit over the bytes, where it has this checksum.
    fn lay_unit(&mut self, image: &[u8], page: u64, at: u64, sum: u64) {
        let found = unit(image, at);
        if found.is_empty() || u64::from(crc32c(found)) != sum {
            self.is_whole = false;
        } else {
            self.lay(page, found);
        }
    }

    /// Lays the page on a slot over the bytes.
    fn lay_slot(
        &mut self,
        image: &[u8],
        rows: &[(Bytes, Bytes)],
        page: u64,
        blob: u64,
        index: u64,
    ) {
        match slot_of(rows, blob, index) {
            Some(slot) => self.lay_unit(image, page, slot.unit, slot.sum),
            None => self.is_whole = false,
        }
    }

    /// Lays the page of this number of an extent over the bytes.
    fn lay_page(&mut self, image: &[u8], rows: &[(Bytes, Bytes)], extent: &Extent<'_>, i: u64) {
        let page = extent.page.saturating_add(i);
        match extent.run {
            Run::Units { first, sums } => {
                let sum = number_at(sums, i.saturating_mul(4) as usize, 4);
                self.lay_unit(image, page, first.saturating_add(i), sum);
            }
            Run::Slots { blob, first } => {
                self.lay_slot(image, rows, page, blob, first.saturating_add(i));
            }
        }
    }

    /// Lays the pages of an extent over the bytes.
    fn lay_extent(&mut self, image: &[u8], rows: &[(Bytes, Bytes)], extent: &Extent<'_>) {
        for i in 0..extent.count {
            self.lay_page(image, rows, extent, i);
        }
    }

    /// Lays the pages of a shard over the bytes.
    fn lay_shard(&mut self, image: &[u8], rows: &[(Bytes, Bytes)], shard: &[u8]) {
        let mut fields = Reader::new(shard);
        for _ in 0..shard.len() {
            if !fields.is_empty() {
                self.lay_extent(image, rows, &read_extent(&mut fields));
            }
        }
        self.is_whole = self.is_whole && fields.is_done();
        self.shards = self.shards.wrapping_add(1);
    }

    /// Lays the pages of all its shards over the bytes, and counts the shards.
    fn lay_shards(&mut self, image: &[u8], rows: &[(Bytes, Bytes)], coll: &[u8], name: &[u8]) {
        for row in rows {
            if is_shard(row.0.as_slice(), coll, name) {
                self.lay_shard(image, rows, row.1.as_slice());
            }
        }
    }
}

/// The size in an onode; more than an object's where it isn't one.
fn size_of(onode: &[u8]) -> u64 {
    if onode.len() == 8 {
        number_at(onode, 0, 8)
    } else {
        u64::MAX
    }
}

/// The object under two names, if there is one.
pub fn read_object(
    alloc: Global,
    image: &[u8],
    rows: &[(Bytes, Bytes)],
    coll: &[u8],
    name: &[u8],
) -> Option<Object> {
    match onode_of(rows, coll, name) {
        Some(onode) => {
            let mut object = Object::new(alloc, size_of(onode));
            object.lay_shards(image, rows, coll, name);
            Some(object)
        }
        None => None,
    }
}

//! Keys of rows, each made in memory of its own.
//!
//! A row's key is made on the stack, where the longest one has room, and copied into a byte string, which takes memory for long keys
//! alone.
ghost use Rattle.std.specs.Prelude.{◌≡◌, ◌+◌, ◌<◌, ◌≤◌, [], ◌∷◌, ◌++◌, length, IfOk, IfSome};
ghost use Rattle.arrayvec.specs.ArrayVec.{array_vec_len};
ghost use Rattle.std.specs.Int.{w64, to_be_bytes};
ghost use Rattle.std.specs.Option.{option_copied};
ghost use Rattle.unit_fields.specs.Prelude.{IsName, IsCollName};
ghost use Rattle.meta_rows.specs.Prelude.{IsKey};
ghost use Rattle.row_format.specs.Keys.{
  object_key,
  coll_key,
  onode_key,
  shard_key,
  attr_key,
  header_key,
  omap_key,
  deferred_key,
  shared_key,
  bitmap_key,
};
ghost use Rattle.onode_codec.specs.Fronts.{colls_first, objects_first, objects_end};

use arrayvec::ArrayVec;
use byte_maps::Bytes;
use std::alloc::{AllocError, Global};
use unit_fields::{CollName, Name};

/// The kind of a row, by the first byte of its key.
#[derive(Clone, Copy)]
pub enum RowKind {
    /// A collection.
    Collection = b'C' as isize,
    /// An object's onode, and the shards of its extents.
    Object = b'O' as isize,
    /// An attribute.
    Attribute = b'A' as isize,
    /// The header of an omap, and its pairs.
    Omap = b'M' as isize,
    /// A deferred write.
    Deferred = b'L' as isize,
    /// A shared blob.
    Shared = b'X' as isize,
    /// The bits of 128 units of the freelist.
    Bitmap = b'b' as isize,
}

/// The end of the keys of collections: they are those from `colls_first` of none on that are below it.
pub const COLLS_END: &[u8] = b"D";

// It ends a name within a key. No name has it.
const END: u8 = 0;

// The least byte above it.
const BEHIND_END: u8 = 1;

// The most bytes of a key, which a buffer on the stack has room for.
const ROOM: usize = 648;

// A key that is being made. It takes no memory, and `Bytes` takes none for a short one.
type KeyBuffer = ArrayVec<u8, ROOM>;

// Writes bytes, for which there is room.
fn push_bytes(key: &mut KeyBuffer, bytes: &[u8])
    requires { array_vec_len key.old + length bytes.now ≤ 648 }
    ensures items { key.new.items ≡ key.old.items ++ bytes.now }
    ensures len { array_vec_len key.new ≡ array_vec_len key.old + length bytes.now }
{
    if key.try_extend_from_slice(bytes).is_err() {
        unreachable!()
    }
}

// Writes a name, and what ends it.
fn push_name(key: &mut KeyBuffer, name: &[u8])
    requires { array_vec_len key.old + length name.now < 648 }
    ensures items { key.new.items ≡ key.old.items ++ (name.now ++ 0 ∷ []) }
    ensures len { array_vec_len key.new ≡ array_vec_len key.old + length name.now + 1 }
{
    push_bytes(key, name);
    key.push(END);
}

// A kind, the names of a collection and of an object in it, and what stands behind.
fn object_key(
    alloc: Global,
    kind: u8,
    coll: &CollName,
    object: &Name,
    rest: &[u8],
) -> Result<Bytes, AllocError>
    requires { length rest.now ≤ 256 }
    ensures key { IfOk result (λ key. key ≡ object_key kind coll.now object.now rest.now) }
    ensures size { IfOk result IsKey }
    ensures names { IsCollName coll.now × IsName object.now }
{
    let coll = coll.as_slice();
    let object = object.as_slice();
    let mut key = KeyBuffer::new();
    key.push(kind);
    push_name(&mut key, coll);
    push_name(&mut key, object);
    push_bytes(&mut key, rest);
    Bytes::from_slice(alloc, key.as_slice())
}

// A kind and one number.
fn of_number(alloc: Global, kind: u8, number: u64) -> Result<Bytes, AllocError>
    ensures key { IfOk result (λ key. key ≡ kind ∷ to_be_bytes w64 number) }
    ensures size { IfOk result IsKey }
{
    let mut key = KeyBuffer::new();
    key.push(kind);
    push_bytes(&mut key, &number.to_be_bytes());
    Bytes::from_slice(alloc, key.as_slice())
}

/// The key of a collection's row. The row is there exactly where the collection is, and its value is empty.
pub fn coll_key(alloc: Global, coll: &CollName) -> Result<Bytes, AllocError>
    ensures key { IfOk result (λ key. key ≡ coll_key coll.now) }
    ensures size { IfOk result IsKey }
    ensures coll { IsCollName coll.now }
{
    let mut key = KeyBuffer::new();
    key.push(RowKind::Collection as u8);
    push_bytes(&mut key, coll.as_slice());
    Bytes::from_slice(alloc, key.as_slice())
}

/// Where the keys of the collections begin that are behind another one in byte order, or of all.
pub fn colls_first(alloc: Global, after: Option<&CollName>) -> Result<Bytes, AllocError>
    ensures { IfOk result (λ key. key ≡ colls_first (option_copied after.entry)) }
{
    let mut key = KeyBuffer::new();
    key.push(RowKind::Collection as u8);
    if let Some(coll) = after {
        push_name(&mut key, coll.as_slice());
    }
    Bytes::from_slice(alloc, key.as_slice())
}

/// The key of an object's onode.
pub fn onode_key(alloc: Global, coll: &CollName, object: &Name) -> Result<Bytes, AllocError>
    ensures key { IfOk result (λ key. key ≡ onode_key coll.now object.now) }
    ensures size { IfOk result IsKey }
    ensures names { IsCollName coll.now × IsName object.now }
{
    object_key(alloc, RowKind::Object as u8, coll, object, b"o")
}

/// The key of the shard of an object's extents that begins at this page.
pub fn shard_key(
    alloc: Global,
    coll: &CollName,
    object: &Name,
    page: u32,
) -> Result<Bytes, AllocError>
    ensures key { IfOk result (λ key. key ≡ shard_key coll.now object.now page) }
    ensures size { IfOk result IsKey }
    ensures names { IsCollName coll.now × IsName object.now }
{
    let mut rest = [b'o', 0, 0, 0, 0, b'x'];
    rest[1..5].copy_from_slice(&page.to_be_bytes());
    object_key(alloc, RowKind::Object as u8, coll, object, &rest)
}

/// The end of the keys of an object's shards: they are those from `shard_key` of page 0 on that are below it.
pub fn shards_end(alloc: Global, coll: &CollName, object: &Name) -> Result<Bytes, AllocError>
    ensures key { IfOk result (λ key. key ≡ object_key 0x4f coll.now object.now (0x70 ∷ [])) }
    ensures size { IfOk result IsKey }
    ensures names { IsCollName coll.now × IsName object.now }
{
    object_key(alloc, RowKind::Object as u8, coll, object, b"p")
}

// The front of the keys of a collection's objects, with this byte behind the collection's name.
fn objects_front(alloc: Global, coll: &CollName, behind: u8) -> Result<Bytes, AllocError>
    ensures key { IfOk result (λ key. key ≡ 0x4f ∷ (coll.now ++ behind ∷ [])) }
    ensures coll { IsCollName coll.now }
{
    let mut key = KeyBuffer::new();
    key.push(RowKind::Object as u8);
    push_bytes(&mut key, coll.as_slice());
    key.push(behind);
    Bytes::from_slice(alloc, key.as_slice())
}

/// Where the keys of a collection's objects begin that are behind another one in byte order, or of all: behind all shards of that one.
pub fn objects_first(
    alloc: Global,
    coll: &CollName,
    after: Option<&Name>,
) -> Result<Bytes, AllocError>
    ensures key { IfOk result (λ key. key ≡ objects_first coll.now (option_copied after.entry)) }
    ensures named { IfSome (option_copied after.entry) IsName }
{
    match after {
        Some(object) => {
            let _bytes = object.as_slice();
            shards_end(alloc, coll, object)
        }
        None => objects_front(alloc, coll, END),
    }
}

/// The end of the keys of a collection's objects.
pub fn objects_end(alloc: Global, coll: &CollName) -> Result<Bytes, AllocError>
    ensures key { IfOk result (λ key. key ≡ objects_end coll.now) }
    ensures coll { IsCollName coll.now }
{
    objects_front(alloc, coll, BEHIND_END)
}

/// The key of an attribute.
pub fn attr_key(
    alloc: Global,
    coll: &CollName,
    object: &Name,
    attr: &Name,
) -> Result<Bytes, AllocError>
    ensures key { IfOk result (λ key. key ≡ attr_key coll.now object.now attr.now) }
    ensures size { IfOk result IsKey }
    ensures names { IsCollName coll.now × IsName object.now × IsName attr.now }
{
    object_key(
        alloc,
        RowKind::Attribute as u8,
        coll,
        object,
        attr.as_slice(),
    )
}

/// The key of an object's omap header.
pub fn header_key(alloc: Global, coll: &CollName, object: &Name) -> Result<Bytes, AllocError>
    ensures key { IfOk result (λ key. key ≡ header_key coll.now object.now) }
    ensures size { IfOk result IsKey }
    ensures names { IsCollName coll.now × IsName object.now }
{
    object_key(alloc, RowKind::Omap as u8, coll, object, b"-")
}

/// The key of a pair of an object's omap. It stands behind the key of the omap's header.
pub fn omap_key(
    alloc: Global,
    coll: &CollName,
    object: &Name,
    key: &Name,
) -> Result<Bytes, AllocError>
    ensures key { IfOk result (λ made. made ≡ omap_key coll.now object.now key.now) }
    ensures size { IfOk result IsKey }
    ensures names { IsCollName coll.now × IsName object.now × IsName key.now }
{
    let mut rest = KeyBuffer::new();
    rest.push(b'.');
    push_bytes(&mut rest, key.as_slice());
    object_key(alloc, RowKind::Omap as u8, coll, object, rest.as_slice())
}

/// The key of a deferred write, by its sequence number.
pub fn deferred_key(alloc: Global, seq: u64) -> Result<Bytes, AllocError>
    ensures key { IfOk result (λ key. key ≡ deferred_key seq) }
    ensures size { IfOk result IsKey }
{
    of_number(alloc, RowKind::Deferred as u8, seq)
}

/// The key of a shared blob, by its number (Ceph's sbid).
pub fn shared_key(alloc: Global, sbid: u64) -> Result<Bytes, AllocError>
    ensures key { IfOk result (λ key. key ≡ shared_key sbid) }
    ensures size { IfOk result IsKey }
{
    of_number(alloc, RowKind::Shared as u8, sbid)
}

/// The key of a row of the freelist: the bits of the 128 units from 128 times `row` on.
pub fn bitmap_key(alloc: Global, row: u32) -> Result<Bytes, AllocError>
    ensures key { IfOk result (λ key. key ≡ bitmap_key row) }
    ensures size { IfOk result IsKey }
{
    let mut key = [RowKind::Bitmap as u8, 0, 0, 0, 0];
    key[1..].copy_from_slice(&row.to_be_bytes());
    Bytes::from_slice(alloc, &key)
}

//! An object while a transaction is planned.

use blob_map::PageMap;
use number_map::NumberMap;

/// An object as the operations of a transaction so far leave it. Each of its pages that isn't a hole stands where it stood before the
/// transaction, or the transaction has put it on a unit that it took.
///
/// In Ceph's BlueStore the onode itself is changed as the operations of a transaction are applied, before any of it is written.
#[derive(Drop)]
pub struct Draft {
    /// How many bytes it has.
    pub size: u64,
    /// The pages that stand where they stood, each with its place.
    pub kept: PageMap,
    /// The pages that the transaction has put, each with the number of its taking: how many units the transaction had taken before that
    /// page's unit.
    pub puts: NumberMap<u32>,
}

//! Byte strings compared eight bytes at a time. Byte by byte each takes more than ten instructions, and the keys of one object's rows have a
//! long front in common.
ghost use Rattle.std.specs.Prelude.{◌≡◌};
ghost use Rattle.byte_maps.specs.ByteMap.{byte_order};

use std::cmp::Ordering;

// How two byte strings compare, byte by byte.
fn rest_order(one: &[u8], other: &[u8]) -> Ordering
    ensures { result ≡ byte_order one.now other.now }
{
    let (mut left, mut right) = (one, other);
    while let Some((here, behind)) = left.split_first() {
        let Some((there, beyond)) = right.split_first() else {
            return Ordering::Greater;
        };
        if *here != *there {
            return here.cmp(there);
        }
        left = behind;
        right = beyond;
    }
    if right.is_empty() {
        Ordering::Equal
    } else {
        Ordering::Less
    }
}

/// How two byte strings compare: by numbers of eight bytes as long as both have so many, and then byte by byte.
pub fn byte_order(one: &[u8], other: &[u8]) -> Ordering
    ensures { result ≡ byte_order one.now other.now }
{
    let (mut left, mut right) = (one, other);
    while let Some((here, behind)) = left.split_first_chunk::<8>() {
        let Some((there, beyond)) = right.split_first_chunk::<8>() else {
            return rest_order(left, right);
        };
        let (first, second) = (u64::from_be_bytes(*here), u64::from_be_bytes(*there));
        if first != second {
            return first.cmp(&second);
        }
        left = behind;
        right = beyond;
    }
    rest_order(left, right)
}

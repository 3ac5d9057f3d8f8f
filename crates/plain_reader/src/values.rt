//! The keys of an object's rows, and those of its values beside its bytes: its attributes, its omap header and its omap.

/// The most bytes of a value.
const MOST_BYTES: usize = 65535;

/// What stands behind a name and the zero byte that ends it.
pub fn behind_name(bytes: &[u8]) -> Option<&[u8]> {
    let at = bytes.iter().position(|byte| *byte == 0)?;
    let (_name, rest) = bytes.split_at_checked(at)?;
    rest.get(1..)
}

/// Whether this is a name: 1 to 255 bytes, none of them zero.
fn is_name(bytes: &[u8]) -> bool {
    !bytes.is_empty() && bytes.len() <= 255 && !bytes.iter().any(|byte| *byte == 0)
}

/// Whether a row of this kind may have this behind its object's names, and this value.
fn fits(kind: u8, rest: &[u8], value: &[u8]) -> bool {
    let short = value.len() <= MOST_BYTES;
    match (kind, rest) {
        (b'A', name) => short && is_name(name),
        (b'M', [b'-']) => short && !value.is_empty(),
        (b'M', [b'.', key @ ..]) => short && is_name(key),
        _ => false,
    }
}

/// Whether the row is one of an attribute, of an omap header or of an omap pair.
pub fn is_value(key: &[u8], value: &[u8]) -> bool {
    let [kind, names @ ..] = key else {
        return false;
    };
    match behind_name(names).and_then(behind_name) {
        Some(rest) => fits(*kind, rest, value),
        None => false,
    }
}

/// A row's kind, and what stands behind these names in its key.
pub fn behind_names<'a>(key: &'a [u8], coll: &[u8], name: &[u8]) -> Option<(u8, &'a [u8])> {
    let [kind, names @ ..] = key else {
        return None;
    };
    let Some([0, rest @ ..]) = names.strip_prefix(coll) else {
        return None;
    };
    match rest.strip_prefix(name) {
        Some([0, rest @ ..]) => Some((*kind, rest)),
        _ => None,
    }
}

/// The row's kind and the place of one of this object's values, by the key of its row: an attribute's name, `-` of the header, or a
/// point and an omap key.
pub fn value_place<'a>(key: &'a [u8], coll: &[u8], name: &[u8]) -> Option<(u8, &'a [u8])> {
    match behind_names(key, coll, name) {
        Some((kind, place)) if kind == b'A' || kind == b'M' => Some((kind, place)),
        _ => None,
    }
}

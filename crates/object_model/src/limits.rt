//! The limits of objects.
ghost use Rattle.std.specs.Prelude.{◌≡◌, ◌+◌, nat_lt};
ghost use Rattle.object_model.specs.Effect.{object_limit};

use unit_fields::limits::OBJECT_LIMIT;

/// Whether a range ends past the limit of an object.
pub fn ends_too_far(off: u64, len: u64) -> bool
    ensures { result ≡ nat_lt object_limit (off + len) }
{
    OBJECT_LIMIT < len || OBJECT_LIMIT - len < off
}

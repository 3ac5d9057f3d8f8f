//! What operations lay over an object's bytes.
ghost use Rattle.std.specs.Prelude.{◌≡◌, ◌+◌, ◌≤◌};
ghost use Rattle.object_model.specs.Prelude.{object_limit};
ghost use Rattle.plan_drafts.specs.Edits.{grown, edit_of, IsInLimits};
ghost use Rattle.page_edits.specs.Ranges.{IsOnBytes, span_by};

use object_model::Op;
use unit_fields::limits::OBJECT_LIMIT;

/// The bytes of an object that an operation lays anew or clears, and how long the object is then.
#[derive(Drop)]
pub struct Span {
    pub off: u64,
    pub end: u64,
    pub clears: bool,
    pub size: u64,
}

// How long an object of so many bytes is with others laid over it: none leave it as it is.
fn grown(size: u64, off: u64, len: u64) -> u64
    requires { off + len ≤ object_limit }
    ensures { result ≡ grown size off len }
{
    if len == 0 { size } else { size.max(off + len) }
}

// So many bytes from an offset on.
fn laid(size: u64, off: u64, len: u64, clears: bool) -> Span
    requires { off + len ≤ object_limit }
    ensures { result ≡ record { off = off; end = off + len; clears = clears; size = grown size off len } }
{
    Span {
        off,
        end: off + len,
        clears,
        size: grown(size, off, len),
    }
}

/// What an operation lays anew of an object of so many bytes.
pub fn span_of(op: &Op, size: u64) -> Span
    requires on_bytes { IsOnBytes op.now }
    requires within { IsInLimits op.now }
    ensures span { result ≡ span_by (edit_of op.now size) }
    ensures limit { result.end ≤ object_limit }
{
    match op {
        Op::Write {
            object: _,
            off,
            bytes,
        } => laid(size, *off, bytes.len() as u64, false),
        Op::Zero {
            object: _,
            off,
            len,
        } => laid(size, *off, *len, true),
        Op::Truncate {
            object: _,
            size: to,
        } => Span {
            off: *to,
            end: if *to < size { OBJECT_LIMIT } else { *to },
            clears: true,
            size: *to,
        },
        _ => Span {
            off: 0,
            end: 0,
            clears: false,
            size,
        },
    }
}

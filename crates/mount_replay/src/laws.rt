//! The law of a mount. Its body is empty: the clauses are the law.
ghost use Rattle.mount_replay.specs.Mounted.{OpensTheObjects, RefusesByTheCause};

/// From contents that stand for some objects `mount` opens a kernel of exactly these objects, or answers WornOut, NotExact, a fault or want
/// of memory, each by its cause: never NoSuper, and never BadRow. The premises are those of `mount`'s clauses `ok` and `fails`.
pub fn a_mount_opens_the_objects()
    ensures opens { OpensTheObjects }
    ensures refuses { RefusesByTheCause }
{}

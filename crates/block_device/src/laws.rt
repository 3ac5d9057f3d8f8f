// The laws of the disk model. Each function does nothing: its contract is the law, and what stands
// on it can take it from there.
ghost use Rattle.block_device.specs.Laws.{CleanHasOneImage, ImagesShrink, FlushCleans, WriteDirties, DirtyIsTested, TornIsCrash, CrashByDirty, StableIsGood};

/// Where no unit is dirty a crash leaves what was last written, and nothing else.
pub fn clean_has_one_image()
    ensures { CleanHasOneImage }
{}

/// After further events that write nothing, each image that a crash may leave is one that it could
/// leave before.
pub fn images_shrink()
    ensures { ImagesShrink }
{}

/// A flush that is submitted after a write's good end, and ends well, makes the write's units clean.
pub fn flush_cleans()
    ensures { FlushCleans }
{}

/// A write makes its units dirty from its submission on.
pub fn write_dirties()
    ensures { WriteDirties }
{}

/// A unit is dirty where the test says so, and clean where it does not.
pub fn dirty_is_tested()
    ensures { DirtyIsTested }
{}

/// The image of each tear is one that a crash may leave.
pub fn torn_is_crash()
    ensures { TornIsCrash }
{}

/// What a crash may leave, said by the test of dirtiness.
pub fn crash_by_dirty()
    ensures { CrashByDirty }
{}

/// A stable write ended well, and not badly too.
pub fn stable_is_good()
    ensures { StableIsGood }
{}

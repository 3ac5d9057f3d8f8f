//! What a store knows of its superblock slots and of the active half of its log, from one event of the device to the next, and
//! what a crash leaves of them.
//!
//! Proved: each event of the device keeps it; what a crash leaves of the log. The same of a checkpoint, the committed rows as one record
//! in the other half, and of the superblock slot that follows it: the halves change places, and a crash in between leaves one of the
//! two superblocks and the same rows.
#![tactic(auto)]

mod laws;

pub use laws::{
    a_checkpoint_begins, a_checkpoint_gives_a_run, a_checkpoint_is_flushed,
    a_checkpoint_of_the_rows_begins, a_crash_at_a_switch_leaves_a_prefix,
    a_crash_leaves_either_half, a_crash_leaves_the_records, a_crash_leaves_the_rows,
    a_crash_now_leaves_a_prefix, a_crash_then_leaves_the_objects, a_flush_of_a_unit, a_fresh_log,
    a_half_that_is_cleared, a_log_stands_for_its_objects, a_log_that_is_found, a_piece_is_given,
    a_record_begins, a_record_is_committed, a_record_of_the_rows, an_event_behind_the_records,
    an_event_elsewhere_keeps_a_checkpoint, an_event_elsewhere_keeps_the_half,
    an_event_elsewhere_keeps_the_slots, sound_rows_stay_sound, sound_rows_survive_a_crash,
    the_flush_has_ended, the_flush_of_a_record, the_halves_change_places, the_next_slot_is_written,
    the_pieces_of_a_checkpoint,
};

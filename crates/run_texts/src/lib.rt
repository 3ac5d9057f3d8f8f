//! What a run of the program prints, and the status that it ends with: a function of how its work ended, of the book that it
//! left or of what a walk saw. The text goes to the sink piece by piece and takes no memory, so a run whose memory has ended
//! still says what came of it.
//!
//! Proved: the text of a run is a function of its end and of its book, or of what its walk has shown. A sink that tells got exactly this
//! text, and the status is the one of that end; or the sink's count rose, it got a front of the text, and the status is 6. Printing can't
//! fail for want of memory: the text goes to the sink in pieces of at most 16384 bytes, and memory is taken for speed alone, in telling
//! which transactions are acknowledged and where each client's commands are. Once the sink has failed nothing more goes to it, so a write
//! that failed isn't tried again.
#![tactic(auto)]

mod dump_printer;
mod dump_texts;
mod fsck_texts;
mod hex;
mod names;
mod printer;
mod replies;
mod reply_index;
mod reports;
mod status;
mod step_texts;
mod texts;
mod work_end;

pub use dump_printer::DumpPrinter;
pub use reports::{report_fsck, report_mkfs, report_step, report_stop, show_usage};
pub use status::{Status, Stop};
pub use work_end::WorkEnd;

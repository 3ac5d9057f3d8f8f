//! The kernel of the store: it takes transactions, and drives the device, one event a call, until they are committed and
//! acknowledged. Who calls it chooses the step; each step does one thing, and says what. It answers commands that read, too, by the rows with
//! all accepted transactions, by the bytes in memory of those that aren't committed, and by what the device holds of all other units.
//!
//! It stands in the place of the transaction state machine of Ceph's BlueStore (`_txc_state_proc` and the threads behind it).
//! Any number of transactions are under way at a time: each waits for its own data writes, those of a collection keep their order, and one batch
//! after the other goes to the log. Where the record of the one that comes next is too long for what the half of the log has left, a checkpoint
//! of the committed rows goes into the other half in place of a batch, and the halves change places.
//!
//! Proved: a transaction is accepted or refused as plain objects of the submitted rows' shape say, then NoSpace exactly where units don't
//! suffice, then Csum at the first unit that is bad of those whose old bytes it keeps, then MetaFull exactly where room doesn't suffice,
//! each with its numbers; so one that is accepted, or refused for want of room, has met no bad unit: old bytes that aren't in memory were
//! read with the checksum that is kept; an accepted one takes the lowest free units, and its row operations are those of its plan; one that
//! comes to a kernel that is down, or whose book is full, is turned away, and nothing changes. Data go to the device in maximal runs of
//! consecutive units, ascending, of at most 64, and a record or a checkpoint in pieces of at most 64, as many at a time as the device
//! takes. Each step is ready exactly as the table says, and does exactly what its row says, at the device and to the state; a step refused
//! for memory leaves both as they were; a submission that ends badly makes the kernel down, by the first such ticket, and from then on it
//! only takes ends. The kernel's type keeps what `IsKept` says, and `submit`, `ask` and `step` ensure it of what they leave (clause
//! `kept`): among others that the bitmap of the committed and of the submitted rows is exact but for what was leaked before, that no unit
//! has two owners, and that a data unit is idle exactly where it isn't busy and is held by as many as the submitted rows say, so that a
//! released unit comes back at the commit and not before. A read (`Kernel::ask`), which may come at any time too, is answered by the rows
//! with all accepted transactions, by the bytes in memory of those that aren't committed (`memory_of`), and by what the device holds of all
//! other units; it has its entry in the book, refusals and bad units too, and nothing else changes. `Kernel::next_collection` and
//! `Kernel::next_object` walk over the same rows and bytes without an entry, and change nothing. Each kernel keeps prefix durability, up or
//! down, and each of its calls proves it again (`Kernel::facts`): where its device tells the log, and the contents stood for some objects,
//! with no unit dirty, when the mount began, at every cut of the log since, whatever image the crash allows, unless something torn is valid
//! by chance, stands for those objects after the first commits of the kernel's book, among them every one acknowledged before the cut, and
//! its bitmap is as exact as that of the contents was.
#![tactic(auto)]

mod batch;
mod buffers;
mod ends;
mod flights;
mod kernel;
mod prepared;
mod refused;
mod space;
mod step_fail;
mod switching;
mod unanswered;

pub use kernel::Kernel;
pub use refused::Refused;
pub use step_fail::StepFail;
pub use unanswered::{Unanswered, WalkFail};

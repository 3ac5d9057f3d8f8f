//! The transactions whose data writes are under way, any number of them. No call goes over all that wait.
//!
//! Proved: `Contexts` is any number of them: the next data write is the one of the definitions, a change of one leaves the others, and
//! what a batch may take is the one that the definitions choose, the first whose writes have all ended and before which none of its
//! collection waits, and what a batch of several would take is their `choice`; a call that memory fails leaves all as it was, and but for
//! `push`, `choose` and the bytes of a write none takes memory. Maps by place and by name, queues and heaps stand for searches; that no call
//! takes time in proportion to how many wait is no clause.
#![tactic(auto)]

mod by_place;
mod choosing;
mod contexts;
mod done_heads;
mod place_map;
mod sequencers;
mod submissions;

pub use by_place::ByPlace;
pub use choosing::Choice;
pub use contexts::Contexts;
pub use done_heads::DoneHeads;
pub use place_map::PlaceMap;
pub use sequencers::Sequencers;
pub use submissions::Submissions;

//! The ends of a store over files and standard output: devices and scripts by their paths, and the text of a run.
//!
//! Of a file or an output no clause can say what it gives or takes. So this edge is thin: what it promises is the counts
//! that the crates below rest on, and the rest is what the system does.
//!
//! Proved: its ends keep the traits of `end_points` over files and standard output: the counts of faults, and that a call which went well
//! has counted none. What the system does there is trusted.
#![tactic(auto)]

mod bay;
mod sink;
mod source;
mod standard;

pub use bay::FileBay;
pub use sink::OutSink;
pub use source::FileSource;
pub use standard::StandardDescriptors;

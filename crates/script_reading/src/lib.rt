//! The scripts of a run: they are opened by their names and read, one behind another, before any device is opened.
//!
//! Proved: an Ok has the lines of the scripts under all the names, in order, and no source of them nor the bay has counted a fault. A bad
//! line is answered by the number of its script and its own, which is the first of that script; the scripts before have none, and no read
//! up to that script's end failed. A fault is answered only where the count of the last source or of the bay rose. Room for all sources
//! is made before the first script is opened.
#![tactic(auto)]

mod reading;
mod unread;

pub use reading::read_scripts;
pub use unread::Unread;

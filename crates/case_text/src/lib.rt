//! Cases in text: what devices hold, what scripts say, how the ends of a store behave, and which calls fail. A program reads such
//! cases from files and prints what each comes to, so that a new case is a few lines of text.
//!
//! This crate promises little: it is safe and returns, and what a case prints is compared with what was written by hand.
//!
//! Proved: nothing but that it is total: it is safe and returns.
#![tactic(auto)]

mod contents;
mod devices;
mod ends;
mod error;
mod fails;
mod files;
mod named;
mod printing;
mod setup;
mod spelling;
mod text;
mod words;

pub use devices::last_written;
pub use error::CaseError;
pub use fails::Fails;
pub use files::{Follow, run_file};
pub use named::{Named, bytes_of};
pub use printing::{print_bytes, print_piece, print_text};
pub use setup::Setup;
pub use spelling::Spelling;
pub use text::Text;
pub use words::{Words, byte, kind_of, look_up, number, read_hex, small, unquoted};

//! A plain reader of images of a device, slow and simple and apart from the code by which the store reads and writes: it says which
//! objects it finds, and whether they are those after a front of the commits of a run. What programs of cases judge is judged by it.
//!
//! Proved: nothing but that it is total: it is safe and returns.
#![tactic(auto)]

mod bitmap;
mod blobs;
mod counts;
mod history;
mod image;
mod judge;
mod left;
mod names;
mod object;
mod reader;
mod record;
mod spelling;
mod tears;
mod values;

pub use counts::{Counts, Looked};
pub use history::{Past, Told, acknowledged, apply, objects_behind};
pub use image::Found;
pub use judge::{Fsck, Judge, Judgement, leaked_in};
pub use left::{COLLS, Left, cut_of, found_text, image_at};
pub use names::{coll_of, name_of};
pub use spelling::NAMES;
pub use tears::{TEARS, tear_of};

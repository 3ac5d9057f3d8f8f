//! How many images were looked at, and which of them are of no front of the commits, or have what `fsck` finds.

use block_device::Tear;
use case_text::Text;
use std::alloc::Global;

/// What an image was found to be.
#[derive(Clone, Copy)]
pub enum Looked {
    /// One that the run may leave.
    Good,
    /// Of no front of the commits with all that were acknowledged, or with a bitmap that isn't exact.
    OfNoFront,
    /// One in which `fsck` finds something else than the units that were leaked before the run.
    WithFindings,
}

/// How many cuts and images were looked at, and how many of the images are no such; and lines that say which.
#[derive(Drop)]
pub struct Counts {
    pub cuts: u64,
    pub images: u64,
    pub bad: u64,
    pub shown: Text,
}

impl Counts {
    /// Nothing was looked at.
    pub fn new(alloc: Global) -> Counts {
        Counts {
            cuts: 0,
            images: 0,
            bad: 0,
            shown: Text::new(alloc),
        }
    }

    /// Counts an image.
    pub fn count(&mut self, cut: u64, tear: Tear, is: Looked) {
        self.images = self.images.wrapping_add(1);
        let wrong = match is {
            Looked::Good => return,
            Looked::OfNoFront => "not of such a front",
            Looked::WithFindings => "fsck finds something else",
        };
        self.bad = self.bad.wrapping_add(1);
        self.shown
            .println(format_args!("cut {cut} {tear:?}: {wrong}"));
    }

    /// Shows the images that are of no front, and the counts. Where a least number of images is given, only that they are more.
    pub fn print(&self, least: Option<u64>, out: &mut Text) {
        out.append(&self.shown);
        match least {
            Some(least) if least < self.images => {
                out.print(format_args!("more than {least} images"));
            }
            _ => out.print(format_args!("{} cuts, {} images", self.cuts, self.images)),
        }
        out.println(format_args!(", {} of no front", self.bad));
    }
}

//! What `fsck` finds in the images that a crash leaves.

use case_text::{CaseError, Follow, Text};
use plain_reader::Fsck;
use run_lines::{Case, Commands};
use std::alloc::Global;

/// `fsck` by its command line, in a case of its own.
#[derive(Drop)]
pub struct FsckLine<C: Commands> {
    other: Case<C>,
}

/// What is to be printed where these units are leaked, and nothing else is wrong.
fn leaked_text(alloc: Global, leaked: &[u64]) -> Text {
    let mut text = Text::new(alloc);
    for unit in leaked {
        text.println(format_args!("Leaked unit={unit}"));
    }
    text.println(format_args!("findings {}", leaked.len()));
    text
}

impl<C: Commands> FsckLine<C> {
    pub fn new(alloc: Global) -> Result<FsckLine<C>, CaseError> {
        match Case::<C>::begin(alloc) {
            Ok(other) => Ok(FsckLine { other }),
            Err(wrong) => Err(wrong),
        }
    }

    /// Looks through an image.
    fn look(&mut self, image: Vec<u8>) -> Result<(), CaseError> {
        self.other.setup.put_device("dev", image)?;
        self.other.run_line("bstore fsck dev")
    }
}

impl<C: Commands> Fsck for FsckLine<C> {
    fn finds_leaked_alone(&mut self, alloc: Global, image: Vec<u8>, leaked: &[u64]) -> bool {
        match self.look(image) {
            Ok(()) => self.other.text.as_slice() == leaked_text(alloc, leaked).as_str().as_bytes(),
            Err(_) => false,
        }
    }
}

//! What `fsck` finds in the images that crashes of a mount leave.

use case_text::{CaseError, Setup};
use findings::Finding;
use fsck_check::fsck;
use plain_reader::Fsck;
use std::alloc::Global;

/// `fsck` on devices that have no lags, and of which no call fails.
#[derive(Drop)]
pub struct FsckCall {
    setup: Setup,
}

/// Whether a finding is that this unit is leaked.
fn is_leaked(finding: &Finding, number: u64) -> bool {
    match finding {
        Finding::Leaked { unit } => u64::from(*unit) == number,
        _ => false,
    }
}

/// Whether findings are that these units are leaked, and nothing else.
fn are_leaked(found: &[Finding], leaked: &[u64]) -> bool {
    if found.len() != leaked.len() {
        return false;
    }
    for (finding, unit) in found.iter().zip(leaked) {
        if !is_leaked(finding, *unit) {
            return false;
        }
    }
    true
}

impl FsckCall {
    pub fn new(alloc: Global) -> Result<FsckCall, CaseError> {
        match Setup::new(alloc) {
            Ok(setup) => Ok(FsckCall { setup }),
            Err(wrong) => Err(wrong),
        }
    }

    /// What is found in an image.
    fn look(&mut self, alloc: Global, image: Vec<u8>) -> Result<Vec<Finding>, CaseError> {
        self.setup.put_device("dev", image)?;
        let mut dev = self.setup.device("dev")?;
        fsck(alloc, &mut dev).map_err(|_| CaseError::Line("no store was looked through"))
    }
}

impl Fsck for FsckCall {
    fn finds_leaked_alone(&mut self, alloc: Global, image: Vec<u8>, leaked: &[u64]) -> bool {
        match self.look(alloc, image) {
            Ok(found) => are_leaked(&found, leaked),
            Err(_) => false,
        }
    }
}

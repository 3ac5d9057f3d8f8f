//! The ends of a store in memory, of what a case has set up.
ghost use Rattle.std.specs.Prelude.{◌≡◌, ◌≤◌, ◌*◌, ◌%◌, [], length, IfOk, All};
ghost use Rattle.block_device.specs.Prelude.{disk_of};

use crate::{CaseError, Named, Setup};
use block_device::MemoryDevice;
use end_points::{BayPlan, MemoryBay, MemorySink};
use std::alloc::Global;
use std::mem;

/// A copy of contents that are whole units.
fn whole_units(alloc: Global, contents: &[u8]) -> Result<Vec<u8>, CaseError>
    ensures whole { IfOk result (λ copy. length copy.items % 4096 ≡ 0) }
    ensures few { IfOk result (λ copy. length copy.items ≤ 4096 * 1048576) }
{
    if contents.len() % 4096 != 0 || 4096 * 1_048_576 < contents.len() {
        return Err(CaseError::Line("not whole units"));
    }
    contents.to_vec(alloc).map_err(CaseError::from)
}

/// Puts contents that are whole units into a bay.
fn put_into(alloc: Global, bay: &mut MemoryBay, device: &Named) -> Result<(), CaseError> {
    match whole_units(alloc, device.bytes.as_slice()) {
        Ok(contents) => bay
            .put_device(device.name.as_str(), contents)
            .map_err(CaseError::from),
        Err(wrong) => Err(wrong),
    }
}

/// The lags, none above 63.
fn checked_lags(alloc: Global, lags: &[u8]) -> Result<Vec<u8>, CaseError>
    ensures { IfOk result (λ made. All (λ lag. lag ≤ 63) made.items) }
{
    if !lags.iter().all(|lag| *lag <= 63) {
        return Err(CaseError::Line("a lag above 63"));
    }
    lags.to_vec(alloc).map_err(CaseError::from)
}

impl Setup {
    /// The device of a name, with the lags and the failing calls that are set up. The latter are then no others' calls.
    pub fn device(&mut self, name: &str) -> Result<MemoryDevice, CaseError>
        ensures { IfOk result (λ d. (disk_of d).flights ≡ []) }
    {
        match whole_units(self.alloc, self.bytes(name)?) {
            Ok(contents) => match checked_lags(self.alloc, &self.lags) {
                Ok(lags) => {
                    let fails = mem::replace(&mut self.fails.device, Vec::new(self.alloc));
                    MemoryDevice::new(self.alloc, contents, lags, fails).map_err(CaseError::from)
                }
                Err(wrong) => Err(wrong),
            },
            Err(wrong) => Err(wrong),
        }
    }

    /// A sink of what is set up. The calls that are to fail are those of this one alone.
    pub fn sink(&mut self) -> Result<MemorySink, CaseError> {
        let step = self.sink_step.max(1);
        let fails = mem::replace(&mut self.fails.sink, Vec::new(self.alloc));
        MemorySink::new(self.alloc, self.room, step, fails).map_err(CaseError::from)
    }

    /// A bay without devices and scripts. The calls that are to fail are those of this one alone.
    pub fn bay(&mut self) -> Result<MemoryBay, CaseError> {
        let plan = BayPlan {
            lags: checked_lags(self.alloc, &self.lags)?,
            device_fails: mem::replace(&mut self.fails.device, Vec::new(self.alloc)),
            source_step: self.source_step.max(1),
            source_fails: mem::replace(&mut self.fails.source, Vec::new(self.alloc)),
            fails: mem::replace(&mut self.fails.bay, Vec::new(self.alloc)),
        };
        Ok(MemoryBay::new(self.alloc, plan))
    }

    /// Puts the devices that are set up into a bay.
    pub fn put_devices(&self, bay: &mut MemoryBay) -> Result<(), CaseError> {
        for device in &self.devices {
            put_into(self.alloc, bay, device)?;
        }
        Ok(())
    }

    /// Puts the scripts that are set up into a bay.
    pub fn put_scripts(&self, bay: &mut MemoryBay) -> Result<(), CaseError> {
        for script in &self.scripts {
            let text = script.bytes.to_vec(self.alloc)?;
            bay.put_text(script.name.as_str(), text)?;
        }
        Ok(())
    }
}

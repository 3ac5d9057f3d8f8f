// A bay in memory.
ghost use Rattle.std.specs.Prelude.{◌≡◌, ◌↔◌, ◌+◌, ◌-◌, ◌*◌, ◌<◌, ◌≤◌, ◌^◌, All, Option, Some, None, IfOk, OnOk, OnErr, IfErr, IsErrOf, option_copied};
ghost use Rattle.std.specs.FinMap as map;
ghost use Rattle.block_device.specs.Prelude.{Rose, disk_of, counted};
ghost use Rattle.end_points.specs.Bay.{HandedOut, Opened, IsFewUnits, cut_or_filled, start_from, start_of};
ghost use Rattle.end_points.specs.Memory.{view_of, is_call_listed, RefusesDevice, RefusesScript, IsStarted, IsOpened, AreContents, with_device, with_text, after_device, after_refused_device, after_script, after_refused_script};

use crate::{Bay, How, MemorySource};
use block_device::{Failed, Kind, MemoryDevice};
use byte_maps::{ByteMap, Bytes};
use std::alloc::{AllocError, Global};
use std::marker::Model;

/// A kind of call of a bay that can be made to fail. Calls are numbered from 0 within their kind.
#[derive(Clone, Copy)]
pub enum Call {
    Device,
    Script,
}

/// The lists that a bay in memory follows and hands on.
#[derive(Drop)]
pub struct BayPlan {
    /// How many reaps the submissions of each device wait, as `MemoryDevice::new` says.
    pub lags: Vec<u8>,
    /// The calls of each device that fail.
    pub device_fails: Vec<(Kind, u64)>,
    /// How many bytes a read of a source gives at most.
    pub source_step: u32,
    /// The reads of each source that fail, by number.
    pub source_fails: Vec<u64>,
    /// The calls of the bay itself that fail.
    pub fails: Vec<(Call, u64)>,
}

/// A bay in memory: maps from names to devices' contents and to scripts' texts, which it tells. What
/// is written to a device that it gave isn't seen in it, nor that one was made: under each name it
/// keeps what a device starts with.
#[derive(Drop)]
pub struct MemoryBay {
    alloc: Global,
    devices: ByteMap<Bytes>,
    texts: ByteMap<Bytes>,
    plan: BayPlan,
    given: u32,
    device_calls: u64,
    script_calls: u64,
    fault_count: u64,
}

impl Model for MemoryBay {
    ghost use Rattle.std.specs.Coded.{codes};
    ghost use Rattle.end_points.specs.Memory.{MemoryShelf};
    ghost use Rattle.end_points.specs.Codes.{coded_names};

    ghost Value = { MemoryShelf };

    ghost coded = { Prim.hlevel (codes, coded_names) };

    ghost use Rattle.end_points.specs.BayInside.{memory_shelf, IsBayKept};

    ghost view = { memory_shelf };

    ghost invariant = { IsBayKept };
}

// Whether a call is listed to fail.
fn fails_at(fails: &[(Call, u64)], call: Call, number: u64) -> bool
    ensures { result ≡ is_call_listed fails.now call number }
{
    fails.iter().any(|f| f.0 == call && f.1 == number)
}

// A copy of a list.
fn copy<T: Copy>(alloc: Global, items: &[T]) -> Result<Vec<T>, Failed>
    ensures ok { IfOk result (λ copied. copied.items ≡ items.now) }
    ensures memory { IfErr result (λ e. e ≡ Failed.Memory) }
{
    match Vec::from_slice(alloc, items) {
        Ok(copied) => Ok(copied),
        Err(_) => Err(Failed::Memory),
    }
}

// Bytes cut, or filled up with zeros, to a size.
fn resize(alloc: Global, bytes: &[u8], size: usize) -> Result<Vec<u8>, AllocError>
    ensures { IfOk result (λ made. made.items ≡ cut_or_filled size bytes.now) }
{
    let mut made = Vec::with_capacity(alloc, size)?;
    made.extend_from_slice(&bytes[..bytes.len().min(size)])?;
    made.resize(size, 0)?;
    Ok(made)
}

// The bytes under a name, where it is there.
fn held<'a>(names: &'a ByteMap<Bytes>, name: &str) -> Option<&'a [u8]>
    ensures { option_copied result ≡ map.get names.now name.now }
{
    match names.get(name.as_bytes()) {
        Some(bytes) => Some(bytes.as_slice()),
        None => None,
    }
}

// What a device starts with, of what stands under its name.
fn start(alloc: Global, held: Option<&[u8]>, how: How) -> Result<Vec<u8>, Failed>
    ensures ok { IfOk result (λ made. start_from (option_copied held.entry) how ≡ Some made.items) }
    ensures fault { IsErrOf result Failed.Fault ↔ (start_from (option_copied held.entry) how ≡ None) }
{
    match how {
        How::Make(units) => match resize(alloc, held.unwrap_or(&[]), 4096 * units as usize) {
            Ok(made) => Ok(made),
            Err(_) => Err(Failed::Memory),
        },
        How::Plain | How::Queued => match held {
            Some(bytes) => copy(alloc, bytes),
            None => Err(Failed::Fault),
        },
    }
}

// One more of a count that stays at its last number.
fn next(count: u64) -> u64
    ensures { result ≡ counted count }
{
    count.saturating_add(1)
}

impl MemoryBay {
    /// A bay with no name yet, which follows these lists.
    pub fn new(alloc: Global, plan: BayPlan) -> MemoryBay
        requires lags { All (λ lag. lag ≤ 63) plan.lags.items }
        requires step { 0 < plan.source_step }
        ensures names { result.names ≡ record { devices = map.empty; texts = map.empty } }
        ensures given { result.given ≡ 0 }
        ensures faults { result.faults ≡ 0 }
        ensures calls { (result.device_calls ≡ 0) × (result.script_calls ≡ 0) }
        ensures lists { (result.lags ≡ plan.lags.items) × (result.device_fails ≡ plan.device_fails.items) }
        ensures source { (result.source_step ≡ plan.source_step) × (result.source_fails ≡ plan.source_fails.items) }
        ensures fails { result.fails ≡ plan.fails.items }
    {
        MemoryBay {
            alloc,
            devices: ByteMap::new(alloc),
            texts: ByteMap::new(alloc),
            plan,
            given: 0,
            device_calls: 0,
            script_calls: 0,
            fault_count: 0,
        }
    }

    /// Puts a device's contents under a name: whole units, at most 1048576 of them.
    pub fn put_device(&mut self, name: &str, contents: Vec<u8>) -> Result<(), AllocError>
        requires { AreContents contents.items }
        ensures ok { OnOk result (self.new ≡ with_device self.old name.now contents.items) }
        ensures err { OnErr result (self.new ≡ self.old) }
    {
        let name = Bytes::from_slice(self.alloc, name.as_bytes())?;
        self.devices.insert(name, Bytes::from_vec(contents))
    }

    /// Puts a script's text under a name.
    pub fn put_text(&mut self, name: &str, text: Vec<u8>) -> Result<(), AllocError>
        ensures ok { OnOk result (self.new ≡ with_text self.old name.now text.items) }
        ensures err { OnErr result (self.new ≡ self.old) }
    {
        let name = Bytes::from_slice(self.alloc, name.as_bytes())?;
        self.texts.insert(name, Bytes::from_vec(text))
    }

    // The device that is asked for, before it is counted.
    fn make(&self, name: &str, how: How) -> Result<MemoryDevice, Failed>
        requires { IsFewUnits how }
        ensures ok { IfOk result (λ dev. IsStarted self.now (start_of self.now.names name.now how) dev) }
        ensures fault { IsErrOf result Failed.Fault ↔ RefusesDevice self.now name.now how }
    {
        if fails_at(&self.plan.fails, Call::Device, self.device_calls) {
            return Err(Failed::Fault);
        }
        let contents = start(self.alloc, held(&self.devices, name), how)?;
        let lags = copy(self.alloc, &self.plan.lags)?;
        let fails = copy(self.alloc, &self.plan.device_fails)?;
        match MemoryDevice::new(self.alloc, contents, lags, fails) {
            Ok(device) => Ok(device),
            Err(_) => Err(Failed::Memory),
        }
    }

    // The source that is asked for, before it is counted.
    fn open(&self, name: &str) -> Result<MemorySource, Failed>
        ensures ok { IfOk result (λ src. IsOpened self.now (map.get self.now.names.texts name.now) src) }
        ensures fault { IsErrOf result Failed.Fault ↔ RefusesScript self.now name.now }
    {
        if fails_at(&self.plan.fails, Call::Script, self.script_calls) {
            return Err(Failed::Fault);
        }
        let Some(text) = held(&self.texts, name) else {
            return Err(Failed::Fault);
        };
        let text = copy(self.alloc, text)?;
        let fails = copy(self.alloc, &self.plan.source_fails)?;
        Ok(MemorySource::new(text, self.plan.source_step, fails))
    }
}

impl Bay for MemoryBay {
    type Dev = MemoryDevice;

    type Src = MemorySource;

    ghost bay = { view_of };

    ghost faults = { λ b. b.faults };

    fn given(&self) -> u32 {
        self.given
    }

    fn device(&mut self, name: &str, how: How) -> Result<MemoryDevice, Failed>
        requires count { (view_of self.old).given + 1 < 2 ^ 32 }
        requires few { IsFewUnits how }
        ensures ok { IfOk result (λ dev. HandedOut (view_of self.old) name.now how (disk_of dev) dev.faults (view_of self.new)) }
        ensures exact { IfOk result (λ dev. IsStarted self.old (start_of self.old.names name.now how) dev) }
        ensures fails { IsErrOf result Failed.Fault ↔ RefusesDevice self.old name.now how }
        ensures given { OnOk result (self.new ≡ after_device self.old) }
        ensures fault { IsErrOf result Failed.Fault → self.new ≡ after_refused_device self.old }
        ensures memory { IsErrOf result Failed.Memory → self.new ≡ self.old }
        ensures err { OnErr result (view_of self.new ≡ view_of self.old) }
        ensures kept { OnOk result (self.new.faults ≡ self.old.faults) }
        ensures later { self.old.faults ≤ self.new.faults }
        ensures cause { IsErrOf result Failed.Fault → Rose self.old.faults self.new.faults }
    {
        match self.make(name, how) {
            Ok(device) => {
                self.given += 1;
                self.device_calls = next(self.device_calls);
                Ok(device)
            }
            Err(Failed::Memory) => Err(Failed::Memory),
            Err(Failed::Fault) => {
                self.device_calls = next(self.device_calls);
                self.fault_count = next(self.fault_count);
                Err(Failed::Fault)
            }
        }
    }

    fn script(&mut self, name: &str) -> Result<MemorySource, Failed>
        ensures ok { IfOk result (λ src. Opened (view_of self.old) name.now (Some src.left) src.faults) }
        ensures exact { IfOk result (λ src. IsOpened self.old (map.get self.old.names.texts name.now) src) }
        ensures fails { IsErrOf result Failed.Fault ↔ RefusesScript self.old name.now }
        ensures opened { OnOk result (self.new ≡ after_script self.old) }
        ensures fault { IsErrOf result Failed.Fault → self.new ≡ after_refused_script self.old }
        ensures memory { IsErrOf result Failed.Memory → self.new ≡ self.old }
        ensures same { view_of self.new ≡ view_of self.old }
        ensures kept { OnOk result (self.new.faults ≡ self.old.faults) }
        ensures later { self.old.faults ≤ self.new.faults }
        ensures cause { IsErrOf result Failed.Fault → Rose self.old.faults self.new.faults }
    {
        match self.open(name) {
            Ok(source) => {
                self.script_calls = next(self.script_calls);
                Ok(source)
            }
            Err(Failed::Memory) => Err(Failed::Memory),
            Err(Failed::Fault) => {
                self.script_calls = next(self.script_calls);
                self.fault_count = next(self.fault_count);
                Err(Failed::Fault)
            }
        }
    }
}

// What a crash may leave of a device in memory.
ghost use Rattle.std.specs.Prelude.{◌≡◌, ◌↔◌, ◌+◌, ◌-◌, ◌*◌, ◌<◌, ◌≤◌, ◌/◌, ℕ, true, false, length, IsTrue, IfOk, Contains, replicate};
ghost use Rattle.byte_maps.specs.Units.{unit_at, overlaid, IsUnits};
ghost use Rattle.block_device.specs.Log.{IsStable, IsCrashImage};
ghost use Rattle.block_device.specs.Image.{IsWholeLog, IsTornImage, noise};
ghost use Rattle.block_device.specs.Laying.{IsPut, IsLastGoodFlush, is_laid, mark};
ghost use Rattle.block_device.specs.declared.event.Event.TheVariants.{Write, Flush, Done};

use crate::Event;
use std::alloc::{AllocError, Global};

/// Which of the images of a crash is made: what dirty units hold. A write is stable once a flush
/// that was submitted after its good end has a good end itself.
#[derive(Clone, Copy, Debug)]
pub enum Tear {
    /// Dirty units are as before the first write of theirs that isn't stable.
    Old,
    /// Dirty units are as last written.
    New,
    /// Of each write that isn't stable only the first unit reached the disk.
    First,
    /// Of each write that isn't stable only the second, the fourth and so on reached the disk.
    Odd,
    /// Dirty units hold the byte A5 throughout.
    Noise,
}

// Lays bytes over the contents, from unit `at` on.
pub fn lay(contents: &mut [u8], at: usize, bytes: &[u8])
    requires { 4096 * at + length bytes.now ≤ length contents.old }
    ensures { contents.new ≡ overlaid at bytes.now contents.old }
{
    let from = 4096 * at;
    contents[from..from + bytes.len()].copy_from_slice(bytes);
}

fn is_good_done(event: &Event, ticket: usize) -> bool
    ensures { IsTrue result ↔ (event.now ≡ Done ticket true) }
{
    match event {
        Event::Done(t, ok) => *t == ticket as u64 && *ok,
        _ => false,
    }
}

fn is_flush(event: &Event) -> bool
    ensures { IsTrue result ↔ (event.now ≡ Flush) }
{
    match event {
        Event::Flush => true,
        _ => false,
    }
}

fn has_good_done(log: &[Event], ticket: usize) -> bool
    ensures { IsTrue result ↔ Contains log.now (Done ticket true) }
{
    for event in log {
        if is_good_done(event, ticket) {
            return true;
        }
    }
    false
}

// Where the last flush with a good Done stands, or 0.
fn last_good_flush(log: &[Event]) -> usize
    ensures { IsLastGoodFlush log.now result }
{
    for place in (0..log.len()).rev() {
        if is_flush(&log[place]) && has_good_done(log, place) {
            return place;
        }
    }
    0
}

// Whether the write at a place of the log is stable: its good Done comes before that flush.
fn is_stable(log: &[Event], last_flush: usize, write: usize) -> bool
    requires { IsLastGoodFlush log.now last_flush }
    ensures { IsTrue result ↔ IsStable log.now write }
{
    has_good_done(&log[..last_flush], write)
}

// Whether unit j of a write is laid over the image.
fn takes(tear: Tear, stable: bool, torn: bool, j: usize) -> bool
    ensures { result ≡ is_laid tear stable torn j }
{
    match tear {
        Tear::Old | Tear::Noise => stable && !torn,
        Tear::New => true,
        Tear::First => stable || j == 0,
        Tear::Odd => stable || j % 2 == 1,
    }
}

// Puts a write over the image, and marks its units as torn where it isn't stable.
fn put(image: &mut [u8], torn: &mut [bool], at: usize, bytes: &[u8], stable: bool, tear: Tear)
    requires whole { (count : ℕ) × IsUnits count bytes.now }
    requires inside { 4096 * at + length bytes.now ≤ length image.old }
    requires marks { IsUnits (length torn.old) image.old }
    ensures { IsPut tear at bytes.now stable image.old image.new torn.old torn.new }
{
    for j in 0..bytes.len() / 4096 {
        let k = at + j;
        if takes(tear, stable, torn[k], j) {
            lay(image, k, &bytes[4096 * j..4096 * j + 4096]);
        }
        torn[k] = torn[k] || !stable;
    }
}

// Fills the torn units.
fn fill_torn(image: &mut [u8], torn: &[bool], filling: &[u8])
    requires filling { length filling.now ≡ 4096 }
    requires marks { IsUnits (length torn.now) image.old }
    ensures size { length image.new ≡ length image.old }
    ensures others { (k : ℕ) → mark torn.now k ≡ false → unit_at k image.new ≡ unit_at k image.old }
    ensures filled { (k : ℕ) → k < length torn.now → mark torn.now k ≡ true → unit_at k image.new ≡ filling.now }
{
    for (k, is_torn) in torn.iter().enumerate() {
        if *is_torn {
            lay(image, k, filling);
        }
    }
}

fn no_marks(alloc: Global, count: usize) -> Result<Vec<bool>, AllocError>
    ensures { IfOk result (λ marks. marks.items ≡ replicate count false) }
{
    vec![in alloc; false; count]
}

fn copy_of(alloc: Global, bytes: &[u8]) -> Result<Vec<u8>, AllocError>
    ensures { IfOk result (λ copy. copy.items ≡ bytes.now) }
{
    bytes.to_vec(alloc)
}

fn noise_unit(alloc: Global) -> Result<Vec<u8>, AllocError>
    ensures { IfOk result (λ unit. unit.items ≡ noise) }
{
    vec![in alloc; 0xA5u8; 4096]
}

/// What a crash after these events may leave of the start contents, with dirty units torn in this
/// way.
pub fn image_of(
    alloc: Global,
    start: &[u8],
    log: &[Event],
    tear: Tear,
) -> Result<Vec<u8>, AllocError>
    requires whole { (units : ℕ) × IsUnits units start.now }
    requires fits { IsWholeLog (length start.now) log.now }
    ensures torn { IfOk result (λ image. IsTornImage tear start.now log.now image.items) }
    ensures crash { IfOk result (λ image. IsCrashImage start.now log.now image.items) }
{
    let noise = noise_unit(alloc)?;
    let mut image = copy_of(alloc, start)?;
    let mut torn = no_marks(alloc, start.len() / 4096)?;
    let last_flush = last_good_flush(log);
    for (place, event) in log.iter().enumerate() {
        if let Event::Write(at, bytes) = event {
            put(
                &mut image,
                &mut torn,
                *at as usize,
                bytes.as_slice(),
                is_stable(log, last_flush, place),
                tear,
            );
        }
    }
    if let Tear::Noise = tear {
        fill_torn(&mut image, &torn, &noise);
    }
    Ok(image)
}

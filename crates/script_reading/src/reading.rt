//! Scripts are opened and read.
ghost use Rattle.std.specs.Prelude.{◌≡◌, ◌+◌, ◌<◌, ◌≤◌, [], map, replicate, length, slice_index_or, vec_len, vec_capacity, IfOk, OnOk, IfErr};
ghost use Rattle.script_reading.specs.Scripts.{HasScript, HaveScripts, AreReadWhole, ScriptFailsAt, FailsToRead, unread_bay, unread_script};

use crate::Unread;
use block_device::Failed;
use command_words::FileNames;
use end_points::Bay;
use script_text::{Line, ScriptFail, read_script};
use std::alloc::Global;

/// Why a script wasn't read that the bay didn't open.
fn unopened(fail: Failed) -> Unread
    ensures { result ≡ unread_bay fail }
{
    match fail {
        Failed::Memory => Unread::Memory,
        Failed::Fault => Unread::Fault,
    }
}

/// Why the script of this number wasn't read.
fn unread(fail: ScriptFail, script: u32) -> Unread
    ensures { result ≡ unread_script fail script }
{
    match fail {
        ScriptFail::Memory => Unread::Memory,
        ScriptFail::Line { n } => Unread::Line { script, n },
        ScriptFail::ReadFault => Unread::Fault,
    }
}

/// Opens the script of this number and reads it to its end, once those before it were read. The source goes behind theirs, where
/// there is room for it.
fn read_one<B: Bay>(
    alloc: Global,
    names: &FileNames<'_>,
    script: u32,
    bay: &mut B,
    sources: &mut Vec<B::Src>,
) -> Result<Vec<Line>, Unread>
    requires script { script < length names.now }
    requires room { vec_len sources.old < vec_capacity sources.old }
    requires before { map B.Src.faults sources.old.items ≡ replicate script 0 }
    ensures lines { IfOk result (λ lines. HasScript (B.bay bay.old).names (slice_index_or names.now script []) lines.items) }
    ensures whole { OnOk result (AreReadWhole (script + 1) (map B.Src.faults sources.new.items) (B.faults bay.old) (B.faults bay.new)) }
    ensures cause { IfErr result (λ e. ScriptFailsAt script e (B.bay bay.old).names names.now (map B.Src.faults sources.new.items)
        (B.faults bay.old) (B.faults bay.new)) }
    ensures same { B.bay bay.new ≡ B.bay bay.old }
    ensures later { B.faults bay.old ≤ B.faults bay.new }
    ensures count { OnOk result (vec_len sources.new ≡ vec_len sources.old + 1) }
    ensures room { OnOk result (vec_capacity sources.new ≡ vec_capacity sources.old) }
{
    let name = names.get(script as usize);
    let mut source = match bay.script(name.as_str()) {
        Ok(source) => source,
        Err(fail) => return Err(unopened(fail)),
    };
    let lines = read_script(alloc, &mut source);
    sources.push_reserved(source);
    match lines {
        Ok(lines) => Ok(lines),
        Err(fail) => Err(unread(fail, script)),
    }
}

/// Opens the scripts of these names and reads each to its end, one behind another. The first that fails ends it. The sources go to
/// `sources`, also that of a script that failed; room for all of them is made before the first is opened.
pub fn read_scripts<B: Bay>(
    alloc: Global,
    names: &FileNames<'_>,
    bay: &mut B,
    sources: &mut Vec<B::Src>,
) -> Result<Vec<Vec<Line>>, Unread>
    requires { sources.old.items ≡ [] }
    ensures scripts { IfOk result (λ scripts. HaveScripts (B.bay bay.old).names names.now (map (λ s. s.items) scripts.items)) }
    ensures whole { OnOk result (AreReadWhole (length names.now) (map B.Src.faults sources.new.items) (B.faults bay.old) (B.faults bay.new)) }
    ensures cause { IfErr result (λ e. FailsToRead e (B.bay bay.old).names names.now (map B.Src.faults sources.new.items)
        (B.faults bay.old) (B.faults bay.new)) }
    ensures same { B.bay bay.new ≡ B.bay bay.old }
    ensures later { B.faults bay.old ≤ B.faults bay.new }
{
    let mut scripts = Vec::new(alloc);
    scripts.reserve(names.len())?;
    sources.reserve(names.len())?;
    for script in 0..names.len() {
        let lines = read_one(alloc, names, script as u32, bay, sources)?;
        scripts.push_reserved(lines);
    }
    Ok(scripts)
}

//! Reading a script.
ghost use Rattle.std.specs.Prelude.{◌≡◌, ◌≤◌, [], ℕ, List, true, false, IfOk, IfErr, OnOk, IsErrOf};
ghost use Rattle.block_device.specs.Prelude.{Rose};
ghost use Rattle.end_points.specs.Source.{Took, without_first};
ghost use Rattle.script_text.specs.Script.{script_limit, IsScript, IsBadAt, IsTextOf};
ghost use Rattle.script_text.specs.Reading.{IsAfter, WasReadUpTo, WasRead, IfLine};

use crate::reader::Reader;
use crate::{Line, ScriptFail};
use end_points::Source;
use std::alloc::Global;

/// The most bytes of a script.
const SCRIPT_LIMIT: u32 = 1073741824;

/// The most bytes of one read.
const PIECE_BYTES: u32 = 65536;

/// Reads the next piece of the source, of at most so many bytes, and gives their number: 0 at its end.
fn next_piece<S: Source>(source: &mut S, piece: &mut Vec<u8>, most: u32) -> Result<u32, ScriptFail>
    ensures took { IfOk result (λ n. Took (S.left source.old) most n [] piece.new.items (S.left source.new)) }
    ensures kept { ¬ (IsErrOf result ScriptFail.ReadFault) → S.faults source.new ≡ S.faults source.old }
    ensures later { S.faults source.old ≤ S.faults source.new }
    ensures cause { IsErrOf result ScriptFail.ReadFault → Rose (S.faults source.old) (S.faults source.new) }
    ensures line { IfErr result (λ e. IfLine e (λ n. ⊥)) }
{
    piece.clear();
    source.read(piece, most).map_err(ScriptFail::from)
}

/// Reads until the source ends, or until so many bytes are taken as a script has at most. Whether it ended. Each piece
/// lies where the one before it lay.
fn read_pieces<S: Source>(
    alloc: Global,
    source: &mut S,
    piece: &mut Vec<u8>,
    reader: &mut Reader,
) -> Result<bool, ScriptFail>
    requires nothing { reader.old.count ≡ 0 }
    requires after { IsAfter [] reader.old }
    ensures read { IfOk result (λ end. WasReadUpTo (S.left source.old) (S.left source.new) reader.new end) }
    ensures kept { ¬ (IsErrOf result ScriptFail.ReadFault) → S.faults source.new ≡ S.faults source.old }
    ensures later { S.faults source.old ≤ S.faults source.new }
    ensures cause { IsErrOf result ScriptFail.ReadFault → Rose (S.faults source.old) (S.faults source.new) }
    ensures line { IfErr result (λ e. IfLine e (λ n. ⊥)) }
{
    let mut left = SCRIPT_LIMIT;
    'pieces: while left > 0 {
        let n = next_piece(source, piece, left.min(PIECE_BYTES))?;
        if n == 0 {
            return Ok(true);
        }
        reader.take(alloc, piece.as_slice())?;
        left -= n;
    }
    Ok(false)
}

/// Reads the source to its end, or up to the first byte past the limit.
fn read_through<S: Source>(
    alloc: Global,
    source: &mut S,
    piece: &mut Vec<u8>,
    reader: &mut Reader,
) -> Result<(), ScriptFail>
    requires nothing { reader.old.count ≡ 0 }
    requires after { IsAfter [] reader.old }
    ensures read { OnOk result (WasRead (S.left source.old) (S.left source.new) reader.new) }
    ensures count { OnOk result (reader.new.count ≤ script_limit) }
    ensures kept { ¬ (IsErrOf result ScriptFail.ReadFault) → S.faults source.new ≡ S.faults source.old }
    ensures later { S.faults source.old ≤ S.faults source.new }
    ensures cause { IsErrOf result ScriptFail.ReadFault → Rose (S.faults source.old) (S.faults source.new) }
    ensures line { IfErr result (λ e. IfLine e (λ n. ⊥)) }
{
    if read_pieces(alloc, source, piece, reader)? {
        return Ok(());
    }
    let n = next_piece(source, piece, 1)?;
    if n == 0 {
        return Ok(());
    }
    reader.refuse();
    Ok(())
}

/// The lines of a script that say something, in order.
///
/// The source is read to its end, also behind a bad line, but by no more than one byte past the most that a script
/// has. Of the text only the line that isn't ended is kept, and of `wait`s one behind another the first. What is kept
/// takes memory in proportion to the text, since the data of a `fill` aren't written out before `Said::into_what`.
pub fn read_script<S: Source>(alloc: Global, source: &mut S) -> Result<Vec<Line>, ScriptFail>
    ensures lines { IfOk result (λ lines. (text : List ℕ) × IsTextOf (S.left source.old) text × IsScript text lines.items) }
    ensures bad { IfErr result (λ e. IfLine e (λ n. (text : List ℕ) × IsTextOf (S.left source.old) text × IsBadAt text n)) }
    ensures through { OnOk result (S.left source.new ≡ without_first 1073741825 (S.left source.old)) }
    ensures behind { IfErr result (λ e. IfLine e (λ n. S.left source.new ≡ without_first 1073741825 (S.left source.old))) }
    ensures kept { ¬ (IsErrOf result ScriptFail.ReadFault) → S.faults source.new ≡ S.faults source.old }
    ensures later { S.faults source.old ≤ S.faults source.new }
    ensures cause { IsErrOf result ScriptFail.ReadFault → Rose (S.faults source.old) (S.faults source.new) }
{
    let mut reader = Reader::new(alloc);
    let mut piece = Vec::new(alloc);
    let read = read_through(alloc, source, &mut piece, &mut reader);
    drop(piece);
    match read {
        Ok(()) => reader.finish(alloc),
        Err(e) => {
            drop(reader);
            Err(e)
        }
    }
}

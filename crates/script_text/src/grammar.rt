//! What a line says.
ghost use Rattle.std.specs.Prelude.{◌≡◌, ◌↔◌, ◌++◌, ◌∷◌, [], IsTrue, codes};
ghost use Rattle.unit_fields.specs.Prelude.{IsCollName};
ghost use Rattle.script_text.specs.Grammar.{HasNo, IsDataWord, IsLineOf, IsNameWord, IsPassedOver};
ghost use Rattle.script_text.specs.Blocks.{Says};
ghost use Rattle.script_text.specs.Reading.{AreGoodWords, Finds, IsOtherThanWhole, NamesObject, NamesRange, NamesSize};

use crate::Said;
use crate::about::{
    read_about_coll, read_about_object, read_about_value, read_coll_word, read_object_word,
    read_value_word,
};
use crate::both::both;
use crate::change::KeptOp;
use crate::data::{Data, read_data};
use crate::escape::read_name;
use crate::fail::WordFail;
use crate::number::read_number;
use crate::split::{four_words, is_text, split_once, three_words, two_words};
use crate::values::read_value_words;
use object_model::{Op, Read};
use std::alloc::{AllocError, Global};
use unit_fields::{CollName, Name};

/// What a line is by itself.
#[derive(Drop)]
pub enum Statement {
    /// An empty line, or a comment.
    PassedOver,
    /// The lines from here to the next `end` are one transaction.
    Begin,
    End,
    Says(Said),
}

/// The name of a collection that a word spells.
pub fn read_coll(alloc: Global, word: &[u8]) -> Result<CollName, WordFail>
    ensures { Finds (λ name. (name ≡ word.now) × IsCollName word.now) result }
{
    match CollName::read(alloc, word) {
        Ok(Some(name)) => Ok(name),
        Ok(None) => Err(WordFail::NotSpelled),
        Err(AllocError) => Err(WordFail::Memory),
    }
}

/// The names of a collection and of an object in it, if these words spell them.
pub fn read_names(alloc: Global, coll: &[u8], object: &[u8]) -> Result<(CollName, Name), WordFail>
    ensures { Finds (λ x. (x.0 ≡ coll.now) × IsCollName coll.now × IsNameWord object.now x.1) result }
{
    let coll = read_coll(alloc, coll)?;
    both(coll, read_name(alloc, object))
}

/// The names of a collection and of an object in it, and data, if these words spell them. The data are read last, once all
/// else is known to be good.
pub fn read_names_and_data(
    alloc: Global,
    coll: &[u8],
    object: &[u8],
    data_word: &[u8],
) -> Result<((CollName, Name), Data), WordFail>
    ensures { Finds (λ x. (x.0.0 ≡ coll.now) × IsCollName coll.now × IsNameWord object.now x.0.1 × IsDataWord data_word.now x.1) result }
{
    let names = read_names(alloc, coll, object)?;
    both(names, read_data(alloc, data_word))
}

/// `C O`: the names of a collection and of an object in it.
pub fn read_object(alloc: Global, text: &[u8]) -> Result<(CollName, Name), WordFail>
    ensures { Finds (λ x. NamesObject text.now x.0 x.1) result }
{
    let Some((coll, object)) = two_words(text) else {
        return Err(WordFail::NotSpelled);
    };
    read_names(alloc, coll, object)
}

/// `C O NUM NUM`: the names of a collection and of an object in it, an offset and a length.
fn read_range(alloc: Global, text: &[u8]) -> Result<(CollName, Name, u64, u64), WordFail>
    ensures { Finds (λ x. NamesRange text.now x.0 x.1 x.2 x.3) result }
{
    let Some((coll, object, off, len)) = four_words(text) else {
        return Err(WordFail::NotSpelled);
    };
    let Some(off) = read_number(off) else {
        return Err(WordFail::NotSpelled);
    };
    let Some(len) = read_number(len) else {
        return Err(WordFail::NotSpelled);
    };
    let (coll, object) = read_names(alloc, coll, object)?;
    Ok((coll, object, off, len))
}

/// `C O NUM`: the names of a collection and of an object in it, and a size.
fn read_size(alloc: Global, text: &[u8]) -> Result<(CollName, Name, u64), WordFail>
    ensures { Finds (λ x. NamesSize text.now x.0 x.1 x.2) result }
{
    let Some((coll, object, size)) = three_words(text) else {
        return Err(WordFail::NotSpelled);
    };
    let Some(size) = read_number(size) else {
        return Err(WordFail::NotSpelled);
    };
    let (coll, object) = read_names(alloc, coll, object)?;
    Ok((coll, object, size))
}

/// `read C O NUM NUM`: what a line says that has this behind its first word.
fn read_read(alloc: Global, rest: &[u8]) -> Result<Said, WordFail>
    ensures { Finds (IsLineOf (codes "read" ++ (0x20 ∷ rest.now))) result }
{
    let (coll, object, off, len) = read_range(alloc, rest)?;
    Ok(Said::read(Read::Bytes {
        coll,
        object,
        off,
        len,
    }))
}

/// `zero C O NUM NUM`: what a line says that has this behind its first word.
fn read_zero(alloc: Global, rest: &[u8]) -> Result<Said, WordFail>
    ensures { Finds (IsLineOf (codes "zero" ++ (0x20 ∷ rest.now))) result }
{
    let (coll, object, off, len) = read_range(alloc, rest)?;
    let op = Op::Zero { object, off, len };
    Ok(Said::op(alloc, coll, op))
}

/// `truncate C O NUM`: what a line says that has this behind its first word.
fn read_truncate(alloc: Global, rest: &[u8]) -> Result<Said, WordFail>
    ensures { Finds (IsLineOf (codes "truncate" ++ (0x20 ∷ rest.now))) result }
{
    let (coll, object, size) = read_size(alloc, rest)?;
    let op = Op::Truncate { object, size };
    Ok(Said::op(alloc, coll, op))
}

/// What the words of a write say.
fn write_of(
    alloc: Global,
    coll: &[u8],
    object: &[u8],
    off: &[u8],
    data_word: &[u8],
) -> Result<Said, WordFail>
    ensures { Finds (AreGoodWords (codes "write" ∷ coll.now ∷ object.now ∷ off.now ∷ data_word.now ∷ [])) result }
{
    let Some(off) = read_number(off) else {
        return Err(WordFail::NotSpelled);
    };
    let ((coll, object), bytes) = read_names_and_data(alloc, coll, object, data_word)?;
    let op = KeptOp::write(object, off, bytes);
    Ok(Said::kept_op(alloc, coll, op))
}

/// `write C O NUM DATA`: what a line says that has this behind its first word.
fn read_write(alloc: Global, rest: &[u8]) -> Result<Said, WordFail>
    ensures { Finds (IsLineOf (codes "write" ++ (0x20 ∷ rest.now))) result }
{
    let Some((coll, object, off, data)) = four_words(rest) else {
        return Err(WordFail::NotSpelled);
    };
    write_of(alloc, coll, object, off, data)
}

/// What a line of several words says.
fn read_words(alloc: Global, word: &[u8], rest: &[u8]) -> Result<Said, WordFail>
    requires { HasNo 0x20 word.now }
    ensures { Finds (IsLineOf (word.now ++ (0x20 ∷ rest.now))) result }
{
    if is_text(word, b"write") {
        return read_write(alloc, rest);
    }
    if is_text(word, b"read") {
        return read_read(alloc, rest);
    }
    if let Some(word) = read_object_word(word) {
        return read_about_object(alloc, word, rest);
    }
    if let Some(word) = read_coll_word(word) {
        return read_about_coll(alloc, word, rest);
    }
    read_other_words(alloc, word, rest)
}

/// What a line says that begins with neither `read` or `write` nor a word about a collection or an object as a whole.
fn read_other_words(alloc: Global, word: &[u8], rest: &[u8]) -> Result<Said, WordFail>
    requires one { HasNo 0x20 word.now }
    requires other { IsOtherThanWhole word.now }
    ensures { Finds (IsLineOf (word.now ++ (0x20 ∷ rest.now))) result }
{
    if is_text(word, b"zero") {
        return read_zero(alloc, rest);
    }
    if is_text(word, b"truncate") {
        return read_truncate(alloc, rest);
    }
    if let Some(word) = read_value_word(word) {
        return read_about_value(alloc, word, rest);
    }
    read_value_words(alloc, word, rest)
}

/// What a line says.
fn read_line(alloc: Global, text: &[u8]) -> Result<Said, WordFail>
    ensures { Finds (IsLineOf text.now) result }
{
    match split_once(text, b' ') {
        Some((word, rest)) => read_words(alloc, word, rest),
        None if is_text(text, b"wait") => Ok(Said::wait()),
        None => Err(WordFail::NotSpelled),
    }
}

fn is_passed_over(text: &[u8]) -> bool
    ensures { IsTrue result ↔ IsPassedOver text.now }
{
    match text {
        [first, ..] => *first == b'#',
        [] => true,
    }
}

/// Reads the text of a line, without its line feed.
pub fn read_statement(alloc: Global, text: &[u8]) -> Result<Statement, WordFail>
    ensures { Finds (Says text.now) result }
{
    if is_passed_over(text) {
        return Ok(Statement::PassedOver);
    }
    if is_text(text, b"begin") {
        return Ok(Statement::Begin);
    }
    if is_text(text, b"end") {
        return Ok(Statement::End);
    }
    match read_line(alloc, text) {
        Ok(said) => Ok(Statement::Says(said)),
        Err(why) => Err(why),
    }
}

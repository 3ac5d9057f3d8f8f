//! Lines that say what is done about a collection, an object as a whole or a value of it, and nothing more: their first word tells it.
ghost use Rattle.std.specs.Prelude.{◌≡◌, ◌≢◌, ◌++◌, ◌∷◌, MatchOption};
ghost use Rattle.script_text.specs.declared.about.CollWord.{CollWord};
ghost use Rattle.script_text.specs.declared.about.ObjectWord.{ObjectWord};
ghost use Rattle.script_text.specs.declared.about.ValueWord.{ValueWord};
ghost use Rattle.script_text.specs.Grammar.{IsLineOf};
ghost use Rattle.script_text.specs.About.{coll_word, coll_says, object_word, object_says, value_word, value_says};
ghost use Rattle.script_text.specs.Reading.{Finds};

use crate::Said;
use crate::fail::WordFail;
use crate::grammar::{read_coll, read_object};
use crate::split::is_text;
use crate::values::read_value;
use object_model::{Op, Read};
use std::alloc::Global;
use unit_fields::{CollName, Name};

/// The first word of a line that has `C` behind it.
#[derive(Clone, Copy)]
pub enum CollWord {
    MkColl,
    RmColl,
    List,
}

/// Which of these words a text is, if it is one of them.
pub fn read_coll_word(text: &[u8]) -> Option<CollWord>
    ensures { MatchOption result ((w : CollWord) → text.now ≢ coll_word w) (λ w. text.now ≡ coll_word w) }
{
    if is_text(text, b"mkcoll") {
        Some(CollWord::MkColl)
    } else if is_text(text, b"rmcoll") {
        Some(CollWord::RmColl)
    } else if is_text(text, b"list") {
        Some(CollWord::List)
    } else {
        None
    }
}

/// What a line says by this word about a collection.
fn said_of_coll(alloc: Global, word: CollWord, coll: CollName) -> Said
    ensures { result ≡ coll_says word coll }
{
    match word {
        CollWord::MkColl => Said::op(alloc, coll, Op::MkColl),
        CollWord::RmColl => Said::op(alloc, coll, Op::RmColl),
        CollWord::List => Said::read(Read::List { coll }),
    }
}

/// `C`: what a line says that has this behind its first word.
pub fn read_about_coll(alloc: Global, word: CollWord, rest: &[u8]) -> Result<Said, WordFail>
    ensures { Finds (IsLineOf (coll_word word ++ (0x20 ∷ rest.now))) result }
{
    let coll = read_coll(alloc, rest)?;
    Ok(said_of_coll(alloc, word, coll))
}

/// The first word of a line that has `C O` behind it.
#[derive(Clone, Copy)]
pub enum ObjectWord {
    Touch,
    Remove,
    RmAttrs,
    OmapClear,
    Sum,
    Stat,
    OmapHdr,
}

/// Which of these words a text is, if it is one of them.
pub fn read_object_word(text: &[u8]) -> Option<ObjectWord>
    ensures { MatchOption result ((w : ObjectWord) → text.now ≢ object_word w) (λ w. text.now ≡ object_word w) }
{
    if is_text(text, b"touch") {
        Some(ObjectWord::Touch)
    } else if is_text(text, b"remove") {
        Some(ObjectWord::Remove)
    } else if is_text(text, b"rmattrs") {
        Some(ObjectWord::RmAttrs)
    } else if is_text(text, b"omapclear") {
        Some(ObjectWord::OmapClear)
    } else if is_text(text, b"sum") {
        Some(ObjectWord::Sum)
    } else if is_text(text, b"stat") {
        Some(ObjectWord::Stat)
    } else if is_text(text, b"omaphdr") {
        Some(ObjectWord::OmapHdr)
    } else {
        None
    }
}

/// What a line says by this word about an object.
fn said_of_object(alloc: Global, word: ObjectWord, coll: CollName, object: Name) -> Said
    ensures { result ≡ object_says word coll object }
{
    match word {
        ObjectWord::Touch => Said::op(alloc, coll, Op::Touch { object }),
        ObjectWord::Remove => Said::op(alloc, coll, Op::Remove { object }),
        ObjectWord::RmAttrs => Said::op(alloc, coll, Op::RmAttrs { object }),
        ObjectWord::OmapClear => Said::op(alloc, coll, Op::OmapClear { object }),
        ObjectWord::Sum => Said::read(Read::Sum { coll, object }),
        ObjectWord::Stat => Said::read(Read::Stat { coll, object }),
        ObjectWord::OmapHdr => Said::read(Read::OmapHeader { coll, object }),
    }
}

/// `C O`: what a line says that has this behind its first word.
pub fn read_about_object(alloc: Global, word: ObjectWord, rest: &[u8]) -> Result<Said, WordFail>
    ensures { Finds (IsLineOf (object_word word ++ (0x20 ∷ rest.now))) result }
{
    let (coll, object) = read_object(alloc, rest)?;
    Ok(said_of_object(alloc, word, coll, object))
}

/// The first word of a line that has `C O NAME` behind it.
#[derive(Clone, Copy)]
pub enum ValueWord {
    RmAttr,
    GetAttr,
    OmapGet,
}

/// Which of these words a text is, if it is one of them.
pub fn read_value_word(text: &[u8]) -> Option<ValueWord>
    ensures { MatchOption result ((w : ValueWord) → text.now ≢ value_word w) (λ w. text.now ≡ value_word w) }
{
    if is_text(text, b"rmattr") {
        Some(ValueWord::RmAttr)
    } else if is_text(text, b"getattr") {
        Some(ValueWord::GetAttr)
    } else if is_text(text, b"omapget") {
        Some(ValueWord::OmapGet)
    } else {
        None
    }
}

/// What a line says by this word about a value of an object.
fn said_of_value(alloc: Global, word: ValueWord, coll: CollName, object: Name, name: Name) -> Said
    ensures { result ≡ value_says word coll object name }
{
    match word {
        ValueWord::RmAttr => Said::op(alloc, coll, Op::RmAttr { object, name }),
        ValueWord::GetAttr => Said::read(Read::GetAttr { coll, object, name }),
        ValueWord::OmapGet => Said::read(Read::OmapGet {
            coll,
            object,
            key: name,
        }),
    }
}

/// `C O NAME`: what a line says that has this behind its first word.
pub fn read_about_value(alloc: Global, word: ValueWord, rest: &[u8]) -> Result<Said, WordFail>
    ensures { Finds (IsLineOf (value_word word ++ (0x20 ∷ rest.now))) result }
{
    let ((coll, object), name) = read_value(alloc, rest)?;
    Ok(said_of_value(alloc, word, coll, object, name))
}

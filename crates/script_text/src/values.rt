//! What the lines about attributes and omaps say.
ghost use Rattle.std.specs.Prelude.{◌++◌, ◌∷◌, codes};
ghost use Rattle.script_text.specs.Grammar.{HasNo, IsLineOf, IsNameWord};
ghost use Rattle.script_text.specs.Reading.{Finds, IsLaterWord, NamesAttr, NamesHeader, NamesKeyRange, NamesKeys, NamesPairs, NamesValue};

use crate::both::both;
use crate::change::KeptOp;
use crate::data::Data;
use crate::escape::read_name;
use crate::fail::WordFail;
use crate::grammar::{read_coll, read_names, read_names_and_data, read_object};
use crate::pair::{KeptPair, read_keys, read_pair, read_pairs};
use crate::split::{four_words, is_text, three_words, words_before};
use crate::{Said, What};
use byte_maps::Items;
use object_model::{Command, Op};
use std::alloc::Global;
use unit_fields::{CollName, Name};

/// `C O NAME`: the names of a collection, of an object in it and of a value of that.
pub fn read_value(alloc: Global, text: &[u8]) -> Result<((CollName, Name), Name), WordFail>
    ensures { Finds (λ x. NamesValue text.now x.0.0 x.0.1 x.1) result }
{
    let Some((coll, object, name)) = three_words(text) else {
        return Err(WordFail::NotSpelled);
    };
    let names = read_names(alloc, coll, object)?;
    both(names, read_name(alloc, name))
}

/// `C O DATA`: the names of a collection and of an object in it, and data.
fn read_header(alloc: Global, text: &[u8]) -> Result<((CollName, Name), Data), WordFail>
    ensures { Finds (λ x. NamesHeader text.now x.0.0 x.0.1 x.1) result }
{
    let Some((coll, object, value)) = three_words(text) else {
        return Err(WordFail::NotSpelled);
    };
    read_names_and_data(alloc, coll, object, value)
}

/// `C O NAME DATA`: the names of a collection, of an object in it and of an attribute of that, and data.
fn read_attr(alloc: Global, text: &[u8]) -> Result<((CollName, Name), KeptPair), WordFail>
    ensures { Finds (λ x. NamesAttr text.now x.0.0 x.0.1 x.1.key x.1.value) result }
{
    let Some((coll, object, name, value)) = four_words(text) else {
        return Err(WordFail::NotSpelled);
    };
    let names = read_names(alloc, coll, object)?;
    both(names, read_pair(alloc, name, value))
}

/// The keys that two words spell.
fn read_two_keys(alloc: Global, first: &[u8], last: &[u8]) -> Result<(Name, Name), WordFail>
    ensures { Finds (λ x. IsNameWord first.now x.0 × IsNameWord last.now x.1) result }
{
    let first = read_name(alloc, first)?;
    both(first, read_name(alloc, last))
}

/// `C O NAME NAME`: the names of a collection and of an object in it, and two keys.
fn read_key_range(alloc: Global, text: &[u8]) -> Result<((CollName, Name), (Name, Name)), WordFail>
    ensures { Finds (λ x. NamesKeyRange text.now x.0.0 x.0.1 x.1.0 x.1.1) result }
{
    let Some((coll, object, first, last)) = four_words(text) else {
        return Err(WordFail::NotSpelled);
    };
    let names = read_names(alloc, coll, object)?;
    both(names, read_two_keys(alloc, first, last))
}

/// `C O` and one or more NAME: the names of a collection and of an object in it, and keys.
fn read_key_list(alloc: Global, text: &[u8]) -> Result<((CollName, Name), Items<Name>), WordFail>
    ensures { Finds (λ x. NamesKeys text.now x.0.0 x.0.1 x.1) result }
{
    let Some((coll, object, rest)) = words_before(text) else {
        return Err(WordFail::NotSpelled);
    };
    let names = read_names(alloc, coll, object)?;
    both(names, read_keys(alloc, rest))
}

/// `C O` and one or more `NAME DATA`: the names of a collection and of an object in it, and pairs.
fn read_pair_list(
    alloc: Global,
    text: &[u8],
) -> Result<((CollName, Name), Items<KeptPair>), WordFail>
    ensures { Finds (λ x. NamesPairs text.now x.0.0 x.0.1 x.1) result }
{
    let Some((coll, object, rest)) = words_before(text) else {
        return Err(WordFail::NotSpelled);
    };
    let names = read_names(alloc, coll, object)?;
    both(names, read_pairs(alloc, rest))
}

/// `setattr C O NAME DATA`: what a line says that has this behind its first word.
fn read_setattr(alloc: Global, rest: &[u8]) -> Result<Said, WordFail>
    ensures { Finds (IsLineOf (codes "setattr" ++ (0x20 ∷ rest.now))) result }
{
    let ((coll, object), pair) = read_attr(alloc, rest)?;
    let op = KeptOp::set_attr(object, pair);
    Ok(Said::kept_op(alloc, coll, op))
}

/// `omapset C O NAME DATA ..`: what a line says that has this behind its first word.
fn read_omapset(alloc: Global, rest: &[u8]) -> Result<Said, WordFail>
    ensures { Finds (IsLineOf (codes "omapset" ++ (0x20 ∷ rest.now))) result }
{
    let ((coll, object), pairs) = read_pair_list(alloc, rest)?;
    let op = KeptOp::omap_set(object, pairs);
    Ok(Said::kept_op(alloc, coll, op))
}

/// `omaprm C O NAME ..`: what a line says that has this behind its first word.
fn read_omaprm(alloc: Global, rest: &[u8]) -> Result<Said, WordFail>
    ensures { Finds (IsLineOf (codes "omaprm" ++ (0x20 ∷ rest.now))) result }
{
    let ((coll, object), keys) = read_key_list(alloc, rest)?;
    let op = Op::OmapRm { object, keys };
    Ok(Said::op(alloc, coll, op))
}

/// `omaprmrange C O NAME NAME`: what a line says that has this behind its first word.
fn read_omaprmrange(alloc: Global, rest: &[u8]) -> Result<Said, WordFail>
    ensures { Finds (IsLineOf (codes "omaprmrange" ++ (0x20 ∷ rest.now))) result }
{
    let ((coll, object), (first, last)) = read_key_range(alloc, rest)?;
    let op = Op::OmapRmRange {
        object,
        first,
        last,
    };
    Ok(Said::op(alloc, coll, op))
}

/// `omapheader C O DATA`: what a line says that has this behind its first word.
fn read_omapheader(alloc: Global, rest: &[u8]) -> Result<Said, WordFail>
    ensures { Finds (IsLineOf (codes "omapheader" ++ (0x20 ∷ rest.now))) result }
{
    let ((coll, object), value) = read_header(alloc, rest)?;
    let op = KeptOp::omap_header(object, value);
    Ok(Said::kept_op(alloc, coll, op))
}

/// What a line says that begins with `setattr` or with a word of an omap that sets pairs or a header or removes keys.
pub fn read_value_words(alloc: Global, word: &[u8], rest: &[u8]) -> Result<Said, WordFail>
    requires one { HasNo 0x20 word.now }
    requires later { IsLaterWord word.now }
    ensures { Finds (IsLineOf (word.now ++ (0x20 ∷ rest.now))) result }
{
    if is_text(word, b"setattr") {
        return read_setattr(alloc, rest);
    }
    if is_text(word, b"omapset") {
        return read_omapset(alloc, rest);
    }
    if is_text(word, b"omaprm") {
        return read_omaprm(alloc, rest);
    }
    if is_text(word, b"omaprmrange") {
        return read_omaprmrange(alloc, rest);
    }
    if is_text(word, b"omapheader") {
        return read_omapheader(alloc, rest);
    }
    Err(WordFail::NotSpelled)
}

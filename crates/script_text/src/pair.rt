//! Omap keys and pairs, one behind another in a line.
ghost use Rattle.std.specs.Prelude.{◌≡◌, IfOk};
ghost use Rattle.script_text.specs.Reading.{Finds, SpellsKeys, SpellsPair, SpellsPairs};

use crate::data::{Data, read_data};
use crate::escape::read_name;
use crate::fail::WordFail;
use crate::split::{split_once, two_words, words_before};
use byte_maps::Items;
use object_model::Pair;
use std::alloc::{AllocError, Global};
use std::marker::Model;
use unit_fields::Name;

/// A pair, in memory in proportion to the words that spell it.
#[derive(Drop)]
pub struct KeptPair {
    key: Name,
    value: Data,
}

impl Model for KeptPair {
    ghost use Rattle.object_model.specs.declared.op.Pair.{Pair};

    ghost Value = { Pair };

    ghost view = { λ a. record { key = a.key; value = a.value } };
}

impl KeptPair {
    /// The pair, with its value written out.
    pub fn into_pair(self, alloc: Global) -> Result<Pair, AllocError>
        ensures { IfOk result (λ made. made ≡ self) }
    {
        let value = self.value.into_bytes(alloc)?;
        Ok(Pair {
            key: self.key,
            value,
        })
    }
}

/// The pairs, with their values written out.
pub fn written_out(alloc: Global, pairs: Items<KeptPair>) -> Result<Items<Pair>, AllocError>
    ensures { IfOk result (λ made. made ≡ pairs) }
{
    let mut made = Items::new(alloc);
    let mut left = pairs.into_vec().into_iter();
    'pairs: while let Some(pair) = left.next() {
        made.push(pair.into_pair(alloc)?)?;
    }
    Ok(made)
}

/// The keys that a text spells, one at least.
pub fn read_keys(alloc: Global, text: &[u8]) -> Result<Items<Name>, WordFail>
    ensures { Finds (SpellsKeys text.now) result }
{
    let mut keys = Items::new(alloc);
    let mut rest = text;
    'keys: while let Some((word, behind)) = split_once(rest, b' ') {
        let key = read_name(alloc, word)?;
        keys.push(key)?;
        rest = behind;
    }
    let last = read_name(alloc, rest)?;
    keys.push(last)?;
    Ok(keys)
}

/// The pair that two words spell.
pub fn read_pair(alloc: Global, key: &[u8], value: &[u8]) -> Result<KeptPair, WordFail>
    ensures { Finds (SpellsPair key.now value.now) result }
{
    let key = read_name(alloc, key)?;
    match read_data(alloc, value) {
        Ok(value) => Ok(KeptPair { key, value }),
        Err(why) => {
            drop(key);
            Err(why)
        }
    }
}

/// The pairs that a text spells, one at least.
pub fn read_pairs(alloc: Global, text: &[u8]) -> Result<Items<KeptPair>, WordFail>
    ensures { Finds (SpellsPairs text.now) result }
{
    let mut pairs = Items::new(alloc);
    let mut rest = text;
    'pairs: while let Some((key, value, behind)) = words_before(rest) {
        let pair = read_pair(alloc, key, value)?;
        pairs.push(pair)?;
        rest = behind;
    }
    let Some((key, value)) = two_words(rest) else {
        return Err(WordFail::NotSpelled);
    };
    let last = read_pair(alloc, key, value)?;
    pairs.push(last)?;
    Ok(pairs)
}

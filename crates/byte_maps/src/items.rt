//! A list of values as a type of its own.
ghost use Rattle.std.specs.Prelude.{◌≡◌, ◌↔◌, ◌++◌, ◌∷◌, [], length, IsTrue, IfOk, OnOk, OnErr};

use crate::bytes::Duplicate;
use std::alloc::{AllocError, Global};
use std::marker::Model;

/// A list of values, seen as the list: unlike a `Vec`'s, its meaning has no capacity, so that two with the same values are equal in clauses.
#[derive(Debug, Drop)]
pub struct Items<T> {
    held: Vec<T>,
}

impl<T> Model for Items<T> {
    ghost use Rattle.std.specs.Prelude.{List};
    ghost use Rattle.std.specs.Coded.{coded_list};

    ghost Value = { List T };

    ghost coded = { coded_list T.code };

    ghost view = { λ a. a.held.items };
}

impl<T> Items<T> {
    /// The empty list. It takes no memory.
    pub fn new(alloc: Global) -> Items<T>
        ensures { result ≡ [] }
    {
        Items {
            held: Vec::new(alloc),
        }
    }

    /// The values of a vector, which is moved in.
    pub fn from_vec(held: Vec<T>) -> Items<T>
        ensures { result ≡ held.items }
    {
        Items { held }
    }

    /// The vector that holds the values, with room as it comes.
    pub fn into_vec(self) -> Vec<T>
        ensures { result.items ≡ self }
    {
        self.held
    }

    /// The values, lent.
    pub fn as_slice(&self) -> &[T]
        ensures { result.now ≡ self.now }
    {
        self.held.as_slice()
    }

    /// How many values there are.
    pub fn len(&self) -> usize
        ensures { result ≡ length self.now }
    {
        self.held.len()
    }

    /// Whether there is no value.
    pub fn is_empty(&self) -> bool
        ensures { IsTrue result ↔ (self.now ≡ []) }
    {
        self.held.is_empty()
    }

    /// Makes room for `more` values. It is a hint: the meaning has no capacity, so no clause says that the next pushes succeed.
    pub fn reserve(&mut self, more: usize) -> Result<(), AllocError>
        ensures { self.new ≡ self.old }
    {
        self.held.reserve(more)
    }
}

impl<T: Copy> Items<T> {
    /// A copy of these values.
    pub fn from_slice(alloc: Global, values: &[T]) -> Result<Items<T>, AllocError>
        ensures { IfOk result (λ made. made ≡ values.now) }
    {
        Ok(Items {
            held: Vec::from_slice(alloc, values)?,
        })
    }
}

impl<T: Drop> Items<T> {
    /// Adds a value at the end. Where memory runs out, the value is dropped.
    pub fn push(&mut self, item: T) -> Result<(), AllocError>
        ensures ok { OnOk result (self.new ≡ self.old ++ item ∷ []) }
        ensures err { OnErr result (self.new ≡ self.old) }
    {
        Ok(self.held.push(item)?)
    }
}

impl<T: Duplicate + Drop> Duplicate for Items<T> {
    fn duplicate(&self, alloc: Global) -> Result<Items<T>, AllocError> {
        let mut held = Vec::with_capacity(alloc, self.len())?;
        for item in self.as_slice() {
            held.push(item.duplicate(alloc)?)?;
        }
        Ok(Items { held })
    }
}

//! What becomes of a page of an object while a transaction is planned.

/// What an edit makes of a page. Where it gets new bytes, some of its old ones stay beside them (`old`), or none.
#[derive(Clone, Copy)]
pub enum Fate {
    /// It stays as it is.
    Stays,
    /// It is a hole.
    Hole,
    /// It is changed on the unit that this transaction took for it, by the taking of this number.
    Changed { taking: u32, old: bool },
    /// It takes a unit.
    Takes { old: bool },
}

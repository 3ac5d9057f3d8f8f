//! What the spelling of transactions comes to.

ghost use Rattle.std.specs.Prelude.{◌≡◌, ℕ, List, ◌++◌};
ghost use Rattle.object_model.specs.Prelude.{Change};
ghost use Rattle.txn_codec.specs.Prelude.{transaction_bytes, FitsTransaction, IsEncodable};

/// Bytes begin with at most one transaction, and what follows it is determined: it is read back whatever follows.
pub fn one_transaction_at_the_front()
    ensures { (s t : Change) (x y : List ℕ) → FitsTransaction s → FitsTransaction t → transaction_bytes s ++ x ≡ transaction_bytes t ++ y
        → (s ≡ t) × (x ≡ y) }
{}

/// A transaction that was read can be written again.
pub fn what_was_read_is_encodable()
    ensures { (t : Change) → FitsTransaction t → IsEncodable t }
{}

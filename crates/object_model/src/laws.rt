//! What the definitions come to. Each function has a law for its contract and does nothing.
ghost use Rattle.std.specs.Prelude.{◌≡◌, ℕ, List, [], ◌∷◌, ◌++◌, Err, true, false};
ghost use Rattle.std.specs.FinMap as finite;
ghost use Rattle.object_model.specs.declared.op.Refusal.{Refusal};
ghost use Rattle.object_model.specs.Objects.{Objects};
ghost use Rattle.object_model.specs.Effect.{Change, transaction_effect, replay, names_of, is_named, any_named, changes_on, OneName, HaveOneName};

/// A replay may be cut in two anywhere.
pub fn replay_of_two_lists()
    ensures { (objects : Objects) (xs ys : List Change) →
        replay objects (xs ++ ys) ≡ replay (replay objects xs) ys }
{}

/// A refused transaction changes nothing.
pub fn replay_of_refused()
    ensures { (objects : Objects) (change : Change) (refusal : Refusal) →
        transaction_effect change objects ≡ Err refusal → replay objects (change ∷ []) ≡ objects }
{}

/// So far each transaction has one name, that of its collection.
pub fn a_transaction_has_one_name()
    ensures one { (change : Change) → OneName (names_of change) }
    ensures own { (change : Change) → is_named change.coll (names_of change) ≡ true }
    ensures no_other { (change : Change) (coll : List ℕ) → OneName (names_of change) → is_named coll (names_of change) ≡ true → coll ≡ change.coll }
{}

/// A transaction touches no collection but those that it names.
pub fn replay_keeps_other_collections()
    ensures { (objects : Objects) (change : Change) (coll : List ℕ) →
        is_named coll (names_of change) ≡ false → finite.get (replay objects (change ∷ [])) coll ≡ finite.get objects coll }
{}

/// Two transactions that have no name in common may change places.
pub fn replay_of_two_collections()
    ensures { (objects : Objects) (first second : Change) →
        any_named (names_of first) (names_of second) ≡ false → replay objects (first ∷ second ∷ []) ≡ replay objects (second ∷ first ∷ []) }
{}

/// Two lists of transactions of one name, which have each collection's in the same order, replay to the same objects.
pub fn replay_by_collections()
    ensures { (objects : Objects) (xs ys : List Change) → HaveOneName xs → HaveOneName ys →
        ((coll : List ℕ) → changes_on coll xs ≡ changes_on coll ys) → replay objects xs ≡ replay objects ys }
{}

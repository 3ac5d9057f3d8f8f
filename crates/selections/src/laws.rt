//! What fair selections come to.
ghost use Rattle.std.specs.Prelude.{◌≡◌, ◌⊎◌, ℕ, Bool, true, List, [], ◌∷◌, ◌++◌, fold, Contains};
ghost use Rattle.std.specs.List.{AllByRecursion};
ghost use Rattle.selections.specs.Fair.{under, IsFair, IsComplete, HasLast, ShareNoName, EachHasName};
ghost use Rattle.selections.specs.Example.{is_on_side, nine};

/// Nothing is a fair selection, and so is all; a front of one is one, and so is what goes on behind all of a front. Which are fair depends
/// on the order within each name alone. What holds of nothing, and goes on with each that comes next, holds of each fair selection.
pub fn fair_selections()
    ensures nothing { (on : ℕ → ℕ → Bool) (all : List ℕ) → IsFair on all [] }
    ensures complete { (on : ℕ → ℕ → Bool) (all some : List ℕ) → IsComplete on all some → IsFair on all some }
    ensures front { (on : ℕ → ℕ → Bool) (all xs ys : List ℕ) → IsFair on all (xs ++ ys) → IsFair on all xs }
    ensures behind { (on : ℕ → ℕ → Bool) (xs ys some : List ℕ) → IsFair on ys some → IsFair on (xs ++ ys) (xs ++ some) }
    ensures among { (on : ℕ → ℕ → Bool) (all all' some : List ℕ) → IsComplete on all all' → IsFair on all some → IsFair on all' some }
    ensures fronts { (on : ℕ → ℕ → Bool) (all : List ℕ) (p : List ℕ → Bool) → p [] ≡ true
        → ((some : List ℕ) (x : ℕ) → IsFair on all (some ++ x ∷ []) → p some ≡ true → p (some ++ x ∷ []) ≡ true)
        → (some : List ℕ) → IsFair on all some → p some ≡ true }
{}

/// Where each has a name, a fair selection among these and one that came last has it last of all its names, or is fair among these.
pub fn one_that_came_last()
    ensures { (on : ℕ → ℕ → Bool) (all : List ℕ) (x : ℕ) (some : List ℕ) → EachHasName on → IsFair on (all ++ x ∷ []) some
        → IsFair on all some ⊎ HasLast on all x some }
{}

/// Where each has a name, of none nothing is selected fairly but nothing, and of one nothing or that one.
pub fn few_selections()
    ensures of_none { (on : ℕ → ℕ → Bool) (some : List ℕ) → EachHasName on → IsFair on [] some → some ≡ [] }
    ensures of_one { (on : ℕ → ℕ → Bool) (x : ℕ) (some : List ℕ) → EachHasName on → IsFair on (x ∷ []) some
        → (some ≡ []) ⊎ (some ≡ x ∷ []) }
{}

/// Where each has a name, two lists with the same order within each name come to the same, if those that share no name commute.
pub fn order_between_names()
    ensures { (on : ℕ → ℕ → Bool) (f : ℕ → ℕ → ℕ) (inv : ℕ → Bool) → EachHasName on
        → ((s x : ℕ) → inv s ≡ true → inv (f s x) ≡ true)
        → ((s x y : ℕ) → inv s ≡ true → ShareNoName on x y → f (f s y) x ≡ f (f s x) y)
        → (s : ℕ) (xs ys : List ℕ) → inv s ≡ true → ((n : ℕ) → under on n xs ≡ under on n ys) → fold f s xs ≡ fold f s ys }
{}

/// An example: of 2 and 3 under one name and 4 under another nine selections are fair.
pub fn nine_are_fair()
    ensures fair { AllByRecursion (IsFair is_on_side (2 ∷ 3 ∷ 4 ∷ [])) nine }
    ensures no_other { (some : List ℕ) → IsFair is_on_side (2 ∷ 3 ∷ 4 ∷ []) some → Contains nine some }
{}

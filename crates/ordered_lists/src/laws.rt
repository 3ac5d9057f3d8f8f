//! What the definitions come to.
ghost use Rattle.std.specs.Prelude.{◌≡◌, ◌↔◌, ◌<◌, ℕ, List};
ghost use Rattle.ordered_lists.specs.Lists.{IsIn, Ascend};

/// Two ascending lists with the same numbers are one.
pub fn the_same_numbers_make_one_list()
    ensures { (xs ys : List ℕ) → Ascend (λ a b. a < b) xs → Ascend (λ a b. a < b) ys → ((x : ℕ) → IsIn x xs ↔ IsIn x ys) → xs ≡ ys }
{}

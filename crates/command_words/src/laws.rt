//! What the definitions come to.
ghost use Rattle.std.specs.Prelude.{◌≡◌, ◌∷◌, List, ℕ};
ghost use Rattle.command_words.specs.CommandLine.{TableTakes, IsInRange, Spells};
ghost use Rattle.command_words.specs.Spelling.{spelling, HasPlainNames};
ghost use Rattle.command_words.specs.declared.command_line.CommandLine.{CommandLine};

/// Words that the table takes spell a command line.
pub fn taken_words_spell_a_line()
    ensures { (words : List (List ℕ)) → TableTakes words → (line : CommandLine) × Spells words line }
{}

/// Words spell one command line at most.
pub fn words_spell_one_line()
    ensures { (words : List (List ℕ)) (a b : CommandLine) → Spells words a → Spells words b → a ≡ b }
{}

/// A line within its limits that is spelled in the order of the table, with names that don't begin with a dash, is one, and says what it spells.
pub fn a_spelled_line_is_one()
    ensures { (program : List ℕ) (line : CommandLine) → IsInRange line → HasPlainNames line → Spells (program ∷ spelling line) line }
{}

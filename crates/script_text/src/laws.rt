//! Laws of the grammar. Their bodies are empty: the clause is the law.
ghost use Rattle.std.specs.Prelude.{◌≡◌, ◌≤◌, ℕ, List};
ghost use Rattle.std.specs.List.{AllByRecursion};
ghost use Rattle.script_text.specs.Grammar.{FitsWhat, IsDataWord, IsLineOf, IsNameWord, IsNumber};
ghost use Rattle.script_text.specs.Blocks.{command_limit};
ghost use Rattle.script_text.specs.Script.{commands, IsScript, IsBadAt};
ghost use Rattle.script_text.specs.declared.line.Line.{Line};
ghost use Rattle.script_text.specs.declared.line.What.{What};

/// A word spells one number.
pub fn one_number()
    ensures { (word : List ℕ) (n m : ℕ) → IsNumber word n → IsNumber word m → n ≡ m }
{}

/// A word spells one name.
pub fn one_name()
    ensures { (word name other : List ℕ) → IsNameWord word name → IsNameWord word other → name ≡ other }
{}

/// A name has one spelling.
pub fn one_word_for_a_name()
    ensures { (word other name : List ℕ) → IsNameWord word name → IsNameWord other name → word ≡ other }
{}

/// A word spells one list of bytes, though most lists have more than one spelling.
pub fn one_data()
    ensures { (word bytes other : List ℕ) → IsDataWord word bytes → IsDataWord word other → bytes ≡ other }
{}

/// A line says at most one thing.
pub fn one_meaning()
    ensures { (text : List ℕ) (a b : What) → IsLineOf text a → IsLineOf text b → a ≡ b }
{}

/// The bytes of a script give one list of commands and `wait`s.
pub fn one_script()
    ensures { (bytes : List ℕ) (a b : List Line) → IsScript bytes a → IsScript bytes b → a ≡ b }
{}

/// A script has no bad line.
pub fn script_or_bad()
    ensures { (bytes : List ℕ) (lines : List Line) (n : ℕ) → IsScript bytes lines → ¬ (IsBadAt bytes n) }
{}

/// Bytes have at most one first bad line.
pub fn one_bad_line()
    ensures { (bytes : List ℕ) (n m : ℕ) → IsBadAt bytes n → IsBadAt bytes m → n ≡ m }
{}

/// Each line of a script is such as clients can run.
pub fn each_line_fits()
    ensures { (bytes : List ℕ) (lines : List Line) → IsScript bytes lines → AllByRecursion (λ l. FitsWhat l.what) lines }
{}

/// A script has 16384 commands at most.
pub fn few_commands()
    ensures { (bytes : List ℕ) (lines : List Line) → IsScript bytes lines → commands lines ≤ command_limit }
{}

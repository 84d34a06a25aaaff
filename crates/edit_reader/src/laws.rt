//! The laws of lines.
ghost use Rattle.std.specs.Prelude.{◌≡◌, ◌≤◌, ◌↔◌, ℕ, List, IsTrue, Some, Result, Ok, take};
ghost use Rattle.itpg_base.specs.declared.text_code.TextCode.{TextCode};
ghost use Rattle.script_lex.specs.Lexemes.{AWord};
ghost use Rattle.script_lex.specs.Table.{first_token};
ghost use Rattle.edit_reader.specs.Readings.{Reading};
ghost use Rattle.edit_reader.specs.Lines.{LineOf};
ghost use Rattle.edit_reader.specs.Moments.{AsksOfMoments, AsksForLabels};
ghost use Rattle.edit_reader.specs.Names.{is_word, AsksForWords};

/// Each line is exactly one thing: it asks for something, or has a first fault.
pub fn law_of_lines()
    ensures some { (line : List ℕ) → (result : Result Reading TextCode) × LineOf line result }
    ensures one { (line : List ℕ) (a b : Result Reading TextCode) → LineOf line a → LineOf line b → a ≡ b }
{}

/// Where a line asks for a change, each of its numbers is a moment.
pub fn law_of_moments()
    ensures { (line : List ℕ) (reading : Reading) → LineOf line (Ok reading) → AsksOfMoments reading }
{}

/// Where a line declares an object, its labels are a set of labels.
pub fn law_of_labels()
    ensures { (line : List ℕ) (reading : Reading) → LineOf line (Ok reading) → AsksForLabels reading }
{}

/// Where a line gives a graph, an object, a watch, a pin or a follow its name, that is a word.
pub fn law_of_names()
    ensures { (line : List ℕ) (reading : Reading) → LineOf line (Ok reading) → AsksForWords reading }
{}

/// A word is exactly one word token.
pub fn law_of_words()
    ensures { (name : List ℕ) → IsTrue (is_word name) ↔ (first_token name ≡ Some (AWord name)) }
{}

/// A line is what its first 65,538 bytes are, or any longer front: of a longer line no more need be kept.
pub fn law_of_long_lines()
    ensures { (line : List ℕ) (n : ℕ) (result : Result Reading TextCode) → 65538 ≤ n → LineOf (take n line) result ↔ LineOf line result }
{}

//! The laws of the tokens of a line.
ghost use Rattle.std.specs.Prelude.{◌≡◌, [], ◌∷◌, ◌++◌, ℕ, List, Option};
ghost use Rattle.itpg_base.specs.declared.text_code.TextCode.{TextCode};
ghost use Rattle.script_lex.specs.Lines.{Placed, IsNext, EndsAt, AreTokens, LeadTo, AreWritten};

/// From each place on, a line has exactly one list of tokens, and one end.
pub fn law_of_tokens()
    ensures some { (line : List ℕ) (at : ℕ) → (tokens : List Placed) × ((end : Option TextCode) × AreTokens line at tokens end) }
    ensures one { (line : List ℕ) (at : ℕ) (xs ys : List Placed) (e f : Option TextCode) → AreTokens line at xs e → AreTokens line at ys f → (xs ≡ ys) × (e ≡ f) }
{}

/// At each place of a line one token is the next, or the line ends there in one way, and never both.
pub fn law_of_places()
    ensures token { (line : List ℕ) (at : ℕ) (x y : Placed) → IsNext line at x → IsNext line at y → x ≡ y }
    ensures end { (line : List ℕ) (at : ℕ) (e f : Option TextCode) → EndsAt line at e → EndsAt line at f → e ≡ f }
    ensures apart { (line : List ℕ) (at : ℕ) (t : Placed) (end : Option TextCode) → IsNext line at t → EndsAt line at end → ⊥ }
{}

/// Reading one token behind another gives the tokens of the line: `more` is a step, and `end` the last.
/// What is read and the tokens of the rest are those of the whole (`rest`).
pub fn law_of_reading()
    ensures more { (line : List ℕ) (at to : ℕ) (tokens : List Placed) (t : Placed) → LeadTo line at tokens to → IsNext line to t → LeadTo line at (tokens ++ t ∷ []) t.to }
    ensures end { (line : List ℕ) (at to : ℕ) (tokens : List Placed) (end : Option TextCode) → LeadTo line at tokens to → EndsAt line to end → AreTokens line at tokens end }
    ensures rest { (line : List ℕ) (at to : ℕ) (xs ys : List Placed) (end : Option TextCode) → LeadTo line at xs to → AreTokens line to ys end → AreTokens line at (xs ++ ys) end }
{}

/// The tokens of a line, with the blanks between them, are the line up to its end or its fault.
pub fn law_of_lines()
    ensures { (line : List ℕ) (at : ℕ) (tokens : List Placed) (end : Option TextCode) → AreTokens line at tokens end → AreWritten line at tokens }
{}

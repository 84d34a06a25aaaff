//! The laws of coalesced lists.
ghost use Rattle.std.specs.Prelude.{◌≡◌, ◌↔◌, ◌⊎◌, ℤ, List, Bool, IsTrue, Option, Some};
ghost use Rattle.itpg_base.specs.Spans.{Span as PlainSpan, Within, Covers, IsCoalesced};
ghost use Rattle.itpg_base.specs.Words.{Word};
ghost use Rattle.itpg_base.specs.Graphs.{Valued, RunsHave, AreRunsOfValues};
ghost use Rattle.interval_set.specs.Runs.{AreRuns, AreRunsOf, HoldsBetween, LiesBetween, HasPut, HasCleared};

/// Two coalesced lists with the same moments are equal.
pub fn law_of_uniqueness()
    ensures { (xs ys : List PlainSpan) → IsCoalesced xs → IsCoalesced ys → ((t : ℤ) → Covers xs t ↔ Covers ys t) → xs ≡ ys }
{}

/// Two lists of runs with the same values at the same moments are equal.
pub fn law_of_unique_values()
    ensures { (xs ys : List Valued) → AreRunsOfValues xs → AreRunsOfValues ys → ((t : ℤ) (value : Word) → RunsHave xs t value ↔ RunsHave ys t value) → xs ≡ ys }
{}

/// Each set of moments that a test gives, and that lies between two moments, has a coalesced list.
pub fn law_of_existence()
    ensures { (test : ℤ → Bool) (low high : ℤ) → HoldsBetween low high test → (spans : List PlainSpan) × AreRuns (λ t. IsTrue (test t)) spans }
{}

/// Values at moments, at most one at each, that lie between two moments have a list of runs.
pub fn law_of_existing_values()
    ensures { (value_at : ℤ → Option Word) (low high : ℤ) → LiesBetween low high value_at → (runs : List Valued) × AreRunsOf (λ t value. value_at t ≡ Some value) runs }
{}

/// What each change leaves has a list, so that the calls that count it speak of one.
pub fn law_of_changes()
    ensures joined { (old : List PlainSpan) (s : PlainSpan) → (spans : List PlainSpan) × AreRuns (λ t. Covers old t ⊎ Within t s) spans }
    ensures cut { (old : List PlainSpan) (s : PlainSpan) → (spans : List PlainSpan) × AreRuns (λ t. Covers old t × (¬ Within t s)) spans }
    ensures put { (old : List Valued) (s : PlainSpan) (value : Word) → AreRunsOfValues old → (runs : List Valued) × AreRunsOf (HasPut old s value) runs }
    ensures cleared { (old : List Valued) (s : PlainSpan) → AreRunsOfValues old → (runs : List Valued) × AreRunsOf (HasCleared old s) runs }
{}

//! The laws of the words.
ghost use Rattle.std.specs.Prelude.{◌≡◌, List, [], ◌∷◌, codes, true, false};
ghost use Rattle.clap.specs.Words.{Text};
ghost use Rattle.command_words.specs.Sentence.{IsSentence, FitsWith};
ghost use Rattle.command_words.specs.declared.options.Options.{Options};
ghost use Rattle.command_words.specs.OptionsOf.{AreOptionsOf};

/// Words ask for no two options.
pub fn law_of_one_reading()
    ensures { (words : List Text) (a b : Options) → AreOptionsOf words a → AreOptionsOf words b → a ≡ b }
{}

/// The flag asks for JSON lines wherever it stands, takes no value, and stands at most once.
pub fn law_of_flags()
    ensures none { FitsWith [] false }
    ensures alone { FitsWith (codes "--json" ∷ []) true }
    ensures behind { FitsWith (codes "--trial=7" ∷ codes "--json" ∷ []) true }
    ensures before { FitsWith (codes "--json" ∷ codes "--max-rows" ∷ codes "4" ∷ []) true }
    ensures as_value { ¬ IsSentence (codes "--max-rows" ∷ codes "--json" ∷ []) }
    ensures with_value { ¬ IsSentence (codes "--json=true" ∷ []) }
    ensures twice { ¬ IsSentence (codes "--json" ∷ codes "--json" ∷ []) }
{}

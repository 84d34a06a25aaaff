//! Laws of scripts. Each is a clause of a function that does nothing.
ghost use Rattle.std.specs.Prelude.{◌≡◌, ◌++◌, ℕ};
ghost use Rattle.trial_script.specs.Draws.{draw};
ghost use Rattle.trial_script.specs.Script.{AskNothing, ask_lines, edits, script};

/// A script ends with three questions, and no line before them asks anything.
pub fn law_of_questions()
    ensures parts { (number : ℕ) → script number ≡ edits number ++ ask_lines }
    ensures others { (number : ℕ) → AskNothing (edits number) }
{}

/// The first draw of a trial, worked out by hand.
#[tactic(auto, unfolding(crate::specs::Draws::after, crate::specs::Draws::drawn, crate::specs::Draws::stepped))]
pub fn law_of_draws()
    ensures { draw 0 0 200 ≡ 7 }
{}

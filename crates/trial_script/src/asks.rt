//! Which lines ask.
ghost use Rattle.std.specs.Prelude.{◌≡◌, ◌++◌, ℕ, List, MatchOption};
ghost use Rattle.trial_script.specs.Script.{Asks};

/// The query text that a line asks; `None` exactly if the line asks nothing.
pub fn asked(line: &[u8]) -> Option<&[u8]>
    ensures { MatchOption result ((query : List ℕ) → ¬ Asks line.now query) (λ query. Asks line.now query.now) }
{
    match line {
        [b'a', b's', b'k', b' ', query @ ..] => Some(query),
        _ => None,
    }
}

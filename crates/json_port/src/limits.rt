//! The limits of numbers and names.
ghost use Rattle.std.specs.Prelude.{◌≡◌, ◌≤◌, ◌↔◌, ◌⊎◌, IsTrue, IsFalse, length, MatchResult};
ghost use Rattle.itpg_base.specs.Spans.{IsMoment};
ghost use Rattle.itpg_edit.specs.Sites.{AreMoments};
ghost use Rattle.json_port.specs.Calls as calls;

use itpg_base::{MAX_MOMENT, MAX_NAME, Name, TextCode};

// That both numbers are moments and no text is too long for a name.
pub(crate) fn check_limits(from: i64, to: i64, names: &[&[u8]]) -> Result<(), TextCode>
    ensures { MatchResult result (λ _. AreMoments from to × IsTrue (calls.are_short names.now))
        (λ code. ((code ≡ TextCode.Number) × (¬ AreMoments from to))
        ⊎ ((code ≡ TextCode.Name) × (AreMoments from to × IsFalse (calls.are_short names.now)))) }
{
    check_moments(from, to)?;
    check_names(names)
}

// That both numbers are moments.
pub(crate) fn check_moments(from: i64, to: i64) -> Result<(), TextCode>
    ensures { MatchResult result (λ _. AreMoments from to)
        (λ code. (code ≡ TextCode.Number) × ¬ AreMoments from to) }
{
    if is_moment(from) && is_moment(to) {
        Ok(())
    } else {
        Err(TextCode::Number)
    }
}

fn is_moment(number: i64) -> bool
    ensures { IsTrue result ↔ IsMoment number }
{
    -MAX_MOMENT <= number && number <= MAX_MOMENT
}

// That no text is too long for a name.
pub(crate) fn check_names(names: &[&[u8]]) -> Result<(), TextCode>
    ensures { MatchResult result (λ _. IsTrue (calls.are_short names.now))
        (λ code. (code ≡ TextCode.Name) × IsFalse (calls.are_short names.now)) }
{
    if are_short(names) {
        Ok(())
    } else {
        Err(TextCode::Name)
    }
}

// Whether no text is too long for a name.
pub(crate) fn are_short(names: &[&[u8]]) -> bool
    ensures { result ≡ calls.are_short names.now }
{
    names.iter().all(|name| name.len() <= MAX_NAME)
}

// The name that a text is which isn't too long.
pub(crate) fn named(text: &[u8]) -> Name
    requires { length text.now ≤ MAX_NAME }
    ensures { result ≡ text.now }
{
    Name::new(text).unwrap_or_default()
}

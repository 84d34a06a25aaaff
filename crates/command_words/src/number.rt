//! Numbers as texts.
ghost use Rattle.std.specs.Prelude.{ℕ, ◌<◌, ◌^◌, ◌↔◌, IsTrue, MatchOption};
ghost use Rattle.command_words.specs.Numbers.{AreDigits, Writes};

// How many digits a number has at most.
const MAX_DIGITS: usize = 20;

/// The number that one to twenty decimal digits write; `None` exactly if the text is something else or the number is 2^64 or
/// more.
pub(crate) fn read_number(text: &str) -> Option<u64>
    ensures { MatchOption result ((n : ℕ) → n < 2 ^ 64 → ¬ Writes text.now n) (λ n. Writes text.now n) }
{
    if text.len() > MAX_DIGITS || !is_decimal(text) {
        return None;
    }
    text.parse().ok()
}

// Whether each byte is a decimal digit.
fn is_decimal(text: &str) -> bool
    ensures { IsTrue result ↔ AreDigits text.now }
{
    text.as_bytes().iter().all(|byte| byte.is_ascii_digit())
}

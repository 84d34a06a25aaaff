//! What is kept of a word and a number.
//!
//! Whether a text is a query is said before whether a number is out of range or a name too long, so reading goes on over
//! these, and keeps an empty name and a 0 in their place.
ghost use Rattle.std.specs.Prelude.{◌≡◌, None, Some, if◌then◌else◌};
ghost use Rattle.std.specs.Char.{is_ascii_digit};
ghost use Rattle.std.specs.List.{list_all};
ghost use Rattle.itpg_base.specs.Spans.{IsMoment};
ghost use Rattle.script_lex.specs.Numbers.{number_value};
ghost use Rattle.match_parser.specs.Words.{is_signed as signed};
ghost use Rattle.match_parser.specs.Kept.{kept_name, kept_value, kept_count, is_number as number, is_tame};

use itpg_base::Name;
use script_lex::value_of;

// The word as a name; the empty name where the word is longer than names are.
#[tactic(auto, unfolding(crate::specs::Kept::kept_name))]
pub(crate) fn keep_name(word: &[u8]) -> Name
    ensures { result ≡ kept_name word.now }
{
    match Name::new(word) {
        Some(name) => name,
        None => Name::default(),
    }
}

// Whether the bytes are a number. Those of a number token are: this asks again, so that no call above has to say so.
fn is_number(bytes: &[u8]) -> bool
    ensures { result ≡ number bytes.now }
{
    let digits = match bytes {
        [b'-', digits @ ..] => digits,
        digits => digits,
    };
    !digits.is_empty() && are_digits(digits)
}

fn are_digits(bytes: &[u8]) -> bool
    ensures { result ≡ list_all is_ascii_digit bytes.now }
{
    bytes.iter().all(|byte| byte.is_ascii_digit())
}

// The number, where it is no further from zero than `MAX_NUMBER`.
pub(crate) fn tame_value(bytes: &[u8]) -> Option<i64>
    ensures { result ≡ (if is_tame bytes.now then Some (number_value bytes.now) else None) }
{
    if is_number(bytes) {
        value_of(bytes)
    } else {
        None
    }
}

// The number; 0 if it is out of range.
#[tactic(auto, unfolding(crate::specs::Kept::kept_value))]
pub(crate) fn keep_value(bytes: &[u8]) -> i64
    ensures value { result ≡ kept_value bytes.now }
    ensures moment { IsMoment result }
{
    tame_value(bytes).unwrap_or(0)
}

// The number without its sign; 0 if it is out of range.
#[tactic(auto, unfolding(crate::specs::Kept::kept_count))]
pub(crate) fn keep_count(bytes: &[u8]) -> u64
    ensures { result ≡ kept_count bytes.now }
{
    match tame_value(bytes) {
        Some(value) => value.unsigned_abs(),
        None => 0,
    }
}

// Whether a `-` stands before the digits.
pub(crate) fn is_signed(bytes: &[u8]) -> bool
    ensures { result ≡ signed bytes.now }
{
    match bytes.first() {
        Some(byte) => *byte == b'-',
        None => false,
    }
}

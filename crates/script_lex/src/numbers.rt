//! The value of a number token.
ghost use Rattle.std.specs.Prelude.{◌≤◌, IsTrue, SomeIff};
ghost use Rattle.std.specs.Char.{is_ascii_digit};
ghost use Rattle.std.specs.List.{list_all};
ghost use Rattle.std.specs.Str.Parse.{digits_value};
ghost use Rattle.itpg_base.specs.Spans.{IsMoment};
ghost use Rattle.script_lex.specs.Numbers.{IsNumber, number_value};

use itpg_base::MAX_MOMENT;

/// The greatest number that a number token may write, which is the greatest moment. The least is as far below zero.
pub const MAX_NUMBER: u64 = MAX_MOMENT as u64;

/// The number that the bytes of a number token write; `None` exactly if it is further from zero than `MAX_NUMBER`.
///
/// Leading zeros count for nothing, however many: `007` is 7, and `-0` is 0.
pub fn value_of(number: &[u8]) -> Option<i64>
    requires { IsNumber number.now }
    ensures { SomeIff result (IsMoment (number_value number.now)) (number_value number.now) }
{
    match number {
        [b'-', digits @ ..] => match read_digits(digits) {
            Some(value) => Some(-(value as i64)),
            None => None,
        },
        digits => match read_digits(digits) {
            Some(value) => Some(value as i64),
            None => None,
        },
    }
}

// The number that the digits write; `None` if it is above `MAX_NUMBER`.
fn read_digits(digits: &[u8]) -> Option<u64>
    requires { IsTrue (list_all is_ascii_digit digits.now) }
    ensures { SomeIff result (digits_value 10 digits.now ≤ MAX_NUMBER) (digits_value 10 digits.now) }
{
    let mut value = 0;
    for digit in digits {
        value = value * 10 + u64::from(*digit - b'0');
        if value > MAX_NUMBER {
            return None;
        }
    }
    Some(value)
}

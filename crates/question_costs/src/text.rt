//! Texts, made piece by piece.
ghost use Rattle.std.specs.Prelude.{◌≡◌, ◌+◌, ◌*◌, ◌++◌, ◌<◌, [], ◌∷◌, replicate, OnOk};
ghost use Rattle.std.specs.Fmt.{decimal};
ghost use Rattle.question_costs.specs.Texts.{line_text, three_digits as digits_text, millis_text};

use itoa::Buffer;
use std::alloc::AllocError;

/// Adds a piece.
///
/// # Errors
///
/// If memory runs out.
pub fn add(text: &mut Vec<u8>, piece: &[u8]) -> Result<(), AllocError>
    ensures added { OnOk result (text.new.items ≡ text.old.items ++ piece.now) }
{
    text.extend_from_slice(piece)
}

/// Adds a line: two pieces with a blank between them.
///
/// # Errors
///
/// If memory runs out.
pub fn add_line(text: &mut Vec<u8>, word: &str, rest: &[u8]) -> Result<(), AllocError>
    ensures added { OnOk result (text.new.items ≡ text.old.items ++ line_text word.now rest.now) }
{
    add(text, word.as_bytes())?;
    add(text, b" ")?;
    add(text, rest)?;
    add(text, b"\n")
}

/// Adds a number in decimal.
pub(crate) fn add_number(text: &mut Vec<u8>, number: u64) -> Result<(), AllocError>
    ensures { OnOk result (text.new.items ≡ text.old.items ++ decimal number) }
{
    let mut digits = Buffer::new();
    add(text, digits.format(number).as_bytes())
}

/// Adds a number behind a word.
pub(crate) fn add_named(text: &mut Vec<u8>, word: &[u8], number: u64) -> Result<(), AllocError>
    ensures { OnOk result (text.new.items ≡ text.old.items ++ (word.now ++ decimal number)) }
{
    add(text, word)?;
    add_number(text, number)
}

/// Adds two blanks so many times.
pub(crate) fn add_indent(text: &mut Vec<u8>, depth: usize) -> Result<(), AllocError>
    requires { depth < 1000000 }
    ensures { OnOk result (text.new.items ≡ text.old.items ++ replicate (2 * depth) 32) }
{
    for _ in 0..2 * depth {
        text.push(b' ')?;
    }
    Ok(())
}

/// Adds microseconds as milliseconds with three places.
pub(crate) fn add_millis(text: &mut Vec<u8>, micros: u64) -> Result<(), AllocError>
    ensures { OnOk result (text.new.items ≡ text.old.items ++ millis_text micros) }
{
    add_number(text, micros / 1_000)?;
    add(text, b".")?;
    add_three_digits(text, micros % 1_000)?;
    add(text, b" ms")
}

// Adds the three decimal digits of a number.
fn add_three_digits(text: &mut Vec<u8>, number: u64) -> Result<(), AllocError>
    requires { number < 1000 }
    ensures { OnOk result (text.new.items ≡ text.old.items ++ digits_text number) }
{
    text.push(digit(number / 100))?;
    text.push(digit(number / 10 % 10))?;
    text.push(digit(number % 10))?;
    Ok(())
}

// The byte of a digit.
fn digit(number: u64) -> u8
    requires { number < 10 }
    ensures { result ≡ 48 + number }
{
    b'0' + number as u8
}

//! Reading a token.
ghost use Rattle.std.specs.Prelude.{◌≡◌, ◌≤◌, ◌<◌, ◌∷◌, ◌⊎◌, ◌↔◌, length, drop, slice_index, Some, None, Ok, IfOk, IfErr, IfSome};
ghost use Rattle.std.specs.Char.{is_ascii_digit};
ghost use Rattle.std.specs.List.{take_while};
ghost use Rattle.script_lex.specs.Bytes.{is_in, begins_with};
ghost use Rattle.script_lex.specs.Lexemes.{lexeme, AQuote};
ghost use Rattle.script_lex.specs.Table.{first_token, fault_of, begins_number};
ghost use Rattle.script_lex.specs.Numbers.{HasNumber};
ghost use Rattle.script_lex.specs.Lines.{placed, behind_blanks, AreBlank, IsNext, IsLineFault};

use crate::bytes::Class;
use crate::mark::read_mark;
use crate::token::{Token, What};
use itpg_base::TextCode;

/// The first token from the place `at` on; `None` exactly if only blanks, spaces and tabs, follow.
///
/// Only the bytes from `at` on count, so the place behind a token, its `to`, is where the next one is looked for.
///
/// ```text
///     live n1 -3 7        live, n1, -3, 7
///     p*/-/x>=07          p, *, /-, /, x, >=, 07
///     set a b 'in use'    set, a, b, and the quoted text `in use`
/// ```
///
/// # Errors
///
/// `Byte` at a byte that is no blank and with which no token begins (as a `-` before neither a digit nor `/`, and a `>`
/// before no `=`), and where a byte below 0x20 or above 0x7E comes before the closing quote of a quoted text.
/// `Text` where a quoted text reaches the end of the line. No other code.
pub fn next_token<'a>(line: &'a [u8], at: usize) -> Result<Option<Token<'a>>, TextCode>
    requires { at ≤ length line.now }
    ensures token { IfOk result (λ found. IfSome found (λ t. IsNext line.now at (placed t))) }
    ensures ended { (result ≡ Ok None) ↔ AreBlank (drop at line.now) }
    ensures fault { IfErr result (λ code. IsLineFault line.now at code) }
    ensures codes { IfErr result (λ code. (code ≡ TextCode.Byte) ⊎ (code ≡ TextCode.Text)) }
    ensures number { IfOk result (λ found. IfSome found (λ t. HasNumber (lexeme t.what))) }
    ensures within { IfOk result (λ found. IfSome found (λ t. (at ≤ t.from) × (t.from < t.to) × (t.to ≤ length line.now))) }
{
    let from = skip_blanks(line, at);
    let rest = &line[from..];
    if rest.is_empty() {
        return Ok(None);
    }
    let what = read_token(rest)?;
    Ok(Some(Token {
        from,
        to: from + what.width(),
        what,
    }))
}

// The place of the first byte from `at` on that is no blank, or the end of the line.
pub(crate) fn skip_blanks(line: &[u8], at: usize) -> usize
    requires { at ≤ length line.now }
    ensures place { result ≡ behind_blanks line.now at }
    ensures within { result ≤ length line.now }
{
    at + Class::Blank.run(&line[at..])
}

// The token that the bytes begin with.
fn read_token(bytes: &[u8]) -> Result<What<'_>, TextCode>
    requires { 0 < length bytes.now }
    ensures token { IfOk result (λ what. first_token bytes.now ≡ Some (lexeme what)) }
    ensures fault { IfErr result (λ code. (first_token bytes.now ≡ None) × (fault_of bytes.now ≡ code)) }
{
    let first = bytes[0];
    let rest = &bytes[1..];
    if first.is_ascii_alphabetic() {
        Ok(What::Word(first_and_run(bytes, Class::Word)))
    } else if is_number(first, rest) {
        Ok(What::Number(first_and_run(bytes, Class::Digit)))
    } else if first == b'\'' {
        Ok(What::Quoted(read_quoted(rest)?))
    } else {
        match read_mark(first, rest) {
            Some(mark) => Ok(What::Mark(mark)),
            None => Err(TextCode::Byte),
        }
    }
}

// The first byte, with as many bytes of the kind as follow.
pub(crate) fn first_and_run(bytes: &[u8], class: Class) -> &[u8]
    requires { 0 < length bytes.now }
    ensures { result.now ≡ slice_index bytes.now 0 ∷ take_while (is_in class) (drop 1 bytes.now) }
{
    &bytes[..1 + class.run(&bytes[1..])]
}

// Whether a number begins with the first byte: it is a digit, or a `-` directly before one.
pub(crate) fn is_number(first: u8, rest: &[u8]) -> bool
    ensures { result ≡ begins_number (first ∷ rest.now) }
{
    first.is_ascii_digit() || first == b'-' && begins_with_digit(rest)
}

fn begins_with_digit(bytes: &[u8]) -> bool
    ensures { result ≡ begins_with is_ascii_digit bytes.now }
{
    match bytes.first() {
        Some(byte) => byte.is_ascii_digit(),
        None => false,
    }
}

// The bytes up to the closing quote. The opening quote stands before them.
fn read_quoted(bytes: &[u8]) -> Result<&[u8], TextCode>
    ensures token { IfOk result (λ text. first_token (39 ∷ bytes.now) ≡ Some (AQuote text.now)) }
    ensures fault { IfErr result (λ code. (first_token (39 ∷ bytes.now) ≡ None) × (fault_of (39 ∷ bytes.now) ≡ code)) }
{
    let (text, rest) = bytes.split_at(Class::Plain.run(bytes));
    match rest.first() {
        Some(b'\'') => Ok(text),
        Some(_) => Err(TextCode::Byte),
        None => Err(TextCode::Text),
    }
}

//! What is looked at before the form of a line: its end, blank lines and comments, and the faults of its tokens.
ghost use Rattle.std.specs.Prelude.{◌≡◌, ◌<◌, ◌≤◌, List, length, None, Option, MatchResult};
ghost use Rattle.itpg_base.specs.declared.text_code.TextCode.{TextCode};
ghost use Rattle.script_lex.specs.Lines.{Placed, AreTokens};
ghost use Rattle.edit_reader.specs.Faults as faults;
ghost use Rattle.edit_reader.specs.Telling as telling;
ghost use Rattle.edit_reader.specs.Scans.{IsScan, IsScanFault};
ghost use Rattle.edit_reader.specs.Simple as simple;
ghost use Rattle.std.specs.List.{list_all};

use itpg_base::TextCode;
use script_lex::{MAX_TOKENS, next_token};

/// The line without its last byte where that is a CR.
pub fn without_end(line: &[u8]) -> &[u8]
    ensures line { result.now ≡ faults.without_end line.now }
    ensures shorter { length result.now ≤ length line.now }
{
    match line {
        [body @ .., b'\r'] => body,
        _ => line,
    }
}

// Whether the line has nothing but blanks, or is a comment: its first byte that is no blank is `#`.
pub(crate) fn is_silent(line: &[u8]) -> bool
    ensures { result ≡ faults.is_silent line.now }
{
    for byte in line {
        if *byte != b' ' && *byte != b'\t' {
            return *byte == b'#';
        }
    }
    true
}

// The tokens of a line: how many there are, and the fault at which they end.
#[derive(Clone, Copy)]
struct Scan {
    count: usize,
    end: Option<TextCode>,
}

// The first fault of the tokens as they are: a bad byte, too many tokens, or a quoted text that isn't closed.
pub(crate) fn check_tokens(line: &[u8]) -> Result<(), TextCode>
    ensures { (tokens : List Placed) (end : Option TextCode) → AreTokens line.now 0 tokens end →
        MatchResult result (λ _. (end ≡ None) × (length tokens ≤ MAX_TOKENS)) (IsScanFault tokens end) }
{
    if line.len() <= MAX_TOKENS && is_simple(line) {
        return Ok(());
    }
    let scan = scan_line(line);
    if is_byte(scan.end) {
        return Err(TextCode::Byte);
    }
    if scan.count > MAX_TOKENS {
        return Err(TextCode::Tokens);
    }
    match scan.end {
        Some(code) => Err(code),
        None => Ok(()),
    }
}

// Whether the line has only blanks, letters, digits and `_`, as most lines do. A token begins with each of these that is no blank.
fn is_simple(line: &[u8]) -> bool
    ensures { result ≡ list_all simple.is_simple_byte line.now }
{
    for byte in line {
        if !is_simple_byte(*byte) {
            return false;
        }
    }
    true
}

// Whether the byte is a blank, a letter, a digit or `_`.
fn is_simple_byte(byte: u8) -> bool
    ensures { result ≡ simple.is_simple_byte byte }
{
    byte == b' ' || byte == b'\t' || byte.is_ascii_alphanumeric() || byte == b'_'
}

// Whether the tokens end at a bad byte.
fn is_byte(end: Option<TextCode>) -> bool
    ensures { result ≡ telling.is_byte end }
{
    matches!(end, Some(TextCode::Byte))
}

// Counts the tokens of the line.
fn scan_line(line: &[u8]) -> Scan
    ensures { IsScan line.now result }
{
    let mut count = 0;
    let mut at = 0;
    loop {
        match next_token(line, at) {
            Ok(Some(token)) => {
                count += 1;
                at = token.to;
            }
            Ok(None) => return Scan { count, end: None },
            Err(code) => return Scan {
                count,
                end: Some(code),
            },
        }
    }
}
